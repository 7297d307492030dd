//! The first record with a type or an id.
ghost use Rattle.std.specs.Prelude.{◌≡◌, ◌≢◌, ◌↔◌, ◌⊎◌, ℕ, length, IsTrue};
ghost use Rattle.ndef_format.specs.Messages.{run_record};
ghost use Rattle.ndef_c.specs.Finding.{BreaksOff, FindsAt, Has, HasIdOf, HasNone, IsOfType};
ghost use Rattle.ndef_c.specs.Walks.{IsRecordAt};

use crate::record::{NdefRecord, id_in, type_in};
use crate::status::{BAD_ARGUMENT, END, OK};
use crate::walk::Walk;

/// The property by which a record is found.
#[derive(Clone, Copy)]
enum Expected<'a> {
    /// A type name format, as a number, and a type.
    Kind(u32, &'a [u8]),
    /// An id that isn't empty.
    Id(&'a [u8]),
}

/// Whether a record has the expected property.
fn has(bytes: &[u8], found: &NdefRecord, expected: &Expected<'_>) -> bool
    requires { (at : ℕ) × IsRecordAt bytes.now at found.now }
    ensures { (at : ℕ) → (r : IsRecordAt bytes.now at found.now)
        → (IsTrue result ↔ Has expected.now (run_record r.run)) }
{
    match *expected {
        Expected::Kind(tnf, kind) => found.tnf == tnf && type_in(bytes, found) == kind,
        Expected::Id(id) => !id.is_empty() && id_in(bytes, found) == id,
    }
}

/// Gives the first record from a place on that has the expected property.
fn find(bytes: &[u8], at: usize, expected: &Expected<'_>, out: &mut NdefRecord) -> u32
    ensures known { (result ≡ OK) ⊎ (result ≡ END) ⊎ (result ≡ BAD_ARGUMENT) }
    ensures found { result ≡ OK → FindsAt (Has expected.now) bytes.now at out.new }
    ensures end { result ≡ END → (at ≡ length bytes.now) ⊎ HasNone (Has expected.now) bytes.now at }
    ensures bad { result ≡ BAD_ARGUMENT → (at ≢ length bytes.now) × BreaksOff (Has expected.now) bytes.now at }
    ensures kept { result ≢ OK → out.new ≡ out.old }
{
    if at == bytes.len() {
        return END;
    }
    for found in Walk::from(bytes, at) {
        if has(bytes, &found, expected) {
            *out = found;
            return OK;
        }
        if found.last == 1 {
            return END;
        }
    }
    BAD_ARGUMENT
}

/// Gives the first record with a type (NDEF 1.0, TNF and TYPE) from the one at an offset on, up to
/// the one that is the last of its message.
#[unsafe(no_mangle)]
pub extern "C" fn ndef_find_type(
    bytes: &[u8],
    at: usize,
    tnf: u32,
    kind: &[u8],
    out: &mut NdefRecord,
) -> u32
    ensures known { (result ≡ OK) ⊎ (result ≡ END) ⊎ (result ≡ BAD_ARGUMENT) }
    ensures found { result ≡ OK → FindsAt (IsOfType tnf kind.now) bytes.now at out.new }
    ensures end { result ≡ END → (at ≡ length bytes.now) ⊎ HasNone (IsOfType tnf kind.now) bytes.now at }
    ensures bad { result ≡ BAD_ARGUMENT → (at ≢ length bytes.now) × BreaksOff (IsOfType tnf kind.now) bytes.now at }
    ensures kept { result ≢ OK → out.new ≡ out.old }
{
    find(bytes, at, &Expected::Kind(tnf, kind), out)
}

/// Gives the first record with an id (NDEF 1.0, ID) from the one at an offset on, up to the one that
/// is the last of its message. No record has the empty id.
#[unsafe(no_mangle)]
pub extern "C" fn ndef_find_id(bytes: &[u8], at: usize, id: &[u8], out: &mut NdefRecord) -> u32
    ensures known { (result ≡ OK) ⊎ (result ≡ END) ⊎ (result ≡ BAD_ARGUMENT) }
    ensures found { result ≡ OK → FindsAt (HasIdOf id.now) bytes.now at out.new }
    ensures end { result ≡ END → (at ≡ length bytes.now) ⊎ HasNone (HasIdOf id.now) bytes.now at }
    ensures bad { result ≡ BAD_ARGUMENT → (at ≢ length bytes.now) × BreaksOff (HasIdOf id.now) bytes.now at }
    ensures kept { result ≢ OK → out.new ≡ out.old }
{
    find(bytes, at, &Expected::Id(id), out)
}
