//! A query for records of a message, each of which is in one piece.
ghost use Rattle.std.specs.Prelude.{◌≡◌, ◌≢◌, ◌≤◌, ◌⊎◌, ℕ, Bool, List, filter, length};
ghost use Rattle.ndef_format.specs.Messages.{Item as Each, run_record};
ghost use Rattle.ndef_format.specs.declared.profile.Profile.{Profile};
ghost use Rattle.ndef_format.specs.declared.profile.Profile.TheVariants.{Standard};
ghost use Rattle.ndef_format.specs.declared.tnf.Tnf.{Tnf as TypeNameFormat};
ghost use Rattle.ndef_c.specs.Arrays.{EachAt, GivesMany, set_over};
ghost use Rattle.ndef_c.specs.Nested.{MayBeInPieces};
ghost use Rattle.ndef_c.specs.RecordQuery.{IsExpectedAt, has_type};
ghost use Rattle.ndef_c.specs.Walks.{IsRecordAt};

use crate::record::{NdefRecord, tnf_in, type_in};
use crate::status::{BUFFER_TOO_SMALL, END, OK};
use crate::walk::Walk;
use ndef_value::Tnf;

/// A selection of the records of a message by their types.
pub(crate) trait Expected {
    /// Whether records of a type are wanted (NDEF 1.0, TNF and TYPE).
    ghost expected: { TypeNameFormat → List ℕ → Bool };

    /// Whether records of this type are wanted.
    fn is_expected(tnf: Tnf, kind: &[u8]) -> bool
        ensures { result ≡ expected tnf kind.now };
}

/// The records that are sought in a message, and the result for each.
pub(crate) trait RecordQuery: Expected {
    /// The result for a record.
    type Given: Copy;

    /// The bytes of the message.
    ghost octets: { Self → List ℕ };

    /// These may be the records of the message.
    ghost has_records: { Self → List Each → Type 0 };

    /// The result for the record with an index among the selected ones.
    ghost is_given: { Self → List Each → ℕ → Self.Given → Type 0 };

    /// The message.
    fn message(&self) -> &[u8]
        requires { (items : List Each) × has_records self.now items }
        ensures { result.now ≡ octets self.now };

    /// Returns the result for a record.
    fn given(&self, found: &NdefRecord) -> Self::Given
        requires { (items : List Each) × (index : ℕ) × has_records self.now items
            × IsExpectedAt (has_type Self.expected) (octets self.now) items index found.now }
        ensures { (items : List Each) (index : ℕ) → has_records self.now items
            → IsExpectedAt (has_type Self.expected) (octets self.now) items index found.now
            → is_given self.now items index result };

    /// Each record is in one piece.
    ghost in_pieces: { (s : Self) (items : List Each) → has_records s items
        → MayBeInPieces Standard items (octets s) };
}

/// Whether a record is wanted, by its type.
pub(crate) fn wants<W: Expected>(bytes: &[u8], found: &NdefRecord) -> bool
    requires { (at : ℕ) × IsRecordAt bytes.now at found.now }
    ensures { (at : ℕ) → (r : IsRecordAt bytes.now at found.now) → result ≡ has_type W.expected (run_record r.run) }
{
    W::is_expected(tnf_in(found), type_in(bytes, found))
}

/// The number of wanted records in a message, each record of which is in one piece.
pub(crate) fn count_expected<W: Expected>(bytes: &[u8]) -> usize
    requires { (profile : Profile) × (items : List Each) × MayBeInPieces profile items bytes.now }
    ensures { (profile : Profile) (items : List Each) → MayBeInPieces profile items bytes.now
        → result ≡ length (filter (has_type W.expected) items) }
{
    let mut count = 0;
    for found in Walk::from(bytes, 0) {
        if wants::<W>(bytes, &found) {
            count += 1;
        }
    }
    count
}

/// Gives the result for the selected record at `index`, or END if fewer records are selected.
pub(crate) fn give_one<S: RecordQuery>(query: &S, index: usize, out: &mut S::Given) -> u32
    requires { (items : List Each) × S.has_records query.now items }
    ensures known { (result ≡ OK) ⊎ (result ≡ END) }
    ensures given { result ≡ OK → (items : List Each) → S.has_records query.now items
        → S.is_given query.now items index out.new }
    ensures end { result ≡ END → (items : List Each) → S.has_records query.now items
        → length (filter (has_type S.expected) items) ≤ index }
    ensures kept { result ≢ OK → out.new ≡ out.old }
{
    let message = query.message();
    let mut left = index;
    for found in Walk::from(message, 0) {
        if wants::<S>(message, &found) {
            if left == 0 {
                *out = query.given(&found);
                return OK;
            }
            left -= 1;
        }
    }
    END
}

/// Writes the result for each selected record to the front of the array.
fn tell_all<S: RecordQuery>(query: &S, array: &mut [S::Given])
    requires records { (items : List Each) × S.has_records query.now items }
    requires buffer { (items : List Each) → S.has_records query.now items
        → length (filter (has_type S.expected) items) ≤ length array.old }
    ensures { (items : List Each) × S.has_records query.now items
        × (reported : List S.Given) × EachAt (S.is_given query.now items) 0 reported
        × (length reported ≡ length (filter (has_type S.expected) items)) × (array.new ≡ set_over reported array.old) }
{
    let message = query.message();
    let mut index = 0;
    for found in Walk::from(message, 0) {
        if wants::<S>(message, &found) {
            array[index] = query.given(&found);
            index += 1;
        }
    }
}

/// Writes the results, if the array is large enough, and the number of the records.
pub(crate) fn give_all<S: RecordQuery>(query: &S, array: &mut [S::Given], count: &mut usize) -> u32
    requires { (items : List Each) × S.has_records query.now items }
    ensures known { (result ≡ OK) ⊎ (result ≡ BUFFER_TOO_SMALL) }
    ensures gives { (items : List Each) × S.has_records query.now items
        × GivesMany (EachAt (S.is_given query.now items) 0) (length (filter (has_type S.expected) items))
        array.old array.new count.new result }
{
    let needed = count_expected::<S>(query.message());
    *count = needed;
    if array.len() < needed {
        return BUFFER_TOO_SMALL;
    }
    tell_all(query, array);
    OK
}
