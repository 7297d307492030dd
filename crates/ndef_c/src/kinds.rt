//! What the payload of a record is, as its type says.
ghost use Rattle.std.specs.Prelude.{◌≡◌, ◌≤◌, ℕ};
ghost use Rattle.ndef_format.specs.Kinds.{kind_of};
ghost use Rattle.ndef_format.specs.Messages.{run_record};
ghost use Rattle.ndef_c.specs.Kinds.{HasType, kind_number, kind_within, table_within, type_kind};
ghost use Rattle.ndef_c.specs.Walks.{IsRecordAt};

use crate::part::NdefPart;
use crate::poster_parts::part_in;
use crate::record::NdefRecord;
use crate::writing::tnf_of;
use ndef_lang::Kind;
use ndef_nest::Table;

/// The number of a kind.
pub(crate) fn number_of(kind: Kind) -> u32
    ensures number { result ≡ kind_number kind }
    ensures bound { result ≤ 12 }
{
    kind as u32
}

/// The message within payloads of the kind with a number, if they hold one.
pub(crate) fn table_within(within: u32) -> Option<Table>
    ensures { result ≡ table_within within }
{
    match within {
        3 => Some(Table::SmartPoster),
        4 => Some(Table::Request),
        5 => Some(Table::Select),
        _ => None,
    }
}

/// The kind of a record in a message, by the kind of its type; `within` is the number of the kind of payload that
/// holds the message, 0 for a message of its own.
fn kind_within(within: u32, kind: Kind) -> Kind
    ensures { result ≡ kind_within within kind }
{
    if within == 0 {
        return kind.outer();
    }
    match table_within(within) {
        Some(table) => table.checked(kind),
        None => Kind::Other,
    }
}

/// Says what the payload of a record is, by its type: the number of its kind, 0 for any other. `within` is the number
/// of the kind of payload that holds the message of the record, 0 for a message of its own.
#[unsafe(no_mangle)]
pub extern "C" fn ndef_kind(bytes: &[u8], record: &NdefRecord, within: u32) -> u32
    ensures known { result ≤ 12 }
    ensures kind { HasType bytes.now «record».now
        → result ≡ kind_number (kind_within within (type_kind bytes.now «record».now)) }
    ensures other { (¬ HasType bytes.now «record».now) → result ≡ 0 }
    ensures record { (at : ℕ) → (r : IsRecordAt bytes.now at «record».now)
        → result ≡ kind_number (kind_within within (kind_of (run_record r.run).tnf (run_record r.run).kind)) }
{
    let place = NdefPart {
        at: record.type_at,
        length: record.type_length,
    };
    match (tnf_of(record.tnf), part_in(bytes, &place)) {
        (Some(tnf), Some(name)) => number_of(kind_within(within, Kind::of(tnf, name))),
        _ => number_of(Kind::Other),
    }
}
