//! The kinds of records.
ghost use Rattle.std.specs.Prelude.{◌≡◌};
ghost use Rattle.ndef_format.specs.Kinds.{kind_of};
ghost use Rattle.ndef_types.specs.Links.{is_handover};

use ndef_lang::Kind;
use ndef_value::Record;

/// The kind of a record, by its type.
pub fn kind_of(item: &Record) -> Kind
    ensures { result ≡ kind_of item.now.tnf item.now.kind }
{
    Kind::of(item.tnf(), item.kind())
}

/// Whether a record of the kind is a handover request or select.
pub fn is_handover(kind: Kind) -> bool
    ensures { result ≡ is_handover kind }
{
    match kind {
        Kind::Request | Kind::Select => true,
        _ => false,
    }
}
