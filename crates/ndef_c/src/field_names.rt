//! The names of fields.
ghost use Rattle.std.specs.Prelude.{◌≡◌, ◌≢◌, ◌<◌, ◌≤◌, ◌⊎◌, ◌↔◌, IfSome, IsSome};
ghost use Rattle.ndef_c.specs.Fields.{GivesFieldName, field_number};

use crate::buffer::give;
use crate::status::BAD_ARGUMENT;
use ndef_fields::FieldName;

/// The number of a name.
pub(crate) fn number_of(name: FieldName) -> u32
    ensures { result ≡ field_number name }
{
    name as u32
}

/// The name with a number.
pub(crate) fn name_of(number: u32) -> Option<FieldName>
    ensures reported { IfSome result (λ n. field_number n ≡ number) }
    ensures some { IsSome result ↔ ((1 ≤ number) × (number ≤ 31)) }
{
    let name = match number {
        1 => FieldName::Header,
        2 => FieldName::KindLength,
        3 => FieldName::PayloadLength,
        4 => FieldName::IdLength,
        5 => FieldName::Kind,
        6 => FieldName::Id,
        7 => FieldName::Payload,
        8 => FieldName::Status,
        9 => FieldName::Language,
        10 => FieldName::Mark,
        11 => FieldName::Text,
        12 => FieldName::UriCode,
        13 => FieldName::UriRest,
        14 => FieldName::Action,
        15 => FieldName::Size,
        16 => FieldName::MediaType,
        17 => FieldName::Version,
        18 => FieldName::Collision,
        19 => FieldName::Power,
        20 => FieldName::ReferenceLength,
        21 => FieldName::Reference,
        22 => FieldName::AuxiliaryCount,
        23 => FieldName::AuxiliaryLength,
        24 => FieldName::Auxiliary,
        25 => FieldName::AfterAuxiliary,
        26 => FieldName::ErrorReason,
        27 => FieldName::ErrorData,
        28 => FieldName::CarrierFormat,
        29 => FieldName::CarrierKindLength,
        30 => FieldName::CarrierKind,
        31 => FieldName::CarrierData,
        _ => return None,
    };
    Some(name)
}

/// Writes the name of the field with a number, in ASCII and with no NUL after it, to the buffer.
#[unsafe(no_mangle)]
pub extern "C" fn ndef_field_name(name: u32, buffer: &mut [u8], count: &mut usize) -> u32
    ensures bad { result ≡ BAD_ARGUMENT ↔ ((name ≡ 0) ⊎ (31 < name)) }
    ensures kept { result ≡ BAD_ARGUMENT → (buffer.new ≡ buffer.old) × (count.new ≡ count.old) }
    ensures text { result ≢ BAD_ARGUMENT → GivesFieldName name buffer.old buffer.new count.new result }
    ensures short { result ≢ BAD_ARGUMENT → count.new ≤ 31 }
{
    let Some(name) = name_of(name) else {
        return BAD_ARGUMENT;
    };
    give(name.text(), buffer, count)
}
