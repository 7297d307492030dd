//! Messages within payloads.
ghost use Rattle.std.specs.Prelude.{◌≡◌, ◌+◌, ◌^◌, ◌≤◌, ◌↔◌, ◌∷◌, ◌⊎◌, List, [], Some, length, map, IfOk, IfSome, IsErrOf};
ghost use Rattle.ndef_format.specs.Canonical.{canonical};
ghost use Rattle.ndef_value.specs.declared.limits.TheConstants.{MOST_RECORDS};
ghost use Rattle.ndef_format.specs.NestedReasons.{nested_limits};
ghost use Rattle.ndef_format.specs.Messages.{Item, run_record};
ghost use Rattle.ndef_format.specs.Records.{Run};
ghost use Rattle.ndef_format.specs.Nested.{HasContents, IsNestedBy, Nested};
ghost use Rattle.ndef_format.specs.declared.table.Table.{Table};
ghost use Rattle.ndef_types.specs.Contents.{StandsForMessage};

use crate::EncodeError;
use crate::accepting::MOST;
use ndef_lang::Opaque;
use ndef_message::{Form, View, encode, encoded_length, short_is_canonical, view, views_are_exact};
use ndef_value::{Bytes, Limits, MOST_PAYLOAD, MOST_RECORDS, Message, NoMemory, Profile};
use std::alloc::Global;

/// Limits that each nested message meets.
fn nested_limits(profile: Profile) -> Limits
    ensures { result ≡ nested_limits MOST_RECORDS profile }
{
    match Limits::new(MOST_PAYLOAD, MOST_RECORDS, 1) {
        Ok(limits) => limits.with(profile),
        Err(_) => unreachable!(),
    }
}

/// The view of a nested message.
pub(crate) fn view_nested(bytes: &[u8], profile: Profile) -> View<'_>
    requires { (table : Table) × Nested table MOST_RECORDS profile bytes.now }
    ensures { (table : Table) (runs : List Run) (items : List Item)
        → IsNestedBy table MOST_RECORDS profile runs items bytes.now
        → (result.runs ≡ runs) × (map run_record result.runs ≡ items) }
{
    views_are_exact::<Opaque>();
    match view::<Opaque>(bytes, nested_limits(profile)) {
        Ok(view) => view,
        Err(_) => unreachable!(),
    }
}

/// The message that the bytes spell, which are a nested message. Only memory may fail.
pub(crate) fn read_nested(
    alloc: Global,
    bytes: &[u8],
    profile: Profile,
) -> Result<Message, NoMemory>
    requires { (table : Table) × Nested table MOST_RECORDS profile bytes.now }
    ensures stands { IfOk result (λ message. StandsForMessage profile bytes.now (Some message)) }
    ensures contents { IfOk result
        (λ message. (table : Table) → Nested table MOST_RECORDS profile bytes.now → HasContents table profile message) }
{
    view_nested(bytes, profile).to_message(alloc)
}

/// The nested message that the bytes spell, and None if there are no bytes. Only memory may fail.
pub(crate) fn read_optional(
    alloc: Global,
    bytes: &[u8],
    profile: Profile,
) -> Result<Option<Message>, NoMemory>
    requires { (table : Table) × ((bytes.now ≡ []) ⊎ Nested table MOST_RECORDS profile bytes.now) }
    ensures stands { IfOk result (StandsForMessage profile bytes.now) }
    ensures contents { IfOk result
        (λ message. (table : Table) → (bytes.now ≡ []) ⊎ Nested table MOST_RECORDS profile bytes.now
        → IfSome message (HasContents table profile)) }
{
    if bytes.is_empty() {
        return Ok(None);
    }
    let message = read_nested(alloc, bytes, profile)?;
    Ok(Some(message))
}

/// An octet, and the canonical spelling of a message after it.
pub(crate) fn encode_after(
    alloc: Global,
    octet: u8,
    message: &Message,
) -> Result<Bytes, EncodeError>
    ensures ok { IfOk result (λ payload. payload ≡ octet ∷ canonical message.now) }
    ensures too_long { IsErrOf result EncodeError.TooLong ↔ (2 ^ 32 ≤ 1 + length (canonical message.now)) }
{
    // For the proof alone.
    short_is_canonical();
    if encoded_length(message, Form::Short) >= MOST as u64 {
        return Err(EncodeError::TooLong);
    }
    let mut payload = Bytes::new(alloc);
    payload.extend(&[octet])?;
    payload.extend(encode(alloc, message, Form::Short)?.as_slice())?;
    Ok(payload)
}
