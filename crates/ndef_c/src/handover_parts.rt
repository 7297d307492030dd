//! The alternative carriers and the error of a handover, as parts of some bytes (Connection Handover 1.2).
ghost use Rattle.std.specs.Prelude.{◌≡◌, ◌+◌, ◌≤◌, ◌<◌, length, IfNone, IfSome};
ghost use Rattle.ndef_c.specs.HandoverParts.{MayBeCarried, alternative_item, own_references};
ghost use Rattle.ndef_c.specs.PendingRecord.{IsMade, made_item};

use crate::alternative_writing::alternative_content;
use crate::making::PendingRecord;
use crate::part::NdefPart;
use crate::poster_parts::known_made;
use ndef_lang::Kind;

/// An alternative carrier of a handover that is written.
#[repr(C)]
#[derive(Clone, Copy, Drop)]
pub struct NdefAlternativeWriting {
    /// The index of the first of its references, the carrier data reference.
    pub first: usize,
    /// The number of its references, 1 to 256.
    pub references: usize,
    /// The power state of the carrier, 0 to 3.
    pub power: u32,
}

/// Its own references, if they are some of all.
fn own_references<'a>(
    all: &'a [NdefPart],
    alternative: &NdefAlternativeWriting,
) -> Option<&'a [NdefPart]>
    ensures none { IfNone result (¬ (alternative.now.first + alternative.now.references ≤ length all.now)) }
    ensures within { IfSome result (λ _. alternative.now.first + alternative.now.references ≤ length all.now) }
    ensures some { IfSome result (λ found. found.now ≡ own_references all.now alternative.now) }
{
    if alternative.first > all.len() || alternative.references > all.len() - alternative.first {
        return None;
    }
    let (_before, from) = all.split_at(alternative.first);
    Some(&from[..alternative.references])
}

/// The record of an alternative carrier, if it may be written.
pub(crate) fn alternative_made<'a>(
    bytes: &'a [u8],
    references: &'a [NdefPart],
    alternative: &NdefAlternativeWriting,
) -> Option<PendingRecord<'a>>
    ensures none { IfNone result (¬ MayBeCarried bytes.now references.now alternative.now) }
    ensures may { IfSome result (λ _. MayBeCarried bytes.now references.now alternative.now) }
    ensures made { IfSome result IsMade }
    ensures item { IfSome result (λ m. made_item m ≡ alternative_item bytes.now references.now alternative.now) }
{
    let own = own_references(references, alternative)?;
    let content = alternative_content(alternative.power, bytes, own)?;
    known_made(Kind::Alternative, &[], &content)
}
