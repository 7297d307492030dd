//! All links of a message (Connection Handover 1.2).
ghost use Rattle.std.specs.Prelude.{◌≡◌, ◌≢◌, ◌↔◌, drop};
ghost use Rattle.std.specs.List.{AllByRecursion};
ghost use Rattle.ndef_format.specs.Handovers.{IsAlternative};
ghost use Rattle.ndef_format.specs.Kinds.{kind_of};
ghost use Rattle.ndef_format.specs.declared.profile.Profile.TheVariants.{Standard};
ghost use Rattle.ndef_types.specs.Links.{alternatives, is_alternative};
ghost use Rattle.ndef_c.specs.Handovers.{HasMessage};
ghost use Rattle.ndef_c.specs.Links.{GivesLinks, IsLinkAt, MayHaveLinks};

use crate::handover::{after_version, is_handover};
use crate::link::{NdefLink, link_of};
use crate::message::has_message;
use crate::nested::is_alternative;
use crate::query::{Expected, RecordQuery, give_all};
use crate::record::{NdefRecord, part_in};
use crate::status::BAD_ARGUMENT;
use ndef_types::alternatives_are_exact;
use ndef_value::Tnf;

/// The links of the message with which the bytes begin, by the payload of its handover.
#[derive(Clone, Copy)]
pub(crate) struct Links<'a> {
    pub(crate) bytes: &'a [u8],
    pub(crate) payload: &'a [u8],
}

impl<'a> Expected for Links<'a> {
    ghost expected = { λ tnf kind. is_alternative (kind_of tnf kind) };

    fn is_expected(tnf: Tnf, kind: &[u8]) -> bool
        ensures { result ≡ is_alternative (kind_of tnf kind.now) }
    {
        is_alternative(tnf, kind)
    }
}

impl<'a> RecordQuery for Links<'a> {
    type Given = NdefLink;

    ghost octets = { λ links. drop 1 links.payload.now };

    ghost has_records = { λ links items. MayHaveLinks links.bytes.now links.payload.now
        × HasMessage Standard items links.payload.now
        × AllByRecursion (λ i. IsAlternative i.payload) (alternatives items) };

    ghost is_given = { λ links items. IsLinkAt links.bytes.now links.payload.now };

    ghost in_pieces = { λ links items h. h.1 };

    fn message(&self) -> &[u8] {
        after_version(self.payload)
    }

    fn given(&self, found: &NdefRecord) -> NdefLink {
        // For the proof alone.
        alternatives_are_exact();
        let carrier = part_in(after_version(self.payload), found);
        link_of(self.bytes, found.payload_at, carrier)
    }
}

/// Writes each link, if the array is large enough, and their number.
fn give_links(bytes: &[u8], payload: &[u8], links: &mut [NdefLink], count: &mut usize) -> u32
    requires { MayHaveLinks bytes.now payload.now }
    ensures { GivesLinks bytes.now payload.now links.old links.new count.new result }
{
    give_all(&Links { bytes, payload }, links, count)
}

/// Gives the links of the message with which the bytes begin, in the order of the alternative carriers in the payload
/// of its handover: for each what `ndef_link_at` gives. The handover is read once.
#[unsafe(no_mangle)]
pub extern "C" fn ndef_links(
    bytes: &[u8],
    payload: &[u8],
    links: &mut [NdefLink],
    count: &mut usize,
) -> u32
    ensures bad { result ≡ BAD_ARGUMENT ↔ ¬ MayHaveLinks bytes.now payload.now }
    ensures kept { result ≡ BAD_ARGUMENT → (links.new ≡ links.old) × (count.new ≡ count.old) }
    ensures links { result ≢ BAD_ARGUMENT → GivesLinks bytes.now payload.now links.old links.new count.new result }
{
    if !is_handover(payload) || !has_message(bytes) {
        return BAD_ARGUMENT;
    }
    give_links(bytes, payload, links, count)
}
