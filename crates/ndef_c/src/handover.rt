//! The payloads of handover requests and selects (Connection Handover 1.2).
ghost use Rattle.std.specs.Prelude.{◌≡◌, ◌<◌, ◌^◌, ◌↔◌, length, drop, IsTrue};
ghost use Rattle.ndef_c.specs.Handovers.{IsHandoverPayload, TellsVersion};

use crate::refusal::is_payload;
use ndef_lang::Kind;
use ndef_nest::Nest;
use ndef_value::Profile;

/// Whether the payload is that of a handover request or of a select. A request is mostly a select's payload too, as
/// nothing demands that a select has no collision resolution: so a second check is seldom needed.
pub(crate) fn is_handover(payload: &[u8]) -> bool
    ensures { IsTrue result ↔ (IsHandoverPayload payload.now × (length payload.now < 2 ^ 32)) }
{
    is_payload::<Nest>(Kind::Select, Profile::Standard, payload)
        || is_payload::<Nest>(Kind::Request, Profile::Standard, payload)
}

/// The major and the minor version of a handover.
pub(crate) fn version_of(payload: &[u8]) -> (u32, u32)
    requires { 0 < length payload.now }
    ensures { TellsVersion payload.now result.0 result.1 }
{
    let version = u32::from(payload[0]);
    (version / 16, version % 16)
}

/// The message of a handover, after its version octet.
pub(crate) fn after_version(payload: &[u8]) -> &[u8]
    requires { 0 < length payload.now }
    ensures { result.now ≡ drop 1 payload.now }
{
    &payload[1..]
}
