//! Limits as numbers.
ghost use Rattle.std.specs.Prelude.{◌≡◌, ◌<◌, ◌↔◌, IfSome, IsSome, IsTrue};
ghost use Rattle.ndef_format.specs.Limits.{usual_limits};
ghost use Rattle.ndef_c.specs.Checks.{ChecksPayloads, MayBeSet, limits_of, profile_of};

use ndef_value::{Limits, Profile};

/// Limits, and how bytes are checked.
#[repr(C)]
#[derive(Clone, Copy, Drop)]
pub struct NdefLimits {
    /// The greatest number of bytes of a payload, its chunks joined, 1 to 4294967295.
    pub payload: u32,
    /// The greatest number of records of a message, 1 to 65535.
    pub records: u32,
    /// The greatest number of chunks of a record, 1 to 65535.
    pub chunks: u32,
    /// 1 for the profile Standard, 2 for a look into no payload, 3 for both.
    pub flags: u32,
}

/// The profile that the flags ask for.
pub(crate) fn profile_of(flags: u32) -> Profile
    ensures { result ≡ profile_of flags }
{
    if flags % 2 == 1 {
        Profile::Standard
    } else {
        Profile::Strict
    }
}

/// Returns the limits of these numbers, and whether payloads are validated.
pub(crate) fn limits_of(numbers: &NdefLimits) -> Option<(Limits, bool)>
    ensures some { IsSome result ↔ MayBeSet numbers.now }
    ensures limits { IfSome result (λ r. r.0 ≡ limits_of numbers.now) }
    ensures looks { IfSome result (λ r. IsTrue r.1 ↔ ChecksPayloads numbers.now) }
{
    if numbers.flags > 3 {
        return None;
    }
    let Ok(limits) = Limits::new(numbers.payload, numbers.records, numbers.chunks) else {
        return None;
    };
    Some((limits.with(profile_of(numbers.flags)), numbers.flags < 2))
}

/// Writes the default limits: 1048576 bytes, 1024 records and 4096 chunks, strict, with a look
/// into payloads.
#[unsafe(no_mangle)]
pub extern "C" fn ndef_default_limits(out: &mut NdefLimits)
    ensures limits { limits_of out.new ≡ usual_limits }
    ensures looks { ChecksPayloads out.new }
{
    let limits = Limits::usual();
    *out = NdefLimits {
        payload: limits.payload(),
        records: limits.records(),
        chunks: limits.pieces(),
        flags: 0,
    };
}
