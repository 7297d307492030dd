//! A wrong handover is refused even where no memory is left: it is checked before anything is copied.
use crate::memory::use_up;
use ndef_lang::Opaque;
use ndef_message::view;
use ndef_types::{LinkError, carriers_view};
use ndef_value::{Limits, Reason, Refusal};
use std::alloc::Global;
use std::test::Fail;

/// A select of version 2.
const VERSION: &[u8] = b"\xd1\x02\x01Hs\x20";

/// A select in three pieces: version 1.2, and a record of a reserved type name format.
const PIECES: &[u8] = b"\xb1\x02\x01Hs\x12\x36\x00\x02\xd7\x00\x56\x00\x01\x00";

/// Returns the place and the reason of the refusal of the carriers of the message, if they are refused.
fn refusal_of(alloc: Global, bytes: &[u8]) -> Option<Refusal> {
    let view = view::<Opaque>(bytes, Limits::usual()).ok()?;
    match carriers_view(alloc, &view) {
        Err(LinkError::Refused(refusal)) => Some(refusal),
        _ => None,
    }
}

#[test]
fn refuses_handovers_without_memory(rt: HostRuntime) -> Result<(), Fail> {
    let alloc = rt.alloc();
    let mut held = Vec::with_capacity(alloc, 65536)?;
    let used_up = use_up(alloc, &mut held);
    let version = refusal_of(alloc, VERSION);
    let pieces = refusal_of(alloc, PIECES);
    drop(held);
    let of_version = Refusal {
        at: 0,
        reason: Reason::Version,
    };
    let of_pieces = Refusal {
        at: 1,
        reason: Reason::ReservedTnf,
    };
    assert!(rt; used_up);
    assert!(rt; version == Some(of_version), "{version:?}");
    assert!(rt; pieces == Some(of_pieces), "{pieces:?}");
    Ok(())
}
