//! Payloads that are decoded alone, with as many records as a message may have, and with one more.
use ndef_types::{DecodeError, Select, SmartPoster};
use ndef_value::{Reason, Refusal};
use std::alloc::Global;
use std::test::Fail;

/// These octets, with the first record, and then empty records of an unknown type, so that there are `count` in all.
fn with_records(alloc: Global, first: &[u8], count: u32) -> Result<Vec<u8>, Fail> {
    let mut bytes = Vec::new(alloc);
    bytes.extend_from_slice(first)?;
    for _ in 2..count {
        bytes.extend_from_slice(&[0x15, 0x00, 0x00])?;
    }
    bytes.extend_from_slice(&[0x55, 0x00, 0x00])?;
    Ok(bytes)
}

fn poster_records(alloc: Global, count: u32) -> Result<Result<usize, DecodeError>, Fail> {
    let payload = with_records(alloc, &[0x91, 0x01, 0x01, 0x55, 0x00], count)?;
    Ok(SmartPoster::decode(alloc, payload.as_slice()).map(|poster| poster.message().len()))
}

fn select_records(alloc: Global, count: u32) -> Result<Result<Option<usize>, DecodeError>, Fail> {
    let payload = with_records(alloc, &[0x12, 0x95, 0x00, 0x00], count)?;
    Ok(Select::decode(alloc, payload.as_slice()).map(|select| select
        .message()
        .map(|message| message.len())))
}

fn too_many_at(at: u64) -> DecodeError {
    let reason = Reason::TooManyRecords;
    DecodeError::Refused(Refusal { at, reason })
}

#[test]
fn decodes_65535_records(rt: HostRuntime) -> Result<(), Fail> {
    let alloc = rt.alloc();
    let poster = poster_records(alloc, 65535)?;
    assert!(rt; poster == Ok(65535), "{poster:?}");
    let select = select_records(alloc, 65535)?;
    assert!(rt; select == Ok(Some(65535)), "{select:?}");
    Ok(())
}

// By its header octet, another record follows the 65535th.
#[test]
fn refuses_65536_records(rt: HostRuntime) -> Result<(), Fail> {
    let alloc = rt.alloc();
    let poster = poster_records(alloc, 65536)?;
    assert!(rt; poster == Err(too_many_at(5 + 3 * 65533)), "{poster:?}");
    let select = select_records(alloc, 65536)?;
    assert!(rt; select == Err(too_many_at(1 + 3 * 65534)), "{select:?}");
    Ok(())
}
