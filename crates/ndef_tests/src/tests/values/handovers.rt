//! Alternative carriers, handover errors and handover carriers that are made of their parts.
use ndef_types::{Ac, Carrier, DetailError, HandoverError, Power, TooMany};
use ndef_value::{Bytes, Name};
use std::alloc::Global;
use std::test::Fail;

fn name(alloc: Global, bytes: &[u8]) -> Result<Name, Fail> {
    Ok(Name::from_slice(alloc, bytes)?)
}

fn bytes(alloc: Global, bytes: &[u8]) -> Result<Bytes, Fail> {
    Ok(Bytes::from_slice(alloc, bytes)?)
}

/// An alternative carrier with two names.
fn two_names(alloc: Global) -> Result<Ac, Fail> {
    let mut auxiliary = Vec::new(alloc);
    auxiliary.push(name(alloc, b"1")?)?;
    auxiliary.push(name(alloc, b"22")?)?;
    let (reference, rest) = (name(alloc, b"0")?, bytes(alloc, b"r")?);
    Ok(Ac::new(Power::Activating, reference, auxiliary, rest)?)
}

#[test]
fn alternative_carriers_are_made(rt: HostRuntime) -> Result<(), Fail> {
    let payload = two_names(rt.alloc())?.encode(rt.alloc())?;
    assert!(rt; payload.as_slice() == b"\x02\x010\x02\x011\x0222r".as_slice());
    Ok(())
}

/// The parts that come back of an alternative carrier with 256 names.
fn too_many_names(alloc: Global) -> Result<Option<TooMany>, Fail> {
    let mut auxiliary = Vec::new(alloc);
    for _ in 0..256u16 {
        auxiliary.push(name(alloc, b"1")?)?;
    }
    let (reference, rest) = (name(alloc, b"0")?, bytes(alloc, b"r")?);
    Ok(Ac::new(Power::Unknown, reference, auxiliary, rest).err())
}

/// Whether these are the parts.
fn are_parts(back: &TooMany) -> bool {
    back.power == Power::Unknown
        && back.reference.as_slice() == b"0".as_slice()
        && back.auxiliary.len() == 256
        && back.rest.as_slice() == b"r".as_slice()
}

#[test]
fn parts_of_alternative_carriers_come_back(rt: HostRuntime) -> Result<(), Fail> {
    let back = too_many_names(rt.alloc())?;
    assert!(rt; matches!(&back, Some(back) if are_parts(back)));
    Ok(())
}

#[test]
fn handover_errors_of_other_shapes_are_refused(rt: HostRuntime) {
    let alloc = rt.alloc();
    let rows: [(u8, &[u8]); 4] = [(1, b""), (2, b"@"), (2, b"12345"), (3, b"12")];
    for (reason, detail) in rows {
        let made = HandoverError::new(alloc, reason, detail);
        assert!(rt; made.err() == Some(DetailError::BadShape), "{reason}");
    }
}

#[test]
fn carriers_are_made(rt: HostRuntime) -> Result<(), Fail> {
    let alloc = rt.alloc();
    let made = Carrier::new(7, name(alloc, b"a")?, bytes(alloc, b"b")?);
    assert!(rt; made.encode(alloc)?.as_slice() == b"\x07\x01ab".as_slice());
    Ok(())
}
