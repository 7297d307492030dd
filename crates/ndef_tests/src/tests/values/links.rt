//! The carriers of a message: the alternative carriers of its handover, and the records that they refer
//! to.
use crate::case::{answer_of, profile_of};
use crate::lines::{fields, octets_of};
use crate::samples::{HELLO, SELECT, read};
use ndef_types::{LinkError, Links, Power, carriers, carriers_as};
use ndef_value::Profile;
use std::alloc::Global;
use std::test::Fail;

/// Links by the indices of their records, `none` where there is none: `PROFILE | MESSAGE | INDEX ..`, or
/// `PROFILE | MESSAGE | refused PLACE REASON`. Of two handovers the first counts, of two records with an
/// id too, and a handover has an index itself.
const LINKS: &str = "
strict | D1 02 01 48 73 12 |
strict | 99 02 0A 01 48 73 48 12 D1 02 04 61 63 01 01 48 00 5D 00 00 01 48 | 0
strict | 91 02 12 48 73 12 91 02 03 61 63 01 00 00 51 02 04 61 63 01 01 78 00 58 00 00 00 | none none
strict | 91 02 01 48 73 12 51 02 0A 48 73 12 D1 02 04 61 63 01 01 30 00 |
strict | 9D 00 00 01 30 11 02 11 48 72 12 91 02 02 63 72 01 02 51 02 04 61 63 03 01 30 00 5D 00 00 01 30 | 0
strict | D1 02 04 48 73 12 D7 00 00 | refused 1 1
standard | D1 02 04 48 73 12 D7 00 00 |
strict | D1 02 02 48 72 12 00 | refused 0 23
";

/// Whether the links have these indices.
fn have_indices(links: &Links, indices: &str) -> Result<bool, Fail> {
    let mut words = indices.split_whitespace();
    for link in links {
        let index = match words.next() {
            None => return Ok(false),
            Some("none") => None,
            Some(index) => Some(index.parse::<usize>()?),
        };
        if link.index != index {
            return Ok(false);
        }
    }
    Ok(words.next().is_none())
}

/// Whether the message in a line has the links, or gets the refusal, that the line gives.
fn is_linked(alloc: Global, line: &str) -> Result<bool, Fail> {
    let [profile, bytes, answer, ..] = fields(line);
    let profile = profile_of(profile).ok_or("no such profile")?;
    let message = read(alloc, octets_of(alloc, bytes)?.as_slice())?;
    match carriers_as(alloc, &message, profile) {
        Ok(links) => have_indices(&links, answer),
        Err(LinkError::Refused(refusal)) => {
            Ok(answer_of(answer).map(|(answer, _)| answer) == Some(Err(refusal)))
        }
        Err(LinkError::NoMemory) => Err("no memory".into()),
    }
}

#[test]
fn first_records_are_linked(rt: HostRuntime) -> Result<(), Fail> {
    for line in LINKS.trim().lines() {
        assert!(rt; is_linked(rt.alloc(), line)?, "{line}");
    }
    Ok(())
}

/// Whether the only link is that of the select.
fn is_link_of_select(links: &Links) -> bool {
    match links.get(0) {
        Some(link) => {
            links.len() == 1
                && link.ac.power() == Power::Active
                && link.ac.reference().as_slice() == b"0".as_slice()
                && link.index == Some(1)
        }
        None => false,
    }
}

#[test]
fn carriers_are_linked(rt: HostRuntime) -> Result<(), Fail> {
    let alloc = rt.alloc();
    for profile in [Profile::Strict, Profile::Standard] {
        let links = carriers_as(alloc, &read(alloc, &SELECT)?, profile)?;
        assert!(rt; is_link_of_select(&links), "{profile:?}");
    }
    assert!(rt; carriers(alloc, &read(alloc, &HELLO)?)?.is_empty());
    Ok(())
}
