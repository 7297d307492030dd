//! Messages viewed where they lie.
use crate::case::{answer_of, profile_of};
use crate::lines::{bytes_of, digits, fields, octets_of};
use crate::records::{are_reported, are_shown};
use crate::samples::{HELLO, SELECT, standard, usual};
use ndef_lang::Opaque;
use ndef_message::{Item, View, view, views_are_exact};
use ndef_nest::Typed;
use ndef_types::carriers_view;
use ndef_value::Limits;
use std::alloc::Global;
use std::test::Fail;

/// Messages, some with more bytes after them: `PROFILE | BYTES | TAKEN RECORDS COUNT PROFILE | RECORDS | CUTS`.
/// The records are written as in a case. The cuts give for each record the length of its payload, the payload
/// where there is one piece, else `none`, and the payloads of the pieces.
const VIEWS: &str = "
strict | B5 00 01 41 36 00 01 42 56 00 01 43 | 12 1 1 Strict | 5 - - 414243 | 3 none 41 42 43
strict | B5 00 00 56 00 01 41 | 7 1 1 Strict | 5 - - 41 | 1 none - 41
strict | D1 01 08 54 02 65 6E 48 65 6C 6C 6F D1 01 08 54 02 65 6E 48 65 6C 6C 6F | 12 1 1 Strict | 1 54 - 02656E48656C6C6F | 8 02656E48656C6C6F 02656E48656C6C6F
strict | 91 02 0A 48 73 12 D1 02 04 61 63 01 01 30 00 5A 03 01 01 61 2F 62 30 01 | 24 2 2 Strict | 1 4873 - 12D10204616301013000, 2 612F62 30 01 | 10 12D10204616301013000 12D10204616301013000, 1 01 01
standard | D7 00 01 41 | 4 1 1 Standard | 5 - - 41 | 1 41 41
";

/// Bytes that no message begins: `BYTES | ANSWER`.
const REFUSALS: &str = "
D1 01 08 54 02 65 6E 48 65 6C 6C | refused 11 24
 | refused 0 24
D1 01 02 54 80 | refused 4 23
D7 00 01 41 | refused 0 1
";

fn viewed(bytes: &[u8], limits: Limits) -> Result<View<'_>, Fail> {
    match view::<Typed>(bytes, limits) {
        Ok(view) => Ok(view),
        Err(_) => Err("refused".into()),
    }
}

/// The numbers and the profile of a view, as text.
fn view_reported(alloc: Global, view: &View<'_>) -> Result<String, Fail> {
    let (taken, records) = (view.taken(), view.records());
    let count = view.items().count();
    let profile = view.profile();
    Ok(format!(in alloc; "{taken} {records} {count} {profile:?}")?)
}

/// A space and the digits of octets, or `none`.
fn push_octets(alloc: Global, text: &mut String, octets: Option<&[u8]>) -> Result<(), Fail> {
    let digits = match octets {
        Some(octets) => digits(alloc, octets)?,
        None => String::from_str(alloc, "none")?,
    };
    text.push_str(" ")?;
    Ok(text.push_str(digits.as_str())?)
}

/// Returns the cuts of a payload, as text.
fn cuts_of(alloc: Global, item: &Item<'_>) -> Result<String, Fail> {
    let length = item.length();
    let mut cuts = format!(in alloc; "{length}")?;
    push_octets(alloc, &mut cuts, item.whole())?;
    for piece in item.pieces() {
        push_octets(alloc, &mut cuts, Some(piece))?;
    }
    Ok(cuts)
}

/// Whether the payloads have the cuts of this text.
fn are_cut(alloc: Global, view: &View<'_>, cuts: &str) -> Result<bool, Fail> {
    let mut cuts = cuts.split(',');
    for item in view.items() {
        let cut = cuts.next().ok_or("too many records")?;
        if cuts_of(alloc, &item)?.as_str() != cut.trim() {
            return Ok(false);
        }
    }
    Ok(cuts.next().is_none())
}

/// Whether the records are those that the text gives, in the view and in the message that is made of it.
fn has_records(alloc: Global, view: &View<'_>, records: &str) -> Result<bool, Fail> {
    let message = view.to_message(alloc)?;
    let shown = are_shown(alloc, records, view) == Some(true);
    Ok(shown && are_reported(alloc, records, &message) == Some(true))
}

/// Whether the view of the bytes in a line is what the line gives.
fn is_viewed(alloc: Global, line: &str) -> Result<bool, Fail> {
    let [profile, bytes, reported, records, cuts, ..] = fields(line);
    let profile = profile_of(profile).ok_or("no such profile")?;
    let bytes = octets_of(alloc, bytes)?;
    let view = viewed(bytes.as_slice(), usual().with(profile))?;
    Ok(
        view_reported(alloc, &view)?.as_str() == reported
            && has_records(alloc, &view, records)?
            && are_cut(alloc, &view, cuts)?,
    )
}

#[test]
fn messages_are_viewed(rt: HostRuntime) -> Result<(), Fail> {
    for line in VIEWS.trim().lines() {
        assert!(rt; is_viewed(rt.alloc(), line)?, "{line}");
    }
    Ok(())
}

/// Whether the answer for the bytes in a line is that of the line.
fn is_refused(alloc: Global, line: &str) -> Option<bool> {
    views_are_exact::<Typed>();
    let [bytes, answer, ..] = fields(line);
    let bytes = bytes_of(alloc, bytes)?;
    let answered = view::<Typed>(bytes.as_slice(), usual()).map(|view| view.taken());
    Some(answered == answer_of(answer)?.0)
}

#[test]
fn refuses_what_is_no_message(rt: HostRuntime) {
    for line in REFUSALS.trim().lines() {
        assert!(rt; is_refused(rt.alloc(), line) == Some(true), "{line}");
    }
    assert!(rt; view::<Opaque>(&[0xD1, 0x01, 0x02, 0x54, 0x80, 0x41], usual()).is_ok());
}

#[test]
fn views_are_linked(rt: HostRuntime) -> Result<(), Fail> {
    let alloc = rt.alloc();
    for limits in [usual(), standard()] {
        let links = carriers_view(alloc, &viewed(&SELECT, limits)?)?;
        let index = links.get(0).map(|link| link.index);
        assert!(rt; links.len() == 1 && index == Some(Some(1)));
    }
    let links = carriers_view(alloc, &viewed(&HELLO, usual())?)?;
    assert!(rt; links.len() == 0);
    Ok(())
}
