//! Worked payloads and type names.
ghost use Rattle.std.specs.Prelude.{◌^◌, ◌<◌, length};

use crate::case::{answer_of, profile_of};
use crate::lines::{bytes_of, fields};
use ndef_lang::{
    AcLang, ErrLang, Fixed, HcLang, Kind, KindReader, Leaf, TextLang, UriLang, Utf8Lang, refusal_of,
};
use ndef_value::{Profile, Refusal, Tnf};
use std::alloc::Global;
use std::test::Fail;

/// Payloads: `LANGUAGE | TYPE | PROFILE | OCTETS | ANSWER`, the type by its name, and none for one that
/// isn't known, the answer being `whole` or `refused PLACE REASON`.
const PAYLOADS: &str = "
text | T | strict | 02 65 6E 48 65 6C 6C 6F | whole
text | T | strict | 82 65 6E FE FF 00 41 | whole
text | T | strict | 80 FE FF | whole
text | T | strict | 80 FF FE 41 00 | whole
text | T | strict | 82 65 6E D8 3D DE 00 | whole
text | T | strict | 40 | refused 0 15
text | T | strict | 01 80 61 | refused 1 16
text | T | strict | 02 | refused 0 23
text | T | strict | | refused 0 23
text | T | strict | 00 E2 | refused 1 23
text | T | strict | 00 80 | refused 1 17
text | T | strict | 00 C0 61 | refused 1 17
text | T | strict | 00 ED A0 80 | refused 2 17
text | T | strict | 80 DC 00 | refused 1 18
text | T | strict | 80 FF FE 00 DC | refused 4 18
text | T | strict | 80 41 | refused 0 23
URI | U | strict | 01 65 78 61 6D 70 6C 65 2E 63 6F 6D | whole
URI | U | strict | 24 | refused 0 19
URI | U | standard | 24 | whole
URI | U | strict | 00 E2 | refused 1 23
alternative carrier | ac | strict | 00 00 00 | whole
alternative carrier | ac | strict | 01 01 30 01 01 31 | whole
alternative carrier | ac | strict | 00 00 | refused 0 23
alternative carrier | ac | strict | 00 01 00 | refused 1 23
error | err | strict | 04 | whole
error | err | strict | | refused 0 23
error | err | strict | 01 40 | whole
error | err | strict | 01 40 00 | refused 0 23
error | err | strict | 02 40 | refused 0 23
error | err | strict | 02 00 00 00 40 | whole
carrier | Hc | strict | 01 03 61 2F 62 05 | whole
carrier | Hc | strict | 01 00 | whole
carrier | Hc | strict | 01 | refused 0 23
carrier | Hc | strict | 01 01 | refused 1 23
size | s | strict | 00 00 01 00 | whole
size | s | strict | 00 00 01 | refused 0 23
UTF-8 | t | strict | 69 6D 61 67 65 2F 70 6E 67 | whole
leaf | T | strict | 40 | refused 0 15
leaf | U | strict | 24 | refused 0 19
leaf | U | standard | 24 | whole
leaf | t | strict | FF | refused 0 17
leaf | act | strict | 00 00 | refused 0 23
leaf | cr | strict | 01 02 | whole
leaf | s | strict | 00 | refused 0 23
leaf | ac | strict | 01 01 30 00 | whole
leaf | err | strict | 01 | refused 0 23
leaf | Hc | strict | 01 03 61 2F 62 05 | whole
leaf | Sp | strict | | whole
leaf | | strict | 40 | whole
";

/// Returns the place and the reason of a language's refusal of a payload; None if there is no such language.
fn refusal_in(
    language: &str,
    kind: Kind,
    profile: Profile,
    payload: &[u8],
) -> Option<Option<Refusal>>
    requires { length payload.now < 2 ^ 32 }
{
    match language {
        "text" => Some(refusal_of::<TextLang>(kind, 1, profile, payload)),
        "URI" => Some(refusal_of::<UriLang>(kind, 1, profile, payload)),
        "alternative carrier" => Some(refusal_of::<AcLang>(kind, 1, profile, payload)),
        "error" => Some(refusal_of::<ErrLang>(kind, 1, profile, payload)),
        "carrier" => Some(refusal_of::<HcLang>(kind, 1, profile, payload)),
        "size" => Some(refusal_of::<Fixed<4>>(kind, 1, profile, payload)),
        "UTF-8" => Some(refusal_of::<Utf8Lang>(kind, 1, profile, payload)),
        "leaf" => Some(refusal_of::<Leaf>(kind, 1, profile, payload)),
        _ => None,
    }
}

/// The refusal that a line gives, if it gives one.
fn reported_refusal(answer: &str) -> Option<Option<Refusal>> {
    match answer {
        "whole" => Some(None),
        _ => Some(Some(answer_of(answer)?.0.err()?)),
    }
}

/// Whether the answer for the payload in a line is that of the line.
fn is_answered(alloc: Global, line: &str) -> Option<bool> {
    let [language, name, profile, octets, answer, ..] = fields(line);
    let kind = Kind::of(Tnf::WellKnown, name.as_bytes());
    let payload = bytes_of(alloc, octets)?;
    let front = &payload[..payload.len().min(255)];
    let refusal = refusal_in(language, kind, profile_of(profile)?, front)?;
    Some(refusal == reported_refusal(answer)? && front.len() == payload.len())
}

#[test]
fn payloads(rt: HostRuntime) {
    for line in PAYLOADS.trim().lines() {
        assert!(rt; is_answered(rt.alloc(), line) == Some(true), "{line}");
    }
}

/// Type names: `TNF | TYPE | KIND`, the type name format by its number.
const NAMES: &str = "
1 | T | Text
1 | U | Uri
1 | Sp | SmartPoster
1 | Hr | Request
1 | Hs | Select
1 | Hc | Carrier
1 | act | Action
1 | s | Size
1 | t | MediaType
1 | ac | Alternative
1 | cr | Collision
1 | err | Error
4 | T | Other
1 | sp | Other
1 | Hm | Other
1 | acts | Other
1 | | Other
";

/// Whether the kind of the type in a line is the one that the line gives.
fn is_named(alloc: Global, line: &str) -> Result<bool, Fail> {
    let [number, name, reported, ..] = fields(line);
    let tnf = Tnf::try_from(number.parse::<u8>()?)?;
    let kind = Kind::of(tnf, name.as_bytes());
    Ok(format!(in alloc; "{kind:?}")?.as_str() == reported)
}

#[test]
fn type_names(rt: HostRuntime) -> Result<(), Fail> {
    assert!(rt; KindReader::new(Tnf::WellKnown, 1).kind() == Kind::Other);
    for line in NAMES.trim().lines() {
        assert!(rt; is_named(rt.alloc(), line)?, "{line}");
    }
    Ok(())
}
