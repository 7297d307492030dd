//! Typed values as lines of text. conformance/README.md describes their columns.
use crate::links::number_of;
use ndef_tests::case::{Answer, answer_of, is_in};
use ndef_tests::lines::{bytes_of, digits, fields};
use ndef_types::{
    Ac, Action, Carrier, DecodeError, EncodeError, Encoding, HandoverError, Request, Select,
    SmartPoster, Text, Uri,
};
use ndef_value::{Bytes, Profile};
use std::alloc::Global;

/// The words of a value, and the payload that is written for it.
#[derive(Drop)]
struct Value {
    words: String,
    written: Bytes,
}

/// Returns the bytes of a value that was made of parts and of one that was decoded, if they are the same.
fn alike(made: Result<Bytes, EncodeError>, decoded: Result<Bytes, EncodeError>) -> Option<Bytes> {
    let (made, decoded) = (made.ok()?, decoded.ok()?);
    if made == decoded { Some(made) } else { None }
}

/// Encoding, language code and the octets of the text in UTF-8.
fn text(alloc: Global, text: &Text) -> Option<Value> {
    let encoding = match text.encoding() {
        Encoding::Utf8 => "utf-8",
        Encoding::Utf16 => "utf-16",
    };
    let language = digits(alloc, text.language().as_bytes()).ok()?;
    let octets = digits(alloc, text.text().as_bytes()).ok()?;
    let made = Text::new(alloc, text.encoding(), text.language(), text.text()).ok()?;
    Some(Value {
        words: format!(in alloc; "encoding={encoding} language={language} text={octets}").ok()?,
        written: alike(made.encode(alloc), text.encode(alloc))?,
    })
}

/// The whole URI.
fn uri(alloc: Global, uri: &Uri) -> Option<Value> {
    let octets = digits(alloc, uri.text().as_bytes()).ok()?;
    let made = Uri::new(alloc, uri.text()).ok()?;
    Some(Value {
        words: format!(in alloc; "uri={octets}").ok()?,
        written: alike(made.encode(alloc), uri.encode(alloc))?,
    })
}

/// A list in words: the items with commas between, or `none`.
fn listed(alloc: Global, items: &str) -> Option<String> {
    let words = if items.is_empty() { "none" } else { items };
    String::from_str(alloc, words).ok()
}

/// Adds an item to a list, in hexadecimal.
fn add(alloc: Global, list: &mut String, octets: &[u8]) -> Option<()> {
    if !list.is_empty() {
        list.push_str(",").ok()?;
    }
    list.push_str(digits(alloc, octets).ok()?.as_str()).ok()
}

/// The auxiliary references.
fn auxiliaries(alloc: Global, ac: &Ac) -> Option<String> {
    let mut all = String::new(alloc);
    for index in 0..ac.auxiliary_count() {
        add(alloc, &mut all, ac.auxiliary(index)?.as_slice())?;
    }
    listed(alloc, all.as_str())
}

/// Power state, reference, auxiliary references, and the rest after them.
fn alternative(alloc: Global, ac: &Ac) -> Option<Value> {
    let power = number_of(ac.power());
    let reference = digits(alloc, ac.reference().as_slice()).ok()?;
    let auxiliary = auxiliaries(alloc, ac)?;
    let rest = digits(alloc, ac.rest()).ok()?;
    Some(Value {
        words: format!(in alloc;
            "power={power} reference={reference} auxiliary={auxiliary} rest={rest}"
        ).ok()?,
        written: ac.encode(alloc).ok()?,
    })
}

/// Reason and data.
fn error(alloc: Global, error: &HandoverError) -> Option<Value> {
    let reason = error.reason();
    let detail = digits(alloc, error.detail()).ok()?;
    let made = HandoverError::new(alloc, reason, error.detail()).ok()?;
    Some(Value {
        words: format!(in alloc; "reason={reason} data={detail}").ok()?,
        written: alike(made.encode(alloc), error.encode(alloc))?,
    })
}

/// Format, type and data.
fn carrier(alloc: Global, carrier: &Carrier) -> Option<Value> {
    let format = carrier.format();
    let kind = digits(alloc, carrier.kind().as_slice()).ok()?;
    let carried = digits(alloc, carrier.carried()).ok()?;
    Some(Value {
        words: format!(in alloc; "format={format} type={kind} data={carried}").ok()?,
        written: carrier.encode(alloc).ok()?,
    })
}

/// The texts of the titles.
fn titles(alloc: Global, poster: &SmartPoster) -> Option<String> {
    let mut all = String::new(alloc);
    for title in &poster.titles(alloc).ok()? {
        add(alloc, &mut all, title.text().as_bytes())?;
    }
    listed(alloc, all.as_str())
}

/// The number of an action, or `none`.
fn action(alloc: Global, poster: &SmartPoster) -> Option<String> {
    let number = match poster.action() {
        Some(Action::Do) => 0,
        Some(Action::Save) => 1,
        Some(Action::Open) => 2,
        Some(Action::Other(number)) => number,
        None => return String::from_str(alloc, "none").ok(),
    };
    format!(in alloc; "{number}").ok()
}

/// The size, or `none`.
fn size(alloc: Global, poster: &SmartPoster) -> Option<String> {
    match poster.size() {
        Some(size) => format!(in alloc; "{size}").ok(),
        None => String::from_str(alloc, "none").ok(),
    }
}

/// The media type, or `none`.
fn media(alloc: Global, poster: &SmartPoster) -> Option<String> {
    match poster.media(alloc).ok()? {
        Some(media) => digits(alloc, media.as_slice()).ok(),
        None => String::from_str(alloc, "none").ok(),
    }
}

/// The number of records, URI, titles, action, size and media type.
fn poster(alloc: Global, poster: &SmartPoster) -> Option<Value> {
    let records = poster.message().len();
    let uri = digits(alloc, poster.uri(alloc).ok()?.text().as_bytes()).ok()?;
    let titles = titles(alloc, poster)?;
    let action = action(alloc, poster)?;
    let size = size(alloc, poster)?;
    let media = media(alloc, poster)?;
    Some(Value {
        words: format!(in alloc;
            "records={records} uri={uri} titles={titles} action={action} size={size} media={media}"
        ).ok()?,
        written: poster.encode(alloc).ok()?,
    })
}

/// Minor version, the number that resolves a collision and the number of records.
fn request(alloc: Global, request: &Request) -> Option<Value> {
    let minor = request.minor();
    let collision = request.collision();
    let records = request.message().len();
    Some(Value {
        words: format!(in alloc; "minor={minor} collision={collision} records={records}").ok()?,
        written: request.encode(alloc).ok()?,
    })
}

/// Minor version and the number of records.
fn select(alloc: Global, select: &Select) -> Option<Value> {
    let minor = select.minor();
    let words = match select.message() {
        Some(message) => format!(in alloc; "minor={minor} records={}", message.len()).ok()?,
        None => format!(in alloc; "minor={minor} records=none").ok()?,
    };
    Some(Value {
        words,
        written: select.encode(alloc).ok()?,
    })
}

/// Returns the value of a payload.
fn reported(alloc: Global, kind: &str, profile: Profile, payload: &[u8]) -> Option<Value> {
    match kind {
        "T" => text(alloc, &Text::decode(alloc, payload).ok()?),
        "U" => uri(alloc, &Uri::decode_as(alloc, payload, profile).ok()?),
        "ac" => alternative(alloc, &Ac::decode(alloc, payload).ok()?),
        "err" => error(alloc, &HandoverError::decode(alloc, payload).ok()?),
        "Hc" => carrier(alloc, &Carrier::decode(alloc, payload).ok()?),
        "Sp" => poster(
            alloc,
            &SmartPoster::decode_as(alloc, payload, profile).ok()?,
        ),
        "Hr" => request(alloc, &Request::decode_as(alloc, payload, profile).ok()?),
        "Hs" => select(alloc, &Select::decode_as(alloc, payload, profile).ok()?),
        _ => None,
    }
}

/// The refusal of a payload, if it is refused.
fn refusal<T: Drop>(decoded: Result<T, DecodeError>) -> Option<Answer> {
    match decoded {
        Err(DecodeError::Refused(refusal)) => Some(Err(refusal)),
        _ => None,
    }
}

/// Returns the place and the reason of the refusal of a payload, by the calls without a profile and with it.
fn refusals(alloc: Global, kind: &str, profile: Profile, payload: &[u8]) -> [Option<Answer>; 2] {
    match kind {
        "T" => [refusal(Text::decode(alloc, payload)); 2],
        "U" => [
            refusal(Uri::decode(alloc, payload)),
            refusal(Uri::decode_as(alloc, payload, profile)),
        ],
        "ac" => [refusal(Ac::decode(alloc, payload)); 2],
        "err" => [refusal(HandoverError::decode(alloc, payload)); 2],
        "Hc" => [refusal(Carrier::decode(alloc, payload)); 2],
        "Sp" => [
            refusal(SmartPoster::decode(alloc, payload)),
            refusal(SmartPoster::decode_as(alloc, payload, profile)),
        ],
        "Hr" => [
            refusal(Request::decode(alloc, payload)),
            refusal(Request::decode_as(alloc, payload, profile)),
        ],
        "Hs" => [
            refusal(Select::decode(alloc, payload)),
            refusal(Select::decode_as(alloc, payload, profile)),
        ],
        _ => [None, None],
    }
}

/// Whether a payload is refused so; without a profile it is read as by a strict reader.
fn is_refused(
    alloc: Global,
    kind: &str,
    profile: Profile,
    payload: &[u8],
    answer: Option<Answer>,
) -> bool {
    let [strict, by_profile] = refusals(alloc, kind, profile, payload);
    answer.is_some() && by_profile == answer && (strict == answer || profile != Profile::Strict)
}

/// Whether the payload of a line has the value of the line in a profile; None if there is no value.
fn is_reported_in(alloc: Global, line: &str, profile: Profile) -> Option<bool> {
    let [_, kind, _, _, _, payload, value, written, ..] = fields(line);
    let payload = bytes_of(alloc, payload)?;
    if value.starts_with("refused") {
        let answer = answer_of(value).map(|(answer, _)| answer);
        return Some(is_refused(alloc, kind, profile, payload.as_slice(), answer));
    }
    let reported = reported(alloc, kind, profile, payload.as_slice())?;
    let written = bytes_of(alloc, written)?;
    Some(reported.words.as_str() == value && reported.written.as_slice() == written.as_slice())
}

/// Whether the payload of a line has the value of the line in each profile that it names; None if there is no value.
pub(super) fn is_reported(alloc: Global, line: &str) -> Option<bool> {
    let [_, _, _, _, profiles, ..] = fields(line);
    let mut reported = false;
    for profile in [Profile::Strict, Profile::Standard] {
        if is_in(profiles, profile) {
            reported = true;
            if !is_reported_in(alloc, line, profile)? {
                return Some(false);
            }
        }
    }
    Some(reported)
}
