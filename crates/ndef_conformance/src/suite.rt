//! Cases, each run through every door: all have to give its one answer.
use super::doors::{is_agreed, is_answered, is_held, step_of};
use ndef_lang::{Kind, Language, Leaf, Opaque, RecordLanguage};
use ndef_message::{SliceSource, StdSink, read_message, view};
use ndef_nest::Typed;
use ndef_tests::case::{Case, case_of, is_in};
use ndef_tests::records::{are_reported, are_shown};
use ndef_tool::run;
use ndef_value::{Limits, Message, Profile, Reason, Refusal};
use std::alloc::Global;

/// The fault of a case, if there is one.
pub(super) type Wrong = Option<&'static str>;

/// The most bytes of an accepted message of which each is replaced by each other.
const MOST_REPLACED: usize = 24;

/// The message that is read.
fn message_in<L: RecordLanguage>(alloc: Global, case: &Case<'_>) -> Option<Message> {
    let mut source = SliceSource::whole(case.bytes.as_slice());
    let read = read_message::<L, _>(alloc, &mut source, case.limits).ok()?;
    Some(read.message)
}

/// Whether the records that are read, and those that are viewed, are those of the case.
fn has_records<L: RecordLanguage>(
    alloc: Global,
    case: &Case<'_>,
    message: &Message,
) -> Option<bool> {
    let view = view::<L>(case.bytes.as_slice(), case.limits).ok()?;
    Some(are_reported(alloc, case.records, message)? && are_shown(alloc, case.records, &view)?)
}

/// Whether the quick test finds that each payload is one of its type. No contract demands that: a test
/// that always returns false is right too, but slow.
fn are_seen_at_once<L: RecordLanguage>(limits: Limits, message: &Message) -> bool {
    for record in message.records() {
        let (tnf, name) = (record.tnf(), record.kind());
        if !L::has(
            tnf,
            name,
            limits.records(),
            limits.profile(),
            record.payload(),
        ) {
            return false;
        }
    }
    true
}

/// The most fronts of a long message that are tried.
const MOST_FRONTS: usize = 8;

/// Whether each proper front of a message (of a long one some) is refused where it ends.
fn are_fronts<L: RecordLanguage>(alloc: Global, limits: Limits, message: &[u8]) -> bool {
    let step = step_of(message.len(), MOST_FRONTS);
    for count in 0..message.len() {
        let refusal = Refusal {
            at: count as u64,
            reason: Reason::EndOfInput,
        };
        if count.checked_rem(step) == Some(0)
            && !is_answered::<L>(alloc, limits, &message[..count], Err(refusal))
        {
            return false;
        }
    }
    true
}

/// The bytes with another one at a place.
fn replaced(alloc: Global, bytes: &[u8], place: usize, byte: u8) -> Option<Vec<u8>> {
    let mut changed = Vec::new(alloc);
    for (at, old) in bytes.iter().enumerate() {
        changed.push(if at == place { byte } else { *old }).ok()?;
    }
    Some(changed)
}

/// Whether the doors agree on the bytes with each other byte at this place.
fn agree_on_each<L: RecordLanguage>(
    alloc: Global,
    limits: Limits,
    bytes: &[u8],
    place: usize,
) -> Option<bool> {
    for byte in 0..=255u8 {
        let changed = replaced(alloc, bytes, place, byte)?;
        if !is_agreed::<L>(alloc, limits, changed.as_slice()) {
            return Some(false);
        }
    }
    Some(true)
}

/// Whether the doors agree on few bytes with each other byte at each place.
fn agree_near<L: RecordLanguage>(alloc: Global, limits: Limits, bytes: &[u8]) -> Option<bool> {
    if bytes.len() > MOST_REPLACED {
        return Some(true);
    }
    for place in 0..bytes.len() {
        if !agree_on_each::<L>(alloc, limits, bytes, place)? {
            return Some(false);
        }
    }
    Some(true)
}

/// Returns the fault of an accepted case, if there is one.
fn wrong_with_accepted<L: RecordLanguage>(
    alloc: Global,
    case: &Case<'_>,
    taken: u64,
) -> Option<Wrong> {
    let bytes = case.bytes.as_slice();
    let message = &bytes[..bytes.len().min(taken as usize)];
    let read = message_in::<L>(alloc, case)?;
    if !has_records::<L>(alloc, case, &read)? {
        return Some(Some("other records"));
    }
    if !are_seen_at_once::<L>(case.limits, &read) {
        return Some(Some("a payload isn't seen at once to be one"));
    }
    if !are_fronts::<L>(alloc, case.limits, message) {
        return Some(Some("a front is answered otherwise"));
    }
    if !agree_near::<L>(alloc, case.limits, message)? {
        return Some(Some("with another byte the doors differ"));
    }
    Some(None)
}

/// Returns the fault of a case in a language, if there is one.
fn wrong_in<L: RecordLanguage>(alloc: Global, case: &Case<'_>) -> Option<Wrong> {
    let bytes = case.bytes.as_slice();
    if !is_answered::<L>(alloc, case.limits, bytes, case.answer) {
        return Some(Some("another answer"));
    }
    if let Some(held) = case.held {
        if !is_held::<L>(alloc, case.limits, bytes, held) {
            return Some(Some("otherwise held"));
        }
    }
    match case.answer {
        Ok(taken) => wrong_with_accepted::<L>(alloc, case, taken),
        Err(_) => Some(None),
    }
}

/// The words that check hexadecimal text within the limits.
fn words_of(alloc: Global, limits: Limits) -> Option<Vec<String>> {
    let mut words = Vec::new(alloc);
    for word in ["ndef", "check", "--hex", "--profile"] {
        words.push(String::from_str(alloc, word).ok()?).ok()?;
    }
    let profile = match limits.profile() {
        Profile::Strict => "strict",
        Profile::Standard => "standard",
    };
    words.push(String::from_str(alloc, profile).ok()?).ok()?;
    let numbers = [
        ("--payload", limits.payload()),
        ("--records", limits.records()),
        ("--pieces", limits.pieces()),
    ];
    for (name, number) in numbers {
        words.push(String::from_str(alloc, name).ok()?).ok()?;
        words.push(format!(in alloc; "{number}").ok()?).ok()?;
    }
    Some(words)
}

/// The first line that `check` prints of a case.
fn first_line(alloc: Global, case: &Case<'_>) -> Option<String> {
    let records = case.records.split(',').count();
    let line = match case.answer {
        Ok(taken) => format!(in alloc; "message 1 at 0: records {records}, bytes {taken}\n").ok()?,
        Err(refusal) => format!(in alloc; "{refusal}\n").ok()?,
    };
    Some(line)
}

/// Whether `check --hex` begins with the line of the case.
fn is_printed(alloc: Global, case: &Case<'_>) -> Option<bool> {
    let words = words_of(alloc, case.limits)?;
    let digits = hex::encode(alloc, case.bytes.as_slice()).ok()?;
    let mut source = SliceSource::whole(digits.as_bytes());
    let mut out = Vec::new(alloc);
    let mut sink = StdSink::new(&mut out);
    let status = run(alloc, words.as_slice(), &mut source, &mut sink);
    drop(sink);
    let line = first_line(alloc, case)?;
    let reported = case.answer.is_ok() || status as u8 == 1 && out.len() == line.len();
    Some(case.bytes.is_empty() || reported && out.starts_with(line.as_bytes()))
}

/// Returns the fault of a case in one of its languages, if there is one.
fn wrong_in_language(alloc: Global, case: &Case<'_>, language: &str) -> Option<Wrong> {
    match language {
        "typed" if !is_printed(alloc, case)? => Some(Some("another line of check")),
        "typed" => wrong_in::<Typed>(alloc, case),
        "leaf" => wrong_in::<Leaf>(alloc, case),
        "opaque" => wrong_in::<Opaque>(alloc, case),
        _ => Some(Some("no such language")),
    }
}

/// Returns the fault of a case, with the profile of its limits, if there is one.
fn wrong_in_profile(alloc: Global, case: &Case<'_>) -> Option<Wrong> {
    for language in case.languages.split_whitespace() {
        let wrong = wrong_in_language(alloc, case, language)?;
        if wrong.is_some() {
            return Some(wrong);
        }
    }
    Some(None)
}

/// Returns the fault of the case of a line, if there is one; None if the line can't be read.
pub(super) fn wrong_with(alloc: Global, line: &str) -> Option<Wrong> {
    let mut case = case_of(alloc, line)?;
    let mut tried = false;
    for profile in [Profile::Strict, Profile::Standard] {
        if is_in(case.profiles, profile) {
            tried = true;
            case.limits = case.limits.with(profile);
            let wrong = wrong_in_profile(alloc, &case)?;
            if wrong.is_some() {
                return Some(wrong);
            }
        }
    }
    Some(if tried { None } else { Some("no such profile") })
}
