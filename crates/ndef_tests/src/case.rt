//! Cases as lines of text. conformance/README.md describes their columns.
use crate::lines::{bytes_of, fields};
use ndef_value::{Limits, Profile, Reason, Refusal};
use std::alloc::Global;

/// The bytes of the message, or the refusal.
pub type Answer = Result<u64, Refusal>;

/// The reasons in the order of their numbers, from 1 on.
pub const REASONS: [Reason; 25] = [
    Reason::ReservedTnf,
    Reason::BeginMissing,
    Reason::BeginAgain,
    Reason::UnchangedOutside,
    Reason::ChangedInside,
    Reason::IdInside,
    Reason::ChunkAtEnd,
    Reason::ChunkOfEmpty,
    Reason::TooManyPieces,
    Reason::TooManyRecords,
    Reason::TypeNotEmpty,
    Reason::TypeEmpty,
    Reason::EmptyNotEmpty,
    Reason::PayloadTooLarge,
    Reason::TextBit,
    Reason::Language,
    Reason::Utf8,
    Reason::Utf16,
    Reason::UriCode,
    Reason::UriMissing,
    Reason::UriAgain,
    Reason::Version,
    Reason::DoesNotFit,
    Reason::EndOfInput,
    Reason::CollisionMissing,
];

/// The way in which bytes are read, and the answer.
#[derive(Drop)]
pub struct Case<'a> {
    pub languages: &'a str,
    /// The profiles in which the answer is this one: `strict`, `standard` or `both`.
    pub profiles: &'a str,
    /// The limits, of a strict reader.
    pub limits: Limits,
    pub bytes: Vec<u8>,
    pub answer: Answer,
    /// The number of bytes that a decoder holds, where the input could go on.
    pub held: Option<u64>,
    /// The records of what is accepted, as the line has them.
    pub records: &'a str,
}

fn number(word: Option<&str>) -> Option<u64> {
    word?.parse::<u64>().ok()
}

fn limit(word: Option<&str>) -> Option<u32> {
    word?.parse::<u32>().ok()
}

/// The limits that aren't the usual ones.
fn limits_of(text: &str) -> Option<Limits> {
    let usual = Limits::usual();
    let (mut payload, mut records, mut pieces) = (usual.payload(), usual.records(), usual.pieces());
    let mut words = text.split_whitespace();
    for _ in 0..3u8 {
        let (name, number) = (words.next(), limit(words.next()));
        match name {
            Some("payload") => payload = number?,
            Some("records") => records = number?,
            Some("pieces") => pieces = number?,
            Some("usual") | None => break,
            Some(_) => return None,
        }
    }
    Limits::new(payload, records, pieces).ok()
}

pub fn profile_of(text: &str) -> Option<Profile> {
    match text {
        "strict" => Some(Profile::Strict),
        "standard" => Some(Profile::Standard),
        _ => None,
    }
}

/// Whether a text names the profile, alone or with the other one.
pub fn is_in(text: &str, profile: Profile) -> bool {
    text == "both" || profile_of(text) == Some(profile)
}

/// The reason of a number.
pub fn reason(number: u64) -> Option<Reason> {
    match number {
        0 => None,
        _ => REASONS.get((number - 1) as usize).copied(),
    }
}

fn refused(at: u64, reason: Reason) -> Answer {
    Err(Refusal { at, reason })
}

/// The answer, and what a decoder holds where the input could go on.
pub fn answer_of(text: &str) -> Option<(Answer, Option<u64>)> {
    let mut words = text.split_whitespace();
    let name = words.next()?;
    let (first, second) = (number(words.next())?, number(words.next()));
    match name {
        "accepted" => Some((Ok(first), None)),
        "refused" => Some((refused(first, reason(second?)?), None)),
        "more" => Some((refused(first, Reason::EndOfInput), Some(second?))),
        _ => None,
    }
}

/// The case of a line.
pub fn case_of(alloc: Global, line: &str) -> Option<Case<'_>> {
    let [
        _,
        _,
        _,
        _,
        languages,
        profiles,
        limits,
        bytes,
        answer,
        records,
        _,
    ] = fields(line);
    let (answer, held) = answer_of(answer)?;
    Some(Case {
        languages,
        profiles,
        limits: limits_of(limits)?,
        bytes: bytes_of(alloc, bytes)?,
        answer,
        held,
        records,
    })
}
