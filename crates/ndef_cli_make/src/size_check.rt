//! The output that the words before the records of a message choose.
ghost use Rattle.std.specs.Prelude.{◌≡◌, map, option_map, string_bytes};
ghost use Rattle.ndef_cli_make.specs.SizeChecks.{front_named, size_check_in, checked_size_words, most_in};
ghost use Rattle.ndef_cli_make.specs.SizeChecks.{size_mismatch, room_named, tag_words};

use crate::options::number_in;

/// The output for a message.
#[derive(Clone, Copy, Debug, PartialEq, Eq)]
pub enum SizeCheck {
    /// All of it.
    Whole,
    /// The number of its bytes.
    Count,
    /// All of it, where a tag with this many bytes of memory holds it (Type 2 Tag, NDEF Message TLV).
    Room(u32),
}

/// A word before the records.
#[derive(Clone, Copy)]
pub(crate) enum Front {
    /// The size is requested.
    Size,
    /// A tag is named.
    Tag,
}

/// The output for a message, and the words of its records.
#[derive(Clone, Copy)]
pub(crate) struct CheckedSize<'a> {
    pub(crate) size_check: SizeCheck,
    pub(crate) records: &'a [String],
}

/// The word of this name before the records.
fn front_named(name: &str) -> Option<Front>
    ensures { result ≡ front_named name.now }
{
    match name {
        "--size" => Some(Front::Size),
        "--tag" => Some(Front::Tag),
        _ => None,
    }
}

/// The bytes of memory for a message on the tag of this name, or that many bytes (NXP NTAG213/215/216, user memory).
fn room_named(name: &str) -> Option<u32>
    ensures { result ≡ room_named name.now }
{
    match name {
        "ntag213" => Some(144),
        "ntag215" => Some(504),
        "ntag216" => Some(888),
        _ => number_in(name),
    }
}

/// The tag that the first word names, and the words of the records after it.
fn tag_words(words: &[String]) -> Option<CheckedSize<'_>>
    ensures { option_map checked_size_words result ≡ tag_words (map string_bytes words.now) }
{
    match words {
        [name, records @ ..] => match room_named(name.as_str()) {
            Some(room) => Some(CheckedSize {
                size_check: SizeCheck::Room(room),
                records,
            }),
            None => None,
        },
        [] => None,
    }
}

/// Returns the output for a message, and the words of its records; None if a tag isn't known.
pub(crate) fn size_check_words(words: &[String]) -> Option<CheckedSize<'_>>
    ensures { option_map checked_size_words result ≡ size_check_in (map string_bytes words.now) }
{
    match words {
        [word, records @ ..] => match front_named(word.as_str()) {
            Some(Front::Size) => Some(CheckedSize {
                size_check: SizeCheck::Count,
                records,
            }),
            Some(Front::Tag) => tag_words(records),
            None => Some(CheckedSize {
                size_check: SizeCheck::Whole,
                records: words,
            }),
        },
        [] => Some(CheckedSize {
            size_check: SizeCheck::Whole,
            records: words,
        }),
    }
}

/// The length of the longest message that fits on a tag with this many bytes. Around a message are 3 bytes, or 5 where
/// it has 255 and more: the tag and the length of its TLV, and the terminator TLV.
pub(crate) fn most_in(room: u32) -> u64
    ensures { result ≡ most_in room }
{
    if room < 260 {
        u64::from(room.saturating_sub(3).min(254))
    } else {
        u64::from(room - 5)
    }
}

/// The length of a message and the bytes of the tag, where these are too few.
pub(crate) fn size_mismatch(room: u32, length: u64) -> Option<(u64, u32)>
    ensures { result ≡ size_mismatch (SizeCheck.Room room) length }
{
    if most_in(room) < length {
        Some((length, room))
    } else {
        None
    }
}
