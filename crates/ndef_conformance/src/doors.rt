//! The answers to bytes at every door of the library: checked, decoded, read and viewed, whole, in
//! each two parts and byte by byte.
ghost use Rattle.std.specs.Prelude.{◌<◌};

use ndef_lang::RecordLanguage;
use ndef_message::{
    CheckError, Checker, Decoder, Event, Fed, ReadError, SliceSource, Source, StdSource,
    check_message, read_message, view,
};
use ndef_tests::case::Answer;
use ndef_tests::streams::SlowReader;
use ndef_value::Limits;
use std::alloc::Global;

/// The way in which bytes are handed over: `first` of them, then the others in parts of at most `size`.
#[derive(Clone, Copy)]
pub(super) struct Parts {
    first: usize,
    size: usize,
    ghost some: { 0 < size },
}

/// All at once.
pub(super) const WHOLE: Parts = Parts {
    first: 0,
    size: usize::MAX,
};

/// Byte by byte.
pub(super) const BYTES: Parts = Parts { first: 0, size: 1 };

/// A message of more bytes isn't cut at each place.
const LONG: usize = 1024;

/// The number of places at which a long message is cut, at most.
const MOST_CUTS: usize = 32;

fn two_parts(first: usize) -> Parts {
    Parts {
        first,
        size: usize::MAX,
    }
}

fn slowly(bytes: &[u8]) -> StdSource<SlowReader<'_>> {
    StdSource::new(SlowReader {
        bytes,
        most: 1,
        fails: false,
    })
}

/// The bytes up to a place, and those after it.
fn cut_at(bytes: &[u8], place: usize) -> (&[u8], &[u8]) {
    bytes.split_at(place.min(bytes.len()))
}

/// Returns the answer of a checker to one more part, if there is one.
fn fed<L: RecordLanguage>(checker: &mut Checker<L>, part: &[u8]) -> Option<Answer> {
    match checker.feed(part) {
        Fed::More => None,
        Fed::Done { .. } => Some(Ok(checker.place())),
        Fed::Refused(refusal) => Some(Err(refusal)),
    }
}

/// Returns the answer of a checker; None if its `end` accepts a message that hasn't ended.
pub(super) fn checked<L: RecordLanguage>(
    limits: Limits,
    bytes: &[u8],
    parts: Parts,
) -> Option<Answer> {
    let mut checker = Checker::<L>::new(limits);
    let (front, rest) = cut_at(bytes, parts.first);
    if let Some(answer) = fed(&mut checker, front) {
        return Some(answer);
    }
    for part in rest.chunks(parts.size) {
        if let Some(answer) = fed(&mut checker, part) {
            return Some(answer);
        }
    }
    Some(Err(checker.end().err()?))
}

/// The answer of a decoder to a part that it is given.
#[derive(Clone, Copy)]
enum Progress {
    GoesOn,
    Answered(Answer),
    Failed,
}

fn hand<L: RecordLanguage>(decoder: &mut Decoder<L>, part: &[u8]) -> Progress {
    let mut rest = part;
    for _ in 0..=part.len() {
        let (count, event) = decoder.feed(rest);
        rest = &rest[count..];
        match event {
            Event::More => return Progress::GoesOn,
            Event::Whole { last: false, .. } => {}
            Event::Whole { last: true, .. } => return Progress::Answered(Ok(decoder.place())),
            Event::Refused(refusal) => return Progress::Answered(Err(refusal)),
            Event::Failed(_) | Event::Over => return Progress::Failed,
        }
    }
    Progress::Failed
}

fn hand_parts<L: RecordLanguage>(decoder: &mut Decoder<L>, bytes: &[u8], parts: Parts) -> Progress {
    let (front, rest) = cut_at(bytes, parts.first);
    let mut progress = hand(decoder, front);
    for part in rest.chunks(parts.size) {
        if let Progress::GoesOn = progress {
            progress = hand(decoder, part);
        }
    }
    progress
}

/// Returns the answer of a decoder; None if memory runs out, or if its `end` accepts a message that hasn't ended.
pub(super) fn decoded<L: RecordLanguage>(
    alloc: Global,
    limits: Limits,
    bytes: &[u8],
    parts: Parts,
) -> Option<Answer> {
    let mut decoder = Decoder::<L>::new(alloc, limits);
    match hand_parts(&mut decoder, bytes, parts) {
        Progress::GoesOn => Some(Err(decoder.end().err()?)),
        Progress::Answered(answer) => Some(answer),
        Progress::Failed => None,
    }
}

fn read_from<L: RecordLanguage, S: Source>(
    alloc: Global,
    limits: Limits,
    source: &mut S,
) -> Option<Answer> {
    match read_message::<L, S>(alloc, source, limits) {
        Ok(read) => Some(Ok(read.taken)),
        Err(ReadError::Refused(refusal)) => Some(Err(refusal)),
        Err(_) => None,
    }
}

fn check_from<L: RecordLanguage, S: Source>(limits: Limits, source: &mut S) -> Option<Answer> {
    match check_message::<L, S>(source, limits) {
        Ok(checked) => Some(Ok(checked.taken)),
        Err(CheckError::Refused(refusal)) => Some(Err(refusal)),
        Err(CheckError::ReadFault) => None,
    }
}

/// Returns the answer of reading, from a source that shows the bytes whole.
pub(super) fn read_whole<L: RecordLanguage>(
    alloc: Global,
    limits: Limits,
    bytes: &[u8],
) -> Option<Answer> {
    read_from::<L, _>(alloc, limits, &mut SliceSource::whole(bytes))
}

/// Returns the answer of a view, which looks at the bytes whole.
pub(super) fn viewed<L: RecordLanguage>(limits: Limits, bytes: &[u8]) -> Option<Answer> {
    Some(view::<L>(bytes, limits).map(|view| view.taken()))
}

/// Whether the bytes, in two parts, are answered so.
fn is_answered_in_two<L: RecordLanguage>(
    alloc: Global,
    limits: Limits,
    bytes: &[u8],
    cut: usize,
    wanted: Option<Answer>,
) -> bool {
    let cuts = [cut.min(bytes.len())];
    let parts = two_parts(cut);
    checked::<L>(limits, bytes, parts) == wanted
        && decoded::<L>(alloc, limits, bytes, parts) == wanted
        && read_from::<L, _>(alloc, limits, &mut SliceSource::new(bytes, &cuts)) == wanted
        && check_from::<L, _>(limits, &mut SliceSource::new(bytes, &cuts)) == wanted
}

/// The distance between the places where a message is cut: 1, or more for a long message.
pub(super) fn step_of(length: usize, most: usize) -> usize {
    if length <= LONG {
        return 1;
    }
    match length.checked_div(most) {
        Some(step) => step.saturating_add(1),
        None => 1,
    }
}

/// Whether the bytes are answered so whole, in each two parts (of long messages in some) and byte by byte.
pub(super) fn is_answered<L: RecordLanguage>(
    alloc: Global,
    limits: Limits,
    bytes: &[u8],
    answer: Answer,
) -> bool {
    let wanted = Some(answer);
    let step = step_of(bytes.len(), MOST_CUTS);
    for cut in 0..=bytes.len() {
        if cut.checked_rem(step) == Some(0)
            && !is_answered_in_two::<L>(alloc, limits, bytes, cut, wanted)
        {
            return false;
        }
    }
    viewed::<L>(limits, bytes) == wanted
        && checked::<L>(limits, bytes, BYTES) == wanted
        && decoded::<L>(alloc, limits, bytes, BYTES) == wanted
        && read_from::<L, _>(alloc, limits, &mut slowly(bytes)) == wanted
        && check_from::<L, _>(limits, &mut slowly(bytes)) == wanted
}

/// Whether checking the bytes whole and byte by byte, reading and viewing them have one answer.
pub(super) fn is_agreed<L: RecordLanguage>(alloc: Global, limits: Limits, bytes: &[u8]) -> bool {
    let answer = checked::<L>(limits, bytes, WHOLE);
    answer.is_some()
        && checked::<L>(limits, bytes, BYTES) == answer
        && read_whole::<L>(alloc, limits, bytes) == answer
        && viewed::<L>(limits, bytes) == answer
}

/// Whether the bytes can go on, and a decoder holds that many of them.
pub(super) fn is_held<L: RecordLanguage>(
    alloc: Global,
    limits: Limits,
    bytes: &[u8],
    held: u64,
) -> bool {
    let mut decoder = Decoder::<L>::new(alloc, limits);
    matches!(hand(&mut decoder, bytes), Progress::GoesOn)
        && decoder.place() == bytes.len() as u64
        && decoder.held() == held
}
