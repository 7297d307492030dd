//! Advice that a person can act on: the expectation that refused bytes don't meet, hints, and remarks about a message
//! that is accepted. Nothing here allocates memory, prints, or changes which bytes are accepted.
//!
//! The files:
//!
//! - `expected.rt`: the expectation. `expecting.rt`, `specs/Expectations.antt`: from the bytes up to a refused one.
//! - `begun.rt`, `specs/Begun.antt`: a piece as far as it has come. `wholes.rt`, `specs/Wholes.antt`: the whole pieces
//!   before it, and the records that end with them.
//! - `length_mismatch.rt`, `specs/LengthMismatches.antt`: the expectation for a payload that doesn't fit its length.
//! - `poster_heads.rt`, `specs/PosterHeads.antt`: the expectation in a head of a smart poster.
//! - `hint.rt`, `hint_wording.rt`, `specs/Hints.antt`: hints. `tag_memory.rt`, `specs/TagMemory.antt`: the place of a
//!   message in the memory of a tag. `dump_text.rt`, `specs/DumpTexts.antt`: texts that spell bytes.
//! - `dump.rt`, `specs/Dumps.antt`: the bytes that a dump spells. `dump_form.rt`: its form. `dump_words.rt`,
//!   `dump_gaps.rt`: its words, and its lines `*`. `dump_digits.rt`, `specs/Filled.antt`: its digits.
//! - `remark.rt`, `specs/Remarks.antt`: remarks about a field of a message that is accepted. `text_remark.rt`,
//!   `specs/TextRemarks.antt`: about a text. `record_remark.rt`, `poster_remark.rt`, `handover_remark.rt`,
//!   `specs/RecordRemarks.antt`: about a record beside the others. `few.rt`: the messages that are searched for them.
//! - `wording.rt`, `specs/Wordings.antt`: the sentence for each. `sentence.rt`: a short text, made with no memory.
//! - `laws.rt`, `specs/Truths.antt`: the laws that sentences are true.
#![tactic(auto)]

mod begun;
mod dump;
mod dump_digits;
mod dump_form;
mod dump_gaps;
mod dump_text;
mod dump_words;
mod expected;
mod expecting;
mod few;
mod handover_remark;
mod hint;
mod hint_wording;
mod laws;
mod length_mismatch;
mod poster_heads;
mod poster_remark;
mod record_remark;
mod remark;
mod sentence;
mod tag_memory;
mod text_remark;
mod wholes;
mod wording;

pub use begun::{is_lengths_whole, least_record};
pub use dump::{DumpFault, read_dump};
pub use dump_text::DumpText;
pub use expected::{Expected, Whose};
pub use expecting::expected_at;
pub use few::small_message;
pub use hint::{Hint, hint_at};
pub use laws::{
    ends_are_true, hints_are_one, length_mismatches_are_true, lengths_are_true, records_are_true,
    sizes_are_true,
};
pub use record_remark::{payload_remark, repeated_remark};
pub use remark::{Remark, field_remark};
pub use sentence::{ROOM, Sentence};
pub use tag_memory::{Found, Wrapping};
pub use text_remark::text_remark_of;
pub use wholes::{WholePieces, whole_pieces};
