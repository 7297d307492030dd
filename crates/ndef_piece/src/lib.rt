//! The heads of NDEF pieces (NFC Forum, NDEF 1.0): read octet by octet, refused at the first octet that no
//! valid head can contain there, and written; and whole pieces at the front of a slice. Nothing here allocates memory.
//!
//! The files:
//!
//! - `head_reader.rt`: reads a head. `write.rt`: writes one.
//! - `conditions.rt`: the conditions of the reasons 1 to 14. ndef_format's `specs/HeadReasons.antt` states them.
//! - `specs/Heads.antt`: the octets that are heads that may occur at a spot. `bounds.rt`: the lengths of heads.
//! - `whole.rt`: a whole piece, or a whole head, at the front of a slice. `standing.rt`: whether it may
//!   occur at a spot.
//! - `header.rt`, `payload_length.rt`, `head.rt`: the header octet, PAYLOAD_LENGTH, and a whole head.
//! - `front.rt`, `specs/Come.antt`: a piece of which all or a front has come. `walk.rt`, `specs/Steps.antt`: the pieces
//!   of a message and of those in its payloads.
//! - `laws.rt`: properties of heads and pieces, for every reader and writer.
//! - `specs/Field.antt`: the field of the next octet follows from those before it. `specs/Machine/`: the
//!   states of a reader.
//! - `specs/Walk.antt`, `specs/Rest.antt`: the pieces of a message one after another, and the state
//!   before each.
#![tactic(auto)]

mod bounds;
mod conditions;
mod front;
mod head;
mod head_reader;
mod header;
mod laws;
mod payload_length;
mod standing;
mod walk;
mod whole;
mod write;

pub use bounds::Bounds;
pub use conditions::first_reason;
pub use front::{PieceFront, piece_front};
pub use head::Head;
pub use head_reader::{HeadReader, Step};
pub use header::header_tnf;
pub use laws::{
    conditions_are_exact, fronts_have_spots, heads_are_of_pieces, heads_are_unambiguous,
    lengths_are_independent, messages_are_read_by_heads, messages_are_walks, next_fields_are_exact,
    pieces_begin_by_size,
};
pub use ndef_format::Spot;
pub use walk::{Walk, WalkStep, inner_of};
pub use whole::{WholePiece, whole_piece};
pub use write::write_head;
