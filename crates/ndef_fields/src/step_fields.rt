//! The fields of one piece, as far as it has come.
ghost use Rattle.std.specs.Prelude.{◌≡◌, ◌+◌, ◌^◌, ◌<◌, [], IfNone, IfSome};
ghost use Rattle.ndef_fields.specs.Payloads.{stage_of};
ghost use Rattle.ndef_fields.specs.Walks.{HasRoom, IsOuterInside, IsPart, head_name, head_octets, step_parts};

use crate::inside::{Inside, inside_step, outer_inside};
use crate::stage::Stage;
use crate::{Field, FieldName};
use ndef_lang::Kind;
use ndef_piece::{PieceFront, WalkStep, piece_front};

/// The fields of a piece that are still to come. Those of a message in its payload are not among them.
#[derive(Clone, Copy, Debug)]
pub(crate) struct StepFields<'a> {
    /// The place of the next one.
    pub at: usize,
    /// 0 in the message itself, 1 in a message within a payload.
    pub depth: u8,
    /// The number of parts of its head that are still to come.
    pub left: u8,
    /// The piece.
    pub piece: PieceFront<'a>,
    /// Those of its payload.
    pub inside: Inside<'a>,
}

/// The part of the head with that many parts after it.
fn head_part<'a>(piece: &PieceFront<'a>, number: u8) -> (FieldName, &'a [u8])
    ensures name { result.0 ≡ head_name number }
    ensures octets { result.1.now ≡ head_octets number piece.now }
{
    match number {
        5 => (FieldName::Header, piece.header_octets()),
        4 => (FieldName::KindLength, piece.kind_length_octets()),
        3 => (FieldName::PayloadLength, piece.payload_length_octets()),
        2 => (FieldName::IdLength, piece.id_length_octets()),
        1 => (FieldName::Kind, piece.kind),
        _ => (FieldName::Id, piece.id),
    }
}

impl<'a> StepFields<'a> {
    /// The fields of the piece of a walk.
    pub(crate) fn of(step: &WalkStep<'a>) -> StepFields<'a>
        ensures at { result.at ≡ step.now.at }
        ensures depth { result.depth ≡ step.now.depth }
        ensures left { result.left ≡ 6 }
        ensures piece { result.piece ≡ step.now.piece }
        ensures outer { step.now.depth ≡ 0 → IsOuterInside step.now.kind step.now.piece.payload.now result.inside }
        ensures stage { step.now.depth ≡ 1 → result.inside.stage ≡ stage_of step.now.kind }
        ensures octets { step.now.depth ≡ 1 → result.inside.octets.now ≡ step.now.piece.payload.now }
    {
        let payload = step.piece.payload;
        let inside = if step.depth == 0 {
            outer_inside(step.kind, payload)
        } else {
            Inside {
                stage: Stage::of(step.kind),
                octets: payload,
            }
        };
        StepFields {
            at: step.at,
            depth: step.depth,
            left: 6,
            piece: step.piece,
            inside,
        }
    }

    /// Those of a payload of this kind.
    pub(crate) fn of_payload(kind: Kind, payload: &'a [u8]) -> StepFields<'a>
        ensures at { result.at ≡ 0 }
        ensures depth { result.depth ≡ 0 }
        ensures left { result.left ≡ 0 }
        ensures inside { IsOuterInside kind payload.now result.inside }
    {
        StepFields {
            at: 0,
            depth: 0,
            left: 0,
            piece: piece_front(&[]).0,
            inside: outer_inside(kind, payload),
        }
    }

    /// The field of this name and that many octets, which is taken off.
    fn take(&mut self, name: FieldName, length: usize) -> Field
        requires { self.old.at + length < 2 ^ 64 }
        ensures field { result ≡ record { at = self.old.at; length = length; depth = self.old.depth; name = name } }
        ensures after { self.new ≡ record self.old { at = self.old.at + length } }
    {
        let field = Field {
            at: self.at,
            length,
            depth: self.depth,
            name,
        };
        self.at += length;
        field
    }

    /// The next field, which may have no octets.
    pub(crate) fn part(&mut self) -> Option<Field>
        requires { HasRoom self.old }
        ensures none { IfNone result (step_parts self.old ≡ []) }
        ensures next { IfSome result (IsPart self.old self.new) }
        ensures still { IfNone result (self.new ≡ self.old) }
    {
        if self.left > 0 {
            self.left -= 1;
            let (name, octets) = head_part(&self.piece, self.left);
            return Some(self.take(name, octets.len()));
        }
        let (name, length, inside) = inside_step(self.inside)?;
        self.inside = inside;
        Some(self.take(name, length))
    }
}
