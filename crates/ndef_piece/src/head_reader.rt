//! The head of a piece, read octet by octet.
ghost use Rattle.std.specs.Prelude.{◌≡◌, ◌≢◌, ◌<◌, true, false, [], ◌∷◌, ◌++◌, length, take, slice_index, slice_set, IfSome, IsSome, IsTrue};
ghost use Rattle.ndef_format.specs.Records.{HeadFields, octets};
ghost use Rattle.ndef_piece.specs.Header.{size};
ghost use Rattle.ndef_piece.specs.Heads.{head, IsViableHead, IsRange};
ghost use Rattle.ndef_format.specs.Positions.{CanBeSpelled, IsOpen};
ghost use Rattle.ndef_piece.specs.Bounds.{AreBounds};
ghost use Rattle.ndef_piece.specs.Machine.Reading.{IsAnswer, IsSound, IfHead, IfRefused};
ghost use Rattle.ndef_piece.specs.Whole.{BeginWithHead};
ghost use Rattle.ndef_piece.specs.declared.head_reader.Step.TheVariants as steps;

use crate::bounds::{bounds_at, front_bounds, range};
use crate::conditions::reason;
use crate::head::head_of;
use crate::header::size;
use crate::whole::head_at;
use crate::{Bounds, Head, Spot};
use ndef_value::Reason;
use std::marker::Model;

/// The state after an octet of a head.
#[derive(Clone, Copy, Debug, PartialEq, Eq, Hash)]
pub enum Step {
    /// It goes on.
    More,
    /// It is whole.
    Head(Head),
    /// No head that may occur at the spot begins with these octets. The reason is the lowest that holds of the
    /// octet.
    Refused(Reason),
}

/// Returns the state after these octets of a head, if they are a front of one.
fn step_after(taken: &[u8]) -> Step
    requires { 0 < length taken.now }
    ensures more { length taken.now < size (slice_index taken.now 0) → result ≡ steps.More }
    ensures whole { (f : HeadFields) → CanBeSpelled f → octets f ≡ taken.now
        → result ≡ steps.Head (head f) }
{
    if taken.len() == size(taken[0]) {
        Step::Head(head_of(taken))
    } else {
        Step::More
    }
}

/// Puts the octet after the first `count` of them, and answers what they are then.
fn answer(spot: &Spot, octets: &mut [u8; 7], count: usize, octet: u8) -> Step
    requires { IsOpen spot.now (take count octets.old) }
    ensures put { octets.new ≡ slice_set octets.old count octet }
    ensures answer { IsAnswer spot.now (take count octets.old) octet result }
{
    let reason = reason(spot, &octets[..count], octet);
    octets[count] = octet;
    match reason {
        Some(reason) => Step::Refused(reason),
        None => step_after(&octets[..count + 1]),
    }
}

/// Reads the head of one piece (NDEF 1.0, record layout), octet by octet. Clauses see its spot, its
/// octets so far, a refused one with them, and the answer to the last.
#[derive(Debug, Drop)]
pub struct HeadReader {
    spot: Spot,
    octets: [u8; 7],
    count: usize,
    answer: Step,
}

impl Model for HeadReader {
    ghost use Rattle.ndef_piece.specs.Machine.Reading.{Reading};

    ghost Value = { Reading };

    ghost use Rattle.ndef_piece.specs.Machine.Inside.{inside_fields, reading, IsConsistent};
    ghost use Rattle.ndef_piece.specs.Machine.InsideLaws.{inside_fields_are_exact};

    ghost view = { reading };

    ghost invariant = { IsConsistent };

    ghost inverse = { inside_fields };

    ghost inverse_ok = { inside_fields_are_exact };
}

impl HeadReader {
    /// A reader that has no octet yet. The first piece of a message is not inside a run.
    #[tactic(auto, using(crate::proofs::Steps::open_start))]
    pub fn new(spot: Spot) -> Self
        requires { spot.first ≡ true → spot.inside ≡ false }
        ensures empty { result ≡ record { spot = spot; octets = []; answer = steps.More } }
        // Some head may occur at any spot.
        ensures open { IsOpen spot [] }
    {
        HeadReader {
            spot,
            octets: [0; 7],
            count: 0,
            answer: Step::More,
        }
    }

    /// Whether no octet has come.
    pub fn is_fresh(&self) -> bool
        ensures { IsTrue result → self.now.octets ≡ [] }
    {
        self.count == 0
    }

    /// Returns the head at the front of the bytes, and its number of octets, if no octet has come yet and the bytes
    /// show at once that it is whole and may occur at the spot.
    #[inline(always)]
    pub fn whole_head(&self, bytes: &[u8]) -> Option<(Head, usize)>
        ensures fresh { IfSome result (λ r. self.now.octets ≡ []) }
        ensures begins { IfSome result (λ r. BeginWithHead self.now.spot bytes.now r.0 r.1) }
    {
        if self.count > 0 {
            return None;
        }
        head_at(&self.spot, bytes)
    }

    /// Takes the next octet. A refused octet isn't part of the head; after a head or a refusal `step`
    /// answers the same and changes nothing.
    pub fn step(&mut self, octet: u8) -> Step
        ensures sound { IsSound self.old self.old.answer }
        ensures ended { self.old.answer ≢ steps.More
            → (result ≡ self.old.answer) × (self.new ≡ self.old) }
        ensures taken { self.old.answer ≡ steps.More
            → self.new ≡ record self.old { octets = self.old.octets ++ octet ∷ []; answer = result } }
        ensures answer { self.old.answer ≡ steps.More
            → IsAnswer self.old.spot self.old.octets octet result }
    {
        match self.answer {
            Step::More => {
                self.answer = answer(&self.spot, &mut self.octets, self.count, octet);
                self.count += 1;
                self.answer
            }
            ended => ended,
        }
    }

    /// The least and the greatest number of payload bytes that this piece can still have, and after
    /// a refusal `(1, 0)`. Each number from the least to the greatest is that of some head.
    pub fn lengths(&self) -> (u64, u64)
        ensures exact { IsRange self.now.spot self.now.octets result }
        ensures whole { IfHead self.now.answer
            (λ h. result ≡ (h.payload_length, h.payload_length)) }
        ensures refused { IfRefused self.now.answer (result ≡ (1, 0)) }
    {
        match self.answer {
            Step::More => range(&self.spot, &self.octets[..self.count]),
            Step::Head(head) => {
                let length = u64::from(head.payload_length);
                (length, length)
            }
            Step::Refused(_) => (1, 0),
        }
    }

    /// The bounds of the heads that go on, once there is an octet and where none is refused.
    pub fn bounds(&self) -> Option<Bounds>
        ensures exact { IfSome result (λ b. AreBounds self.now.spot self.now.octets b) }
        ensures there { self.now.octets ≢ [] → IsViableHead self.now.spot self.now.octets
            → IsSome result }
    {
        match self.answer {
            Step::More => front_bounds(&self.spot, &self.octets[..self.count]),
            Step::Head(head) => Some(bounds_at(&head)),
            Step::Refused(_) => None,
        }
    }
}
