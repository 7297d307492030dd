//! The checker of a message: whole records and pieces, and else bytes of one field, one after another.
ghost use Rattle.std.specs.Prelude.{◌≡◌, ◌+◌, ◌-◌, ◌<◌, ◌≤◌, ◌++◌, ◌∷◌, [], ℕ, List, length, take, false, None, if◌then◌else◌};
ghost use Rattle.ndef_format.specs.Limits.{LimitValues, greatest_length};
ghost use Rattle.ndef_format.specs.HeadReasons.{is_set};
ghost use Rattle.ndef_message.specs.Feed.{Ends, IsLongestViable, Tells, TellsEnd, CountsRecords, CountsMessage};
ghost use Rattle.ndef_message.specs.Machine.Fronts.{IsReachable, SomeLed, ForEachInput, Feeds};
ghost use Rattle.ndef_message.specs.Machine.Accepted.{AreTakenRecords, BeginsWith, IsFresh, IsReachableBetween, passed, record_of};
ghost use Rattle.ndef_message.specs.Machine.State.{answer_of, MatchesInput, Onward};

use crate::Fed;
use crate::accepted::Passed;
use crate::format::format_laws;
use crate::phase::{Phase, Place};
use crate::state::State;
use ndef_lang::{RecordLanguage, TypeName};
use ndef_piece::{HeadReader, WholePiece};
use ndef_value::{Limits, Reason, Refusal, Tnf, one_meaning};

/// Checks one message in memory of fixed size.
#[derive(Debug, Drop)]
pub struct Checker<L: RecordLanguage> {
    pub(crate) limits: Limits,
    pub(crate) state: State<L>,
    pub(crate) taken: u64,
    ghost led: { ∥ SomeLed (MatchesInput L.RecordLanguage limits state taken) ∥₁ },
}

impl<L: RecordLanguage> Checker<L> {
    ghost use Rattle.ndef_message.specs.Machine.Taken.{WasFed, ForEachFed};

    /// Returns a checker before a message.
    pub fn new(limits: Limits) -> Self
        ensures { WasFed result limits [] }
    {
        Checker::start(limits)
    }

    /// Takes the next bytes of the message, up to its last one or the first that is refused. After
    /// the last byte it takes none, and after a refusal it repeats that refusal.
    pub fn feed(&mut self, bytes: &[u8]) -> Fed
        ensures fed { ForEachFed self.old (λ limits front.
            WasFed self.new limits (front ++ bytes.now)) }
        ensures tells { ForEachFed self.old (λ limits front.
            Tells L.payloads L.reasons limits (front ++ bytes.now) (length front) result) }
    {
        // For the proof alone.
        one_meaning();
        self.feed_bytes(bytes)
    }

    /// Returns the refusal of the input, if it ends here, or `Ok` if it begins with a message.
    pub fn end(&self) -> Result<(), Refusal>
        ensures { ForEachFed self.now (λ limits bytes.
            TellsEnd L.payloads L.reasons limits bytes result) }
    {
        self.judge_end()
    }

    /// The records that have ended; after a refusal, before the refused byte.
    pub fn records(&self) -> u32
        ensures counted { ForEachFed self.now (λ limits bytes.
            CountsRecords L.payloads limits bytes result) }
        ensures message { ForEachFed self.now (λ limits bytes.
            CountsMessage L.payloads limits bytes result) }
    {
        // For the proof alone.
        format_laws(&self.limits);
        self.ended_records()
    }

    /// The bytes that were taken; after a refusal, those before the refused one. They are at most as
    /// many as a message within the limits can have.
    pub fn place(&self) -> u64
        ensures longest { ForEachFed self.now (λ limits bytes.
            IsLongestViable L.payloads limits bytes result) }
        ensures bound { ForEachFed self.now (λ limits bytes.
            result ≤ greatest_length limits) }
    {
        // For the proof alone.
        one_meaning();
        self.accepted_bytes()
    }
}

/// The same functions, in terms of the bytes that the checker took, the records that they end and the point after them.
impl<L: RecordLanguage> Checker<L> {
    ghost use Rattle.ndef_message.specs.Machine.Points.{start_point};
    ghost use Rattle.ndef_message.specs.Machine.State.{numbers};
    ghost use Rattle.ndef_piece.specs.Walk.{start};
    ghost use Rattle.ndef_message.specs.Machine.Checkers.{CheckerReached, checker_limits};

    /// Returns a checker before the first byte.
    pub(crate) fn start(limits: Limits) -> Self
        ensures limits { checker_limits result ≡ limits }
        ensures reached { CheckerReached result [] [] (start_point limits) }
    {
        // For the proof alone.
        format_laws(&limits);
        let place = Place::start(&limits);
        Checker {
            limits,
            state: State {
                place,
                reader: HeadReader::new(place.spot(limits.profile())),
                payload: L::start(Tnf::Unknown, &[], limits.records(), limits.profile()),
                phase: Phase::Head,
                name: TypeName::new(),
            },
            taken: 0,
        }
    }

    /// Returns a checker after the records with which the input begins.
    pub(crate) fn after_records(limits: Limits, input: &[u8], passed: Passed) -> Self
        requires { AreTakenRecords L.payloads limits (numbers (start limits))
            input.now passed.taken passed.place false }
        ensures limits { checker_limits result ≡ limits }
        ensures reached { IsReachable (CheckerReached result) (take passed.taken input.now) }
    {
        // For the proof alone.
        format_laws(&limits);
        let mut checker = Checker::<L>::start(limits);
        if passed.taken == 0 {
            return checker;
        }
        checker.state.advance_past(&limits, passed.place, false);
        checker.taken = passed.taken as u64;
        checker
    }

    /// Takes bytes up to the last one of the message or the first that is refused.
    pub(crate) fn feed_bytes(&mut self, bytes: &[u8]) -> Fed
        ensures limits { checker_limits self.new ≡ checker_limits self.old }
        ensures fed { ForEachInput (CheckerReached self.old) (λ front given point.
            Feeds L.payloads L.reasons (checker_limits self.old) (CheckerReached self.new) front bytes.now result) }
    {
        if bytes.len() == 1 {
            return self.feed_octet(bytes);
        }
        self.feed_tried(bytes, false)
    }

    /// The same for one byte, with which no whole record or piece comes.
    fn feed_octet(&mut self, bytes: &[u8]) -> Fed
        requires { length bytes.now ≡ 1 }
        ensures limits { checker_limits self.new ≡ checker_limits self.old }
        ensures fed { ForEachInput (CheckerReached self.old) (λ front given point.
            Feeds L.payloads L.reasons (checker_limits self.old) (CheckerReached self.new) front bytes.now result) }
    {
        // For the proof alone.
        format_laws(&self.limits);
        if let Some(answer) = self.answer(0) {
            return answer;
        }
        let count = self.step(bytes);
        match self.answer(count) {
            Some(answer) => answer,
            None => Fed::More,
        }
    }

    /// The same. Where `tried` is set, the fast test has just failed on the record at the front of the bytes, and isn't
    /// tried on it again.
    pub(crate) fn feed_tried(&mut self, bytes: &[u8], tried: bool) -> Fed
        ensures limits { checker_limits self.new ≡ checker_limits self.old }
        ensures fed { ForEachInput (CheckerReached self.old) (λ front given point.
            Feeds L.payloads L.reasons (checker_limits self.old) (CheckerReached self.new) front bytes.now result) }
    {
        // For the proof alone.
        format_laws(&self.limits);
        let mut tried = tried;
        let mut at = 0;
        while at < bytes.len() {
            if let Some(answer) = self.answer(at) {
                return answer;
            }
            let (count, failed) = self.advance(&bytes[at..], tried);
            at += count;
            tried = failed;
        }
        match self.answer(bytes.len()) {
            Some(answer) => answer,
            None => Fed::More,
        }
    }

    /// Returns the refusal of the bytes, if the input ends with them, or `Ok` if they are a message.
    pub(crate) fn judge_end(&self) -> Result<(), Refusal>
        ensures { ForEachInput (CheckerReached self.now) (λ front given point.
            Ends L.payloads L.reasons (checker_limits self.now) front result) }
    {
        // For the proof alone.
        format_laws(&self.limits);
        match self.state.phase {
            Phase::Done => Ok(()),
            Phase::Refused { refusal } => Err(refusal),
            _ => Err(Refusal {
                at: self.taken,
                reason: Reason::EndOfInput,
            }),
        }
    }

    /// The records that they end.
    pub(crate) fn ended_records(&self) -> u32
        ensures { ForEachInput (CheckerReached self.now) (λ front given point. result ≡ length given) }
    {
        // For the proof alone.
        format_laws(&self.limits);
        self.limits
            .records()
            .saturating_sub(self.state.place.records)
    }

    /// The number of them that are accepted: all, or all but a refused one.
    pub(crate) fn accepted_bytes(&self) -> u64
        ensures accepted { ForEachInput (CheckerReached self.now) (λ front given point.
            IsLongestViable L.payloads (checker_limits self.now) front result) }
        ensures bound { result ≤ greatest_length (checker_limits self.now) }
    {
        // For the proof alone.
        format_laws(&self.limits);
        match self.state.phase {
            Phase::Refused { refusal } => refusal.at,
            _ => self.taken,
        }
    }

    /// Returns the answer that is known before another byte is seen.
    fn answer(&self, taken: usize) -> Option<Fed>
        ensures { result ≡ answer_of self.now.state.phase taken }
    {
        match self.state.phase {
            Phase::Done => Some(Fed::Done { taken }),
            Phase::Refused { refusal } => Some(Fed::Refused(refusal)),
            _ => None,
        }
    }

    /// Takes whole records or pieces where that can be done at once, unless it was tried on these bytes; returns their
    /// number of bytes.
    fn pass(&mut self, bytes: &[u8], tried: bool) -> usize
        requires going { answer_of self.old.state.phase 0 ≡ None }
        ensures limits { self.new.limits ≡ self.old.limits }
        ensures none { result ≡ 0 → self.new.state.phase ≡ self.old.state.phase }
        ensures most { result ≤ length bytes.now }
        ensures onward { ForEachInput (CheckerReached self.old) (λ front given point.
            IsReachable (CheckerReached self.new) (front ++ take result bytes.now)) }
    {
        // For the proof alone.
        format_laws(&self.limits);
        if tried {
            return 0;
        }
        let taken = self.state.take_pieces(&self.limits, bytes);
        self.taken += taken as u64;
        taken
    }

    /// Takes whole records or pieces where that can be done at once, else the next bytes of one field, up to the first
    /// that is refused. Returns the number taken, including a refused one, and whether the fast test failed on what
    /// comes after them. Where `tried` is set, it has failed on these bytes.
    fn advance(&mut self, bytes: &[u8], tried: bool) -> (usize, bool)
        requires going { answer_of self.old.state.phase 0 ≡ None }
        requires some { 0 < length bytes.now }
        ensures limits { self.new.limits ≡ self.old.limits }
        ensures some { 0 < result.0 }
        ensures most { result.0 ≤ length bytes.now }
        ensures onward { ForEachInput (CheckerReached self.old) (λ front given point.
            IsReachable (CheckerReached self.new) (front ++ take result.0 bytes.now)) }
    {
        let taken = self.pass(bytes, tried);
        if taken > 0 {
            return (taken, true);
        }
        (self.step(bytes), false)
    }

    /// Continues after the record in one piece at the front of the bytes.
    pub(crate) fn pass_record(&mut self, bytes: &[u8], piece: &WholePiece<'_>)
        requires fresh { IsFresh self.old.state }
        requires begins { BeginsWith L.payloads self.old.limits self.old.state.place bytes.now piece.now }
        ensures limits { self.new.limits ≡ self.old.limits }
        ensures taken { self.new.taken ≡ self.old.taken + (length bytes.now - length piece.now.rest.now) }
        ensures phase { self.new.state.phase ≡ (if is_set 6 piece.now.header then Phase.Done else Phase.Head) }
        ensures onward { ForEachInput (CheckerReached self.old) (λ front given point. IsReachableBetween
            (CheckerReached self.new) (front ++ passed bytes.now piece.now) (given ++ record_of piece.now ∷ [])) }
    {
        // For the proof alone.
        format_laws(&self.limits);
        let taken = bytes.len() - piece.rest.len();
        let place = self.state.place.after_record(&self.limits);
        self.state
            .advance_past(&self.limits, place, piece.is_last());
        self.taken += taken as u64;
    }

    /// Takes the next bytes of one field, up to the first that is refused. Returns the number taken, including a
    /// refused one. It isn't inlined, so that whole records are fast.
    #[inline(never)]
    pub(crate) fn step(&mut self, bytes: &[u8]) -> usize
        requires going { answer_of self.old.state.phase 0 ≡ None }
        requires some { 0 < length bytes.now }
        ensures limits { self.new.limits ≡ self.old.limits }
        ensures some { 0 < result }
        ensures most { result ≤ length bytes.now }
        ensures taken { self.new.taken ≡ self.old.taken + result }
        ensures onward { ForEachInput (CheckerReached self.old) (λ front given point.
            (self.new.taken ≡ length (front ++ take result bytes.now))
            × Onward L.RecordLanguage self.new.limits self.new.state front given point (take result bytes.now)) }
    {
        // For the proof alone.
        format_laws(&self.limits);
        let at = self.taken;
        let count = self.state.step(&self.limits, at, bytes);
        self.taken = at + count as u64;
        count
    }
}
