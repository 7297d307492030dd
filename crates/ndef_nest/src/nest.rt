//! A nested message: whole heads with their types, ids and payloads at once, else octet by octet.
ghost use Rattle.std.specs.Prelude.{◌≡◌, ◌≤◌, ◌<◌, ◌+◌, ◌-◌, ◌^◌, ◌↔◌, ◌||◌, ℕ, nat_lt, Bool, true, List, [], ◌∷◌, length, take, IfSome};
ghost use Rattle.ndef_piece.specs.Bounds.{AreBounds};
ghost use Rattle.ndef_piece.specs.Whole.{BeginWithHead};
ghost use Rattle.ndef_piece.specs.declared.head_reader.Step.TheVariants as steps;
ghost use Rattle.ndef_format.specs.declared.reason.Reason.TheVariants as reasons;
ghost use Rattle.ndef_lang.specs.Language.{Continues, Reaches, ReachesEach, PassesBetween, StepsAll, TellsWhy, TellsWhyAt};
ghost use Rattle.ndef_format.specs.Reasons.{IsLowest, OneReason};
ghost use Rattle.ndef_format.specs.declared.profile.Profile.{Profile};
ghost use Rattle.ndef_format.specs.declared.kind.Kind.{Kind};
ghost use Rattle.ndef_format.specs.Nested.{IsNest, IsVersion, table_of};
ghost use Rattle.ndef_nest.specs.Machine.Demands.{suits, nested_spot};
ghost use Rattle.ndef_nest.specs.Machine.Spans.{least_octets, most};
ghost use Rattle.ndef_nest.specs.Machine.Phases.{Completes, CompletesAfter, CompletesHeaded, CompletesVersion, IsBetween, IsSoundAfter, Suits, is_sound, start_fits};
ghost use Rattle.ndef_format.specs.NestedReasons.{MessageReason, NestReason};
ghost use Rattle.ndef_nest.specs.Machine.Reached.{HasCome, HasComeAfter, IsHeaded, IsNew};
ghost use Rattle.ndef_nest.specs.Machine.StatedReasons.{may_have, head_reason};
ghost use Rattle.ndef_nest.specs.Machine.Fronts.{FrontAt};
ghost use Rattle.ndef_nest.specs.Machine.FrontLaws.{front_at_prop};

use crate::Table;
use crate::context::Context;
use crate::demand::Demand;
use crate::member::is_nested;
use crate::phase::{NestPhase, headed, records_span};
use crate::span::{OpenRecord, meets};
use crate::whole::after_head;
use ndef_lang::{Kind, Language};
use ndef_piece::{
    Bounds, Head, HeadReader, Step, conditions_are_exact, heads_are_unambiguous,
    lengths_are_independent, next_fields_are_exact,
};
use ndef_value::{Profile, Reason, Tnf};

/// The payload of a record that holds a message: a smart poster (RTD Smart Poster 1.0), or a handover
/// request or select (Connection Handover 1.2) with its version octet.
#[derive(Debug, Drop)]
pub struct Nest {
    context: Context,
    reader: HeadReader,
    phase: NestPhase,
    /// The reason why the octet taken last is refused, if it is.
    reason: Reason,
    ghost suited: { suits context.table context.demand ≡ true },
    ghost going: { reader.answer ≡ steps.More },
    ghost spot: { reader.spot ≡ nested_spot context.profile reader.spot.first context.records },
    ghost sound: { is_sound context reader.spot.first reader.octets phase ≡ true },
    ghost front: { FrontAt reader.spot reader.octets } by { front_at_prop reader.spot reader.octets },
}

/// Returns the phase after an octet in the place of the version octet.
fn after_version(byte: u8) -> (NestPhase, Reason)
    ensures future { (c : Context) (first : Bool) (xs r : List ℕ)
        → Completes c first xs result.0 r ↔ CompletesVersion c (byte ∷ r) }
    ensures sound { (c : Context) (first : Bool) (xs : List ℕ)
        → is_sound c first xs NestPhase.Version ≡ true → is_sound c first xs result.0 ≡ true }
    ensures come { (c : Context) (first : Bool) (xs : List ℕ) (records : ℕ)
        → IsNew c records → HasCome c first xs result.0 records [] }
    ensures reason { IsLowest (OneReason reasons.Version (IsVersion byte → ⊥)) result.1 }
{
    if byte / 16 == 1 {
        (NestPhase::Start, Reason::DoesNotFit)
    } else {
        (NestPhase::Refused, Reason::Version)
    }
}

/// Whether the type may be a well-known one of `length` octets.
fn may_have(bounds: &Bounds, length: u8) -> bool
    ensures { result ≡ may_have bounds.now length }
{
    matches!(bounds.tnf, Tnf::WellKnown) && bounds.kind.0 <= length && length <= bounds.kind.1
}

/// The reason why an octet is refused with which a head continues, if it is.
fn reason_at_head(demand: Demand, bounds: &Bounds) -> Reason
    ensures { result ≡ head_reason demand bounds.now }
{
    match demand {
        Demand::OneUri if bounds.last && !may_have(bounds, 1) => Reason::UriMissing,
        Demand::Collision if !may_have(bounds, 2) => Reason::CollisionMissing,
        _ => Reason::DoesNotFit,
    }
}

/// Whether some `lo` to `hi` octets complete a message that has not begun.
fn start_fits(context: &Context, lo: u64, hi: u64) -> bool
    requires { 0 < context.now.records }
    ensures { result ≡ start_fits context.now lo hi }
{
    let may_be_empty = matches!(context.table, Table::Select);
    may_be_empty && lo == 0 || meets(records_span(context), lo, hi)
}

impl Nest {
    ghost use Rattle.ndef_nest.specs.Machine.Nests.{come, future, nest_fits, nest_head_span, nest_span, nest_spot, nest_reason, reached, reached_after};

    /// Returns the state before the first octet of the payload; its message has at most `records` records, 1 to 65535.
    pub fn new(table: Table, records: u32, profile: Profile) -> Self
        requires some { 1 ≤ records }
        ensures future { Continues (IsNest table records profile) (future result) [] }
        ensures reached { (kind : Kind) → table_of kind ≡ table → reached result kind records profile [] }
    {
        let context = Context {
            profile,
            table,
            demand: Demand::first(table),
            records,
        };
        Nest {
            context,
            reader: HeadReader::new(context.spot(true)),
            phase: NestPhase::first(table),
            reason: Reason::DoesNotFit,
        }
    }

    /// The least and the greatest number of octets that complete the message, once it has begun:
    /// none do where the second is less.
    fn span(&self) -> (u64, u64)
        ensures { result ≡ nest_span self.now }
    {
        match self.phase {
            NestPhase::Head => self.head_span(),
            phase => phase.span(&self.context),
        }
    }

    /// The same in a head of which these are the bounds.
    fn bounded_span(&self, bounds: &Bounds) -> (u64, u64)
        requires head { self.now.phase ≡ NestPhase.Head }
        requires bounds { AreBounds self.now.reader.spot self.now.reader.octets bounds.now }
        ensures { result ≡ nest_head_span self.now }
    {
        OpenRecord::of_head(self.context.demand, bounds).span(self.context.demand)
    }

    /// The same in a head.
    #[inline(always)]
    fn head_span(&self) -> (u64, u64)
        requires { self.now.phase ≡ NestPhase.Head }
        ensures { result ≡ nest_head_span self.now }
    {
        match self.reader.bounds() {
            Some(bounds) => self.bounded_span(&bounds),
            None => records_span(&self.context),
        }
    }

    /// Whether some `lo` to `hi` octets complete the message. Bounds are those of the head in which it is.
    fn fits_bounds(&self, bounds: Option<Bounds>, lo: u64, hi: u64) -> bool
        requires head { IfSome bounds (λ b. self.now.phase ≡ NestPhase.Head) }
        requires bounds { IfSome bounds (λ b. AreBounds self.now.reader.spot self.now.reader.octets b) }
        requires small { hi < 2 ^ 32 }
        ensures { result ≡ nest_fits self.now lo hi }
    {
        match bounds {
            Some(bounds) => meets(self.bounded_span(&bounds), lo, hi),
            None => self.fits(lo, hi),
        }
    }

    /// The head at the front of the bytes, and its number of octets, where a record may begin and it is clear at once
    /// that this one does.
    fn whole_head(&self, bytes: &[u8]) -> Option<(Head, usize)>
        ensures between { IfSome result (λ r. IsBetween self.now.phase self.now.reader.octets) }
        ensures begins { IfSome result (λ r. BeginWithHead (nest_spot self.now) bytes.now r.0 r.1) }
    {
        match self.phase {
            NestPhase::Start => HeadReader::new(self.context.spot(true)).whole_head(bytes),
            NestPhase::Head => self.reader.whole_head(bytes),
            _ => None,
        }
    }

    /// Returns the state after the whole head at the front of the bytes, and as much of its record as follows, if that
    /// is all of it or its type, and it is clear at once that they may occur there, continued by `lo` to `hi` octets:
    /// the context, the position of the next octet, and the number of octets taken.
    fn after_whole(&self, bytes: &[u8], lo: u64, hi: u64) -> Option<(Context, NestPhase, usize)>
        requires enough { length bytes.now ≤ lo }
        requires ordered { lo ≤ hi }
        requires small { hi < 2 ^ 32 }
        ensures some { IfSome result (λ r. 0 < r.2) }
        ensures most { IfSome result (λ r. r.2 ≤ length bytes.now) }
        ensures suited { IfSome result (λ r. Suits r.0) }
        ensures sound { IfSome result (λ r. IsSoundAfter r.0 r.1) }
        ensures steps { IfSome result (λ r.
            StepsAll (future self.now) (CompletesAfter r.0 r.1) (take r.2 bytes.now) lo hi r.2) }
        ensures reached { IfSome result (λ r.
            ReachesEach (reached self.now) (reached_after r.0 r.1) (take r.2 bytes.now)) }
    {
        // For the proof alone.
        heads_are_unambiguous();
        let (head, count) = self.whole_head(bytes)?;
        let context = self.context.fewer();
        let before = count as u64;
        let (demand, phase, more) = after_head(
            &context,
            &head,
            &bytes[count..],
            lo - before,
            hi - before,
        )?;
        Some((Context { demand, ..context }, phase, count + more))
    }

    /// Takes the next octet, or more where they are a whole head, with its type, or of one nested id or payload, up to
    /// the first that is refused. Returns the number of octets looked at, and the number that come before the refused
    /// one.
    fn step_some(&mut self, bytes: &[u8], lo: u64, hi: u64) -> (usize, usize)
        requires some { 0 < length bytes.now }
        requires enough { length bytes.now ≤ lo }
        requires small { hi < 2 ^ 32 }
        requires fits { PassesBetween (future self.old) lo hi }
        ensures some { 0 < result.0 }
        ensures most { result.0 ≤ length bytes.now }
        ensures steps { StepsAll (future self.old) (future self.new)
            (take result.0 bytes.now) lo hi result.1 }
        ensures reached { ReachesEach (reached self.old) (reached self.new)
            (take (result.1 + 1) (take result.0 bytes.now)) }
        ensures reason { result.1 < result.0 → (kind : Kind) (records : ℕ) (profile : Profile)
            → TellsWhyAt (reached self.old kind records profile)
            (NestReason (table_of kind) records profile)
            (take result.0 bytes.now) result.1 (nest_reason self.new) }
    {
        if let NestPhase::Body(body) = self.phase {
            if body.id == 0 {
                // For the proof alone.
                next_fields_are_exact();
                let most = bytes.len().min(body.payload as usize);
                let (phase, reason, count) = body.step_all(&self.context, &bytes[..most]);
                self.phase = phase;
                self.reason = reason;
                return (most, count);
            }
            let few = bytes.len().min(body.id as usize);
            self.phase = body.pass_id(&self.context, &bytes[..few]);
            return (few, few);
        }
        if let Some((context, phase, count)) = self.after_whole(bytes, lo, hi) {
            self.context = context;
            self.reader = HeadReader::new(context.spot(false));
            self.phase = phase;
            return (count, count);
        }
        let bounds = self.stepped(bytes[0]);
        if self.fits_bounds(bounds, lo - 1, hi - 1) {
            (1, 1)
        } else {
            (1, 0)
        }
    }

    /// Takes an octet of a head. Returns the bounds of the head where it goes on.
    #[inline(always)]
    fn at_head(&mut self, byte: u8) -> Option<Bounds>
        requires { self.old.phase ≡ NestPhase.Head }
        ensures future { Continues (future self.old) (future self.new) (byte ∷ []) }
        ensures come { (records : ℕ) → Reaches (come self.old records) (come self.new records) (byte ∷ []) }
        ensures kept { (self.new.context.table ≡ self.old.context.table)
            × (self.new.context.profile ≡ self.old.context.profile) }
        ensures reason { (records : ℕ) → TellsWhy (come self.old records) (future self.old)
            (MessageReason self.old.context.table records self.old.context.profile)
            byte (nest_reason self.new) }
        ensures head { IfSome result (λ b. self.new.phase ≡ NestPhase.Head) }
        ensures bounds { IfSome result (λ b. AreBounds self.new.reader.spot self.new.reader.octets b) }
    {
        // For the proof alone.
        lengths_are_independent();
        heads_are_unambiguous();
        next_fields_are_exact();
        conditions_are_exact();
        match self.reader.step(byte) {
            Step::More => {
                let bounds = self.reader.bounds();
                if let Some(bounds) = bounds {
                    self.reason = reason_at_head(self.context.demand, &bounds);
                }
                bounds
            }
            Step::Head(head) => {
                self.context.records -= 1;
                self.reader = HeadReader::new(self.context.spot(false));
                let (demand, phase) = headed(&self.context, &head);
                self.context.demand = demand;
                self.phase = phase;
                self.reason = Reason::DoesNotFit;
                None
            }
            Step::Refused(reason) => {
                self.reader = HeadReader::new(self.context.spot(false));
                self.phase = NestPhase::Refused;
                self.reason = reason;
                None
            }
        }
    }

    /// Takes an octet. Returns the bounds of the head where that goes on.
    #[inline(always)]
    fn stepped(&mut self, byte: u8) -> Option<Bounds>
        ensures future { Continues (future self.old) (future self.new) (byte ∷ []) }
        ensures reached { ReachesEach (reached self.old) (reached self.new) (byte ∷ []) }
        ensures reason { (kind : Kind) (records : ℕ) (profile : Profile)
            → TellsWhy (reached self.old kind records profile) (future self.old)
            (NestReason (table_of kind) records profile) byte (nest_reason self.new) }
        ensures head { IfSome result (λ b. self.new.phase ≡ NestPhase.Head) }
        ensures bounds { IfSome result (λ b. AreBounds self.new.reader.spot self.new.reader.octets b) }
    {
        // For the proof alone.
        next_fields_are_exact();
        match self.phase {
            NestPhase::Version => {
                let (phase, reason) = after_version(byte);
                self.phase = phase;
                self.reason = reason;
                None
            }
            NestPhase::Start => {
                self.reader = HeadReader::new(self.context.spot(true));
                self.phase = NestPhase::Head;
                self.at_head(byte)
            }
            NestPhase::Head => self.at_head(byte),
            NestPhase::Name(name) => {
                self.reason = name.reason(self.context.demand, byte);
                let (demand, phase) = name.step(&self.context, byte);
                self.context.demand = demand;
                self.phase = phase;
                None
            }
            NestPhase::Body(body) => {
                let (phase, reason) = body.step(&self.context, byte);
                self.phase = phase;
                self.reason = reason;
                None
            }
            NestPhase::Ended | NestPhase::Refused => {
                self.phase = NestPhase::Refused;
                self.reason = Reason::DoesNotFit;
                None
            }
        }
    }
}

impl Language for Nest {
    ghost use Rattle.ndef_nest.specs.Machine.Nests.{future, nest_fits, nest_reason, reached};
    ghost use Rattle.ndef_nest.specs.Machine.SpanLaws.{nest_fits_exactly};
    ghost use Rattle.ndef_nest.specs.Machine.OctetLaws.{nest_completes_octets, nest_octets};

    ghost payloads = { λ kind. IsNest (table_of kind) };

    ghost reasons = { λ kind. NestReason (table_of kind) };

    ghost future = { future };

    ghost reached = { reached };

    ghost fitting = { nest_fits };

    ghost reason_of_last = { nest_reason };

    #[inline(always)]
    fn has(kind: Kind, records: u32, profile: Profile, payload: &[u8]) -> bool {
        is_nested(Table::of(kind), records, profile, payload)
    }

    fn start(kind: Kind, records: u32, profile: Profile) -> Self {
        Nest::new(Table::of(kind), records, profile)
    }

    fn step(&mut self, byte: u8) {
        self.stepped(byte);
    }

    // Not inlined, so that payloads without a message are read fast.
    #[inline(never)]
    fn step_all(&mut self, bytes: &[u8], lo: u64, hi: u64) -> usize {
        let mut at = 0;
        while at < bytes.len() {
            let before = at as u64;
            let (looked, count) = self.step_some(&bytes[at..], lo - before, hi - before);
            if count < looked {
                return at + count;
            }
            at += looked;
        }
        at
    }

    fn fits(&self, lo: u64, hi: u64) -> bool {
        match self.phase {
            NestPhase::Version => hi > 0 && start_fits(&self.context, lo.max(1) - 1, hi - 1),
            NestPhase::Start => start_fits(&self.context, lo, hi),
            _ => meets(self.span(), lo, hi),
        }
    }

    fn reason(&self) -> Reason {
        self.reason
    }

    ghost exact = { nest_fits_exactly };

    ghost future_octets = { nest_completes_octets };

    ghost payloads_are_octets = { λ kind. nest_octets (table_of kind) };
}
