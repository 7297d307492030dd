//! A whole record of a nested message that is half read, or as much of one as its head shows to fit.
ghost use Rattle.std.specs.Prelude.{◌≡◌, ◌≤◌, ◌<◌, ◌-◌, ◌^◌, ◌||◌, ℕ, nat_lt, true, List, length, take, IsTrue, IfSome};
ghost use Rattle.ndef_lang.specs.Language.{Continues, PassesBetween, Reaches};
ghost use Rattle.ndef_nest.specs.Machine.Phases.{CompletesAfter, CompletesHeaded, IsSoundAfter, Suits, asking};
ghost use Rattle.ndef_nest.specs.Machine.Reached.{HasComeAfter, IsHeaded};

use crate::context::Context;
use crate::demand::Demand;
use crate::phase::{NestPhase, after_record, headed, typed};
use crate::span::meets;
use ndef_lang::{Kind, Language, Leaf};
use ndef_piece::Head;

/// Returns the state after the head of a record and all that it announces, if the bytes begin with that and it is clear
/// at once that it may come: the demand, the position of the next octet, and the number of octets.
fn recorded(context: &Context, head: &Head, bytes: &[u8]) -> Option<(Demand, NestPhase, usize)>
    requires { head.now.last || nat_lt 0 context.now.records ≡ true }
    ensures most { IfSome result (λ r. r.2 ≤ length bytes.now) }
    ensures future { IfSome result (λ r. Continues (CompletesHeaded context.now head.now)
        (CompletesAfter (asking context.now r.0) r.1) (take r.2 bytes.now)) }
    ensures sound { IfSome result (λ r. IsSoundAfter (asking context.now r.0) r.1) }
    ensures suited { IfSome result (λ r. Suits context.now → Suits (asking context.now r.0)) }
    ensures come { IfSome result (λ r. (records : ℕ) → Reaches (IsHeaded context.now head.now records)
        (HasComeAfter (asking context.now r.0) r.1 records) (take r.2 bytes.now)) }
{
    let named = usize::from(head.kind_length);
    let before = named + usize::from(head.id_length.unwrap_or(0));
    let length = head.payload_length as usize;
    if bytes.len() < before || bytes.len() - before < length {
        return None;
    }
    let whole = before + length;
    let kind = context.table.checked(Kind::of(head.tnf, &bytes[..named]));
    if !context.demand.allows(kind) || !Leaf::has(kind, 1, context.profile, &bytes[before..whole]) {
        return None;
    }
    let demand = context.demand.after(kind);
    let next = Context { demand, ..*context };
    Some((demand, after_record(&next, head.last), whole))
}

/// Whether some `lo` to `hi` octets complete the message after a head, with no octet of the next one.
#[inline(always)]
fn fits_after(context: &Context, demand: Demand, phase: NestPhase, lo: u64, hi: u64) -> bool
    requires sound { IsSoundAfter (asking context.now demand) phase }
    requires suited { Suits (asking context.now demand) }
    requires small { hi < 2 ^ 32 }
    ensures { IsTrue result → PassesBetween (CompletesAfter (asking context.now demand) phase) lo hi }
{
    let next = Context { demand, ..*context };
    meets(phase.span(&next), lo, hi)
}

/// Returns the state after the head of a record and as much of the record as the bytes begin with, if that is all or
/// its type, and it is clear at once that some `lo` to `hi` octets continue it: the demand, the position of the next
/// octet, and the number of octets.
pub(crate) fn after_head(
    context: &Context,
    head: &Head,
    bytes: &[u8],
    lo: u64,
    hi: u64,
) -> Option<(Demand, NestPhase, usize)>
    requires suited { Suits context.now }
    requires followed { head.now.last || nat_lt 0 context.now.records ≡ true }
    requires enough { length bytes.now ≤ lo }
    requires ordered { lo ≤ hi }
    requires small { hi < 2 ^ 32 }
    ensures most { IfSome result (λ r. r.2 ≤ length bytes.now) }
    ensures future { IfSome result (λ r. Continues (CompletesHeaded context.now head.now)
        (CompletesAfter (asking context.now r.0) r.1) (take r.2 bytes.now)) }
    ensures fits { IfSome result (λ r.
        PassesBetween (CompletesAfter (asking context.now r.0) r.1) (lo - r.2) (hi - r.2)) }
    ensures sound { IfSome result (λ r. IsSoundAfter (asking context.now r.0) r.1) }
    ensures suited { IfSome result (λ r. Suits (asking context.now r.0)) }
    ensures come { IfSome result (λ r. (records : ℕ) → Reaches (IsHeaded context.now head.now records)
        (HasComeAfter (asking context.now r.0) r.1 records) (take r.2 bytes.now)) }
{
    if let Some((demand, phase, count)) = recorded(context, head, bytes) {
        let before = count as u64;
        if fits_after(context, demand, phase, lo - before, hi - before) {
            return Some((demand, phase, count));
        }
    }
    let named = usize::from(head.kind_length);
    if named <= bytes.len() {
        let (demand, phase) = typed(context, head, &bytes[..named]);
        let before = named as u64;
        if fits_after(context, demand, phase, lo - before, hi - before) {
            return Some((demand, phase, named));
        }
    }
    let (demand, phase) = headed(context, head);
    if fits_after(context, demand, phase, lo, hi) {
        Some((demand, phase, 0))
    } else {
        None
    }
}
