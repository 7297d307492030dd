//! The trait of a language for the records of a message.
ghost use Rattle.std.specs.Prelude.{◌≡◌, ℕ, ◌+◌, ◌^◌, ◌<◌, ◌≤◌, Bool, List, [], ◌∷◌, ◌↔◌, IsTrue, length, take};
ghost use Rattle.ndef_format.specs.Records.{AreOctets};
ghost use Rattle.ndef_format.specs.Payloads.{Sets};
ghost use Rattle.ndef_format.specs.Reasons.{Conditions};
ghost use Rattle.ndef_lang.specs.Language.{PassesBetween, Continues, AllPass, StepsAll, TellsWhy, TellsWhyAt};
ghost use Rattle.ndef_lang.specs.RecordLanguage.{LeadsEach, AllLead, TakesOthers, AreOfOctets};

use ndef_format::Tnf;
use ndef_value::{Profile, Reason};

/// The payloads that a record of a message may have, by its type, read one octet at a time. It is what a checker, a
/// decoder and their kin take for a type parameter. `Typed` of ndef_nest has the payloads that the standards define,
/// [`Leaf`](crate::Leaf) those of them with no message in them, [`Opaque`](crate::Opaque) any; by
/// [`With`](crate::With) a crate adds record types of its own to another language, and it may write a whole language.
///
/// A language that goes by the kinds of the types answers `Kind::of(tnf, name)` first, and declares so by `by_kind`.
pub trait RecordLanguage: Drop {
    ghost use Rattle.ndef_format.specs.Laws.{TypesStay};
    ghost use Rattle.ndef_format.specs.declared.profile.Profile.{Profile};
    ghost use Rattle.ndef_format.specs.declared.reason.Reason.{Reason};
    ghost use Rattle.ndef_format.specs.declared.tnf.Tnf.{Tnf as Format};

    /// The payloads of a type.
    ghost payloads: { Sets };

    /// The reasons that hold of an octet after the octets of a payload before it.
    ghost reasons: { Conditions };

    /// The octets that complete the octets so far to a payload.
    ghost future: { Self → List ℕ → Type 0 };

    /// The octets so far.
    ghost reached: { Self → Format → List ℕ → ℕ → Profile → List ℕ → Type 0 };

    /// The result of `fits`.
    ghost fitting: { Self → ℕ → ℕ → Bool };

    /// The result of `reason`.
    ghost reason_of_last: { Self → Reason };

    /// Whether it is clear at once that the payload is one of the type, in a message whose inner messages have at most
    /// `records` records. Where the answer is false, the payload may still be one.
    fn has(_tnf: Tnf, _name: &[u8], _records: u32, _profile: Profile, _payload: &[u8]) -> bool
        ensures { IsTrue result → payloads _tnf _name.now _records _profile _payload.now }
    {
        false
    }

    /// Whether it is clear at once that any octets are a payload of the type.
    fn takes_all(_tnf: Tnf, _name: &[u8]) -> bool
        ensures { IsTrue result → (records : ℕ) (profile : Profile) (s : List ℕ)
            → AreOctets s → payloads _tnf _name.now records profile s }
    {
        false
    }

    /// Returns the state before a payload of the type; a message within it has at most `records` records, 1 to 65535.
    fn start(tnf: Tnf, name: &[u8], records: u32, profile: Profile) -> Self
        requires some { 1 ≤ records }
        requires few { records < 2 ^ 16 }
        ensures future { Continues (payloads tnf name.now records profile) (future result) [] }
        ensures reached { reached result tnf name.now records profile [] };

    /// Takes an octet. If something could follow before it, `reason` then returns why this octet is refused, if it is.
    fn step(&mut self, byte: u8)
        ensures future { Continues (future self.old) (future self.new) (byte ∷ []) }
        ensures reached { LeadsEach (reached self.old) (reached self.new) (byte ∷ []) }
        ensures reason { (tnf : Format) (name : List ℕ) (records : ℕ) (profile : Profile)
            → TellsWhy (reached self.old tnf name records profile) (future self.old)
            (reasons tnf name records profile) byte (reason_of_last self.new) };

    /// Whether some `lo` to `hi` octets complete a payload, `hi` being at most 4294967295.
    fn fits(&self, lo: u64, hi: u64) -> bool
        requires { hi < 2 ^ 32 }
        ensures { result ≡ fitting self.now lo hi };

    /// Takes octets while what is still to come, `lo` to `hi` octets before the first of them, can complete a payload,
    /// and returns their number. If that is fewer than all, it has taken one more, and `reason` returns why that one is
    /// refused.
    fn step_all(&mut self, bytes: &[u8], lo: u64, hi: u64) -> usize
        requires enough { length bytes.now ≤ lo }
        requires small { hi < 2 ^ 32 }
        requires fits { IsTrue (fitting self.old lo hi) }
        ensures steps { StepsAll (future self.old) (future self.new) bytes.now lo hi result }
        ensures reached { LeadsEach (reached self.old) (reached self.new) (take (result + 1) bytes.now) }
        ensures reason { result < length bytes.now → (tnf : Format) (name : List ℕ) (records : ℕ) (profile : Profile)
            → TellsWhyAt (reached self.old tnf name records profile)
            (reasons tnf name records profile) bytes.now result (reason_of_last self.new) }
    {
        for (at, byte) in bytes.iter().enumerate() {
            self.step(*byte);
            let taken = at as u64 + 1;
            if !self.fits(lo - taken, hi - taken) {
                return at;
            }
        }
        bytes.len()
    }

    /// Whether it is clear at once that any octets complete the payload, and leave what can follow as it is. Where it
    /// is false, they may.
    fn is_open(&self) -> bool
        ensures future { IsTrue result → AllPass (future self.now) }
        ensures reached { IsTrue result → AllLead (reached self.now) }
    {
        false
    }

    /// The reason why the octet taken last is refused, if it is.
    fn reason(&self) -> Reason
        ensures { result ≡ reason_of_last self.now };

    /// `fits` is true exactly where some list of `lo` to `hi` octets completes a payload.
    ghost exact: { (state : Self) (lo hi : ℕ) → hi < 2 ^ 32
        → IsTrue (fitting state lo hi) ↔ PassesBetween (future state) lo hi };

    /// The completions of a payload are octets.
    ghost future_octets: { (state : Self) (r : List ℕ) → future state r → AreOctets r };

    /// A payload is octets.
    ghost payloads_are_octets: { AreOfOctets payloads };

    /// A payload of a message stays one where more records are allowed and the profile is no stricter.
    ghost stay: { TypesStay payloads };

    /// A type whose name is empty, or has a 0 octet, may have any payload: so while a name is read, some payload can
    /// still follow.
    ghost others: { TakesOthers payloads };
}
