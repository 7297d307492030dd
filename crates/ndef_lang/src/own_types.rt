//! Record types of a program's own, beside those of another language.
ghost use Rattle.std.specs.Prelude.{◌≡◌, Bool, List, ℕ, false};
ghost use Rattle.ndef_format.specs.Laws.{IsNoName};
ghost use Rattle.ndef_lang.specs.OwnTypes.{OwnStay, is_type};

use super::language::Language;
use super::record_language::RecordLanguage;
use ndef_format::{Kind, Tnf};
use ndef_value::{Profile, Reason};

/// A record type of a program's own, or several with one set of payloads.
pub trait OwnType {
    ghost use Rattle.ndef_format.specs.declared.tnf.Tnf.{Tnf as Format};

    /// Reads the payloads, as [`Fixed`](crate::Fixed), `Utf8Lang` or an [`Only`](crate::Only) of a layout.
    type Payload: Language;

    /// Whether a type is it.
    ghost owned: { Format → List ℕ → Bool };

    /// Whether the type with this type name format and this name is it.
    fn is_own(tnf: Tnf, name: &[u8]) -> bool
        ensures { result ≡ owned tnf name.now };

    /// Its name has an octet, and none is 0.
    ghost named: { (tnf : Format) (name : List ℕ) → IsNoName name → owned tnf name ≡ false };

    /// A payload stays one where a message within it may have more records and the profile is no stricter.
    ghost stay: { OwnStay Self.Payload.payloads };
}

/// Whether the type with this type name format and this name is the own one, octet for octet.
pub fn is_type(own: Tnf, own_name: &[u8], tnf: Tnf, name: &[u8]) -> bool
    ensures { result ≡ is_type own own_name.now tnf name.now }
{
    own.code() == tnf.code() && own_name == name
}

/// The payloads of the own type, and those of the other language for any other type.
#[derive(Drop)]
pub enum With<T: OwnType, L: RecordLanguage> {
    /// A payload of the own type.
    Own(T::Payload),
    /// A payload of any other type.
    Base(L),
}

impl<T: OwnType, L: RecordLanguage> RecordLanguage for With<T, L> {
    ghost use Rattle.ndef_lang.specs.OwnTypes.{own_sets, own_reasons, none_of_kind, none_of_type};
    ghost use Rattle.ndef_lang.specs.OwnLaws.{own_octets, own_others, own_stay};
    ghost use Rattle.ndef_lang.specs.declared.own_types.With.TheVariants.{Own, Base};
    ghost use Rattle.ndef_format.specs.declared.kind.Kind.TheVariants.{Other};

    ghost payloads = { own_sets T.owned T.Payload.payloads L.payloads };

    ghost reasons = { own_reasons T.owned T.Payload.reasons L.reasons };

    ghost future = { elim [ Own p ↦ T.Payload.future p | Base b ↦ L.future b ] };

    ghost reached = { elim [
      | Own p ↦ own_sets T.owned (T.Payload.reached p) none_of_type
      | Base b ↦ own_sets T.owned none_of_kind (L.reached b)
    ] };

    ghost fitting = { elim [ Own p ↦ T.Payload.fitting p | Base b ↦ L.fitting b ] };

    ghost reason_of_last = { elim [ Own p ↦ T.Payload.reason_of_last p | Base b ↦ L.reason_of_last b ] };

    fn has(tnf: Tnf, name: &[u8], records: u32, profile: Profile, payload: &[u8]) -> bool {
        if T::is_own(tnf, name) {
            T::Payload::has(Kind::Other, records, profile, payload)
        } else {
            L::has(tnf, name, records, profile, payload)
        }
    }

    fn takes_all(tnf: Tnf, name: &[u8]) -> bool {
        !T::is_own(tnf, name) && L::takes_all(tnf, name)
    }

    fn start(tnf: Tnf, name: &[u8], records: u32, profile: Profile) -> Self {
        if T::is_own(tnf, name) {
            With::Own(T::Payload::start(Kind::Other, records, profile))
        } else {
            With::Base(L::start(tnf, name, records, profile))
        }
    }

    fn step(&mut self, byte: u8) {
        match self {
            With::Own(own) => own.step(byte),
            With::Base(base) => base.step(byte),
        }
    }

    fn fits(&self, lo: u64, hi: u64) -> bool {
        match self {
            With::Own(own) => own.fits(lo, hi),
            With::Base(base) => base.fits(lo, hi),
        }
    }

    fn step_all(&mut self, bytes: &[u8], lo: u64, hi: u64) -> usize {
        match self {
            With::Own(own) => own.step_all(bytes, lo, hi),
            With::Base(base) => base.step_all(bytes, lo, hi),
        }
    }

    fn is_open(&self) -> bool {
        match self {
            With::Own(_) => false,
            With::Base(base) => base.is_open(),
        }
    }

    fn reason(&self) -> Reason {
        match self {
            With::Own(own) => own.reason(),
            With::Base(base) => base.reason(),
        }
    }

    ghost exact = { elim [ Own p ↦ T.Payload.exact p | Base b ↦ L.exact b ] };

    ghost future_octets = { elim [ Own p ↦ T.Payload.future_octets p | Base b ↦ L.future_octets b ] };

    ghost payloads_are_octets = { own_octets T.owned T.Payload.payloads L.payloads
        (T.Payload.payloads_are_octets Other) L.payloads_are_octets };

    ghost stay = { own_stay T.owned T.Payload.payloads L.payloads T.stay L.stay };

    ghost others = { own_others T.owned T.Payload.payloads L.payloads T.named L.others };
}
