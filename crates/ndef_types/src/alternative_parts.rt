//! Alternative carriers, as they lie in their payloads.
ghost use Rattle.std.specs.Prelude.{◌≡◌, ◌-◌, ◌<◌, ◌≤◌, ℕ, List, length, drop, slice_get, option_map, IfOk};
ghost use Rattle.ndef_format.specs.Handovers.{AreAuxiliary, AreReferences, IsAlternative};
ghost use Rattle.ndef_format.specs.Reasons.{NoReason};
ghost use Rattle.ndef_types.specs.Decoding.{ParsesTo};
ghost use Rattle.ndef_types.specs.Values.{AcValue, StandForAuxiliary, StandForNames, StandsForAc};

use crate::Power;
use crate::accepting::accept;
use crate::alternative::Ac;
use crate::fields::{after_first, split_counted};
use ndef_lang::{Kind, Leaf};
use ndef_value::{Bytes, Name, NoMemory, Profile, Refusal};
use std::alloc::Global;
use std::marker::Model;

/// The payload of an alternative carrier record, whose parts are slices of it (Connection Handover 1.2,
/// Alternative Carrier record). Contracts see the octets of the payload.
#[derive(Debug, Drop)]
pub struct AlternativeParts<'a> {
    payload: &'a [u8],
}

impl<'a> Model for AlternativeParts<'a> {
    ghost use Rattle.std.specs.Prelude.{List, ℕ};
    ghost use Rattle.ndef_format.specs.Handovers.{IsAlternative};

    ghost Value = { List ℕ };

    ghost view = { λ a. a.payload.now };

    ghost invariant = { λ a. IsAlternative a.payload.now };
}

/// Returns the octets after the first `skipped` of `count` references, each after its length.
fn skip(octets: &[u8], count: u8, skipped: usize) -> &[u8]
    requires references { AreReferences count octets.now }
    requires some { skipped ≤ count }
    ensures references { AreReferences (count - skipped) result.now }
    ensures left { (names : List (List ℕ)) (rest : List ℕ) → StandForNames count octets.now names rest
        → StandForNames (count - skipped) result.now (drop skipped names) rest }
{
    let mut left = octets;
    for _i in 0..skipped {
        left = split_counted(left).1;
    }
    left
}

/// `count` references, each after its length, and the octets after them.
fn read_names(alloc: Global, count: u8, octets: &[u8]) -> Result<(Vec<Name>, &[u8]), NoMemory>
    requires { AreReferences count octets.now }
    ensures names { IfOk result (λ read. StandForNames count octets.now read.0.items read.1.now) }
    ensures few { IfOk result (λ read. length read.0.items ≤ 255) }
{
    let mut names = Vec::new(alloc);
    let mut left = octets;
    for _i in 0..count {
        let (name, after) = split_counted(left);
        let Ok(name) = Name::from_slice(alloc, name) else {
            return Err(NoMemory);
        };
        names.push(name)?;
        left = after;
    }
    Ok((names, left))
}

/// The auxiliary references after their count, and the octets after them.
fn read_auxiliary(alloc: Global, octets: &[u8]) -> Result<(Vec<Name>, &[u8]), NoMemory>
    requires { AreAuxiliary octets.now }
    ensures auxiliary { IfOk result (λ read. StandForAuxiliary octets.now read.0.items read.1.now) }
    ensures few { IfOk result (λ read. length read.0.items ≤ 255) }
{
    read_names(alloc, octets[0], after_first(octets))
}

impl<'a> AlternativeParts<'a> {
    /// The parts of a payload that is known to be that of an alternative carrier.
    pub fn new(payload: &'a [u8]) -> AlternativeParts<'a>
        requires { IsAlternative payload.now }
        ensures { result ≡ payload.now }
    {
        AlternativeParts { payload }
    }

    /// The parts of a payload, which is refused where it isn't in the set of its type or is longer than a
    /// payload may be.
    pub fn parse(payload: &'a [u8]) -> Result<AlternativeParts<'a>, Refusal>
        ensures { ParsesTo IsAlternative (λ s b. NoReason) payload.now result }
    {
        match accept::<Leaf>(Kind::Alternative, Profile::Strict, payload) {
            Ok(()) => Ok(AlternativeParts { payload }),
            Err(refusal) => Err(refusal),
        }
    }

    /// The power state of the carrier: bits 1 to 0 of the first octet, whose other bits are ignored.
    pub fn power(&self) -> Power
        ensures { (v : AcValue) → StandsForAc self.now v → result ≡ v.power }
    {
        Power::of(self.payload[0])
    }

    /// The carrier reference, 0 to 255 octets: the id of the record of the message that describes the
    /// carrier.
    pub fn reference(&self) -> &'a [u8]
        ensures { (v : AcValue) → StandsForAc self.now v → result.now ≡ v.reference }
    {
        split_counted(after_first(self.payload)).0
    }

    /// The octets after the carrier reference.
    fn after_reference(&self) -> &'a [u8]
        ensures auxiliary { AreAuxiliary result.now }
        ensures stand { (v : AcValue) → StandsForAc self.now v → StandForAuxiliary result.now v.auxiliary v.rest }
    {
        split_counted(after_first(self.payload)).1
    }

    /// The number of auxiliary references, 0 to 255.
    pub fn auxiliary_count(&self) -> usize
        ensures value { (v : AcValue) → StandsForAc self.now v → result ≡ length v.auxiliary }
        ensures few { result < 256 }
    {
        usize::from(self.after_reference()[0])
    }

    /// The auxiliary reference at a place, counted from 0: the id of a record with more about the
    /// carrier. None from `auxiliary_count` on.
    pub fn auxiliary(&self, index: usize) -> Option<&'a [u8]>
        ensures { (v : AcValue) → StandsForAc self.now v
            → option_map (λ name. name.now) result ≡ slice_get v.auxiliary index }
    {
        let octets = self.after_reference();
        if index >= usize::from(octets[0]) {
            return None;
        }
        let left = skip(after_first(octets), octets[0], index);
        Some(split_counted(left).0)
    }

    /// The octets after the references, which the standard reserves.
    pub fn rest(&self) -> &'a [u8]
        ensures { (v : AcValue) → StandsForAc self.now v → result.now ≡ v.rest }
    {
        let octets = self.after_reference();
        skip(after_first(octets), octets[0], usize::from(octets[0]))
    }

    /// A value of copies of the parts, or `NoMemory`.
    pub fn to_value(&self, alloc: Global) -> Result<Ac, NoMemory>
        ensures { IfOk result (StandsForAc self.now) }
    {
        let power = Power::of(self.payload[0]);
        let (reference, octets) = split_counted(after_first(self.payload));
        let Ok(reference) = Name::from_slice(alloc, reference) else {
            return Err(NoMemory);
        };
        let (auxiliary, rest) = read_auxiliary(alloc, octets)?;
        let rest = Bytes::from_slice(alloc, rest)?;
        match Ac::new(power, reference, auxiliary, rest) {
            Ok(ac) => Ok(ac),
            Err(_) => unreachable!(),
        }
    }
}
