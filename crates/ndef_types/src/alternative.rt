//! Alternative carriers.
ghost use Rattle.std.specs.Prelude.{◌≡◌, ◌<◌, ◌≤◌, ◌^◌, ◌↔◌, ◌++◌, length, slice_get, option_map, IsTrue, IfOk, IsErrOf, OnOk};
ghost use Rattle.std.specs.List.{AllByRecursion, flat_map};
ghost use Rattle.ndef_format.specs.Handovers.{IsAlternative};
ghost use Rattle.ndef_format.specs.Reasons.{NoReason};
ghost use Rattle.ndef_types.specs.Decoding.{DecodesTo};
ghost use Rattle.ndef_types.specs.Equality.{ac_eq, ac_hash};
ghost use Rattle.ndef_types.specs.EqualityLaws.{ac_alike, ac_equiv, ac_per};
ghost use Rattle.ndef_types.specs.Values.{StandsForAc, IsAcValue, IsReference, ac_payload, counted};
ghost use Rattle.ndef_types.specs.Alternatives.{MakesAc};

use crate::accepting::MOST;
use crate::{AlternativeParts, DecodeError, EncodeError, Power};
use ndef_value::{Bytes, Name, NoMemory};
use std::alloc::Global;
use std::hash::{Hash, Hasher};
use std::marker::Model;
use thiserror::Error;

/// A carrier that a handover offers (Connection Handover 1.2, Alternative Carrier record): its power
/// state, a carrier reference, up to 255 auxiliary references, and octets after them.
#[derive(Debug, Drop)]
pub struct Ac {
    power: Power,
    reference: Name,
    auxiliary: Vec<Name>,
    rest: Bytes,
}

impl Model for Ac {
    ghost use Rattle.ndef_types.specs.Values.{AcValue, IsAcValue};

    ghost Value = { AcValue };

    ghost view = { λ a.
        record { power = a.power; reference = a.reference; auxiliary = a.auxiliary.items; rest = a.rest } };

    ghost invariant = { λ a. IsAcValue
        (record { power = a.power; reference = a.reference; auxiliary = a.auxiliary.items; rest = a.rest }) };
}

/// More than 255 auxiliary references, and all the parts that `Ac::new` was given.
#[derive(Debug, Drop, Error)]
#[error("more than 255 auxiliary references")]
pub struct TooMany {
    /// The power state.
    pub power: Power,
    /// The carrier reference.
    pub reference: Name,
    /// The auxiliary references.
    pub auxiliary: Vec<Name>,
    /// The octets after them.
    pub rest: Bytes,
}

/// Visits each name, so that it is known of the whole list that they have up to 255 octets.
fn are_references(names: &[Name])
    ensures { AllByRecursion IsReference names.now }
{
    for name in names {
        // For the proof alone.
        let _name = name.as_slice();
    }
}

/// The number of octets of the references, each after its length.
fn names_len(names: &[Name]) -> usize
    requires { length names.now < 256 }
    ensures value { result ≡ length (flat_map counted names.now) }
    ensures bound { result ≤ 65280 }
{
    let mut total = 0;
    for name in names {
        total += 1 + name.as_slice().len();
    }
    total
}

/// Appends a reference after its length.
fn push_counted(octets: &mut Bytes, name: &Name) -> Result<(), NoMemory>
    ensures { OnOk result (octets.new ≡ octets.old ++ counted name.now) }
{
    let name = name.as_slice();
    octets.extend(&[name.len() as u8])?;
    octets.extend(name)
}

/// Appends references, each after its length.
fn push_names(octets: &mut Bytes, names: &[Name]) -> Result<(), NoMemory>
    ensures { OnOk result (octets.new ≡ octets.old ++ flat_map counted names.now) }
{
    for name in names {
        push_counted(octets, name)?;
    }
    Ok(())
}

impl Ac {
    /// An alternative carrier of exactly these parts, or `TooMany` with the parts where there are more than
    /// 255 auxiliary references. It allocates no memory.
    pub fn new(
        power: Power,
        reference: Name,
        auxiliary: Vec<Name>,
        rest: Bytes,
    ) -> Result<Ac, TooMany>
        ensures { MakesAc
            (record { power = power; reference = reference; auxiliary = auxiliary.items; rest = rest }) result }
    {
        if auxiliary.len() > 255 {
            return Err(TooMany {
                power,
                reference,
                auxiliary,
                rest,
            });
        }
        // For the proof alone.
        let _reference = reference.as_slice();
        let _rest = rest.as_slice();
        are_references(&auxiliary);
        Ok(Ac {
            power,
            reference,
            auxiliary,
            rest,
        })
    }

    /// Returns the value of the payload of an alternative carrier record: its power state is that
    /// of the two low bits of the first byte, whose other bits are ignored. `Refused` if the payload
    /// isn't in the set of its type or is longer than a payload may be, else `NoMemory`.
    pub fn decode(alloc: Global, payload: &[u8]) -> Result<Ac, DecodeError>
        ensures { DecodesTo IsAlternative (λ s b. NoReason) StandsForAc payload.now result }
    {
        Ok(AlternativeParts::parse(payload)?.to_value(alloc)?)
    }

    /// Whether the payload has at most 4294967295 bytes.
    fn fits(&self) -> bool
        ensures { IsTrue result ↔ (length (ac_payload self.now) < 2 ^ 32) }
    {
        let front = 3 + self.reference.as_slice().len() + names_len(&self.auxiliary);
        let rest = self.rest.as_slice();
        rest.len() <= MOST - front
    }

    /// The payload.
    fn payload(&self, alloc: Global) -> Result<Bytes, NoMemory>
        ensures { IfOk result (λ payload. payload ≡ ac_payload self.now) }
    {
        let mut payload = Bytes::new(alloc);
        payload.extend(&[self.power.code()])?;
        push_counted(&mut payload, &self.reference)?;
        payload.extend(&[self.auxiliary.len() as u8])?;
        push_names(&mut payload, &self.auxiliary)?;
        payload.extend(self.rest.as_slice())?;
        Ok(payload)
    }

    /// The payload of an alternative carrier record, its reserved bits 0. `TooLong` comes before
    /// `NoMemory`.
    pub fn encode(&self, alloc: Global) -> Result<Bytes, EncodeError>
        ensures ok { IfOk result (λ payload. payload ≡ ac_payload self.now) }
        ensures too_long { IsErrOf result EncodeError.TooLong ↔ (2 ^ 32 ≤ length (ac_payload self.now)) }
    {
        if !self.fits() {
            return Err(EncodeError::TooLong);
        }
        Ok(self.payload(alloc)?)
    }

    /// The power state of the carrier.
    pub fn power(&self) -> Power
        ensures { result ≡ self.now.power }
    {
        self.power
    }

    /// The carrier reference, 0 to 255 bytes: the id of the record of the message that describes the
    /// carrier.
    pub fn reference(&self) -> &Name
        ensures { result.now ≡ self.now.reference }
    {
        &self.reference
    }

    /// The number of auxiliary references, 0 to 255.
    pub fn auxiliary_count(&self) -> usize
        ensures value { result ≡ length self.now.auxiliary }
        ensures ac { IsAcValue self.now }
    {
        self.auxiliary.len()
    }

    /// The auxiliary reference at a place, counted from 0: the id of a record with more about the
    /// carrier. None from `auxiliary_count` on.
    pub fn auxiliary(&self, index: usize) -> Option<&Name>
        ensures { option_map (λ n. n.now) result ≡ slice_get self.now.auxiliary index }
    {
        self.auxiliary.get(index)
    }

    /// The octets after the references, which the standard reserves.
    pub fn rest(&self) -> &[u8]
        ensures value { result.now ≡ self.now.rest }
        ensures ac { IsAcValue self.now }
    {
        self.rest.as_slice()
    }
}

/// Alternative carriers are equal in power state, references and the octets after them.
impl PartialEq for Ac {
    ghost eq = { ac_eq };

    ghost laws = { ac_per };

    fn eq(&self, other: &Ac) -> bool {
        let same_references = self.reference == other.reference
            && self.auxiliary == other.auxiliary;
        let same_power = self.power == other.power;
        same_power && same_references && self.rest == other.rest
    }
}

impl Eq for Ac {
    ghost laws = { ac_equiv };
}

impl Hash for Ac {
    ghost hash_input = { ac_hash };

    ghost respects_eq = { ac_alike.fed };

    fn hash<H: Hasher>(&self, state: &mut H) {
        let power = self.power;
        power.hash(state);
        self.reference.hash(state);
        self.auxiliary.hash(state);
        self.rest.hash(state);
    }
}
