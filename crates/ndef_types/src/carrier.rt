//! Handover carriers.
ghost use Rattle.std.specs.Prelude.{◌≡◌, ◌<◌, ◌≤◌, ◌^◌, ◌↔◌, length, IfOk, IsErrOf};
ghost use Rattle.ndef_format.specs.Handovers.{IsCarrier};
ghost use Rattle.ndef_format.specs.Reasons.{NoReason};
ghost use Rattle.ndef_types.specs.Decoding.{DecodesTo, ParsesTo};
ghost use Rattle.ndef_types.specs.Values.{CarrierValue, StandsForCarrier, IsCarrierValue, carrier_payload};

use crate::accepting::{MOST, accept};
use crate::fields::{after_first, split_counted};
use crate::{DecodeError, EncodeError};
use ndef_lang::{Kind, Leaf};
use ndef_value::{Bytes, Name, NoMemory, Profile, Refusal};
use std::alloc::Global;
use std::marker::Model;

/// A carrier that a handover may use (Connection Handover 1.2, Handover Carrier record): a carrier type
/// format of 0 to 7, a carrier type of 0 to 255 bytes and carrier data.
#[derive(Debug, Drop, PartialEq, Eq, Hash)]
pub struct Carrier {
    format: u8,
    kind: Name,
    carried: Bytes,
}

impl Model for Carrier {
    ghost use Rattle.ndef_types.specs.Values.{CarrierValue, IsCarrierValue};

    ghost Value = { CarrierValue };

    ghost view = { λ c. record { format = c.format; kind = c.kind; carried = c.carried } };

    ghost invariant = { λ c. IsCarrierValue (record { format = c.format; kind = c.kind; carried = c.carried }) };

    ghost inverse = { λ v. record { format = v.format; kind = v.kind; carried = v.carried } };
}

/// The payload of a handover carrier record, whose parts are slices of it (Connection Handover 1.2, Handover
/// Carrier record). Contracts see its octets.
#[derive(Debug, Drop)]
pub struct CarrierParts<'a> {
    payload: &'a [u8],
}

impl<'a> Model for CarrierParts<'a> {
    ghost use Rattle.std.specs.Prelude.{List, ℕ};
    ghost use Rattle.ndef_format.specs.Handovers.{IsCarrier};

    ghost Value = { List ℕ };

    ghost view = { λ c. c.payload.now };

    ghost invariant = { λ c. IsCarrier c.payload.now };
}

impl<'a> CarrierParts<'a> {
    /// The parts of a payload that is known to be that of a handover carrier.
    pub fn new(payload: &'a [u8]) -> CarrierParts<'a>
        requires { IsCarrier payload.now }
        ensures { result ≡ payload.now }
    {
        CarrierParts { payload }
    }

    /// The parts of a payload, which is refused where it isn't in the set of its type or is longer than a
    /// payload may be.
    pub fn parse(payload: &'a [u8]) -> Result<CarrierParts<'a>, Refusal>
        ensures { ParsesTo IsCarrier (λ s b. NoReason) payload.now result }
    {
        match accept::<Leaf>(Kind::Carrier, Profile::Strict, payload) {
            Ok(()) => Ok(CarrierParts { payload }),
            Err(refusal) => Err(refusal),
        }
    }

    /// The carrier type format, 0 to 7: bits 2 to 0 of the first octet, whose other bits are ignored.
    pub fn format(&self) -> u8
        ensures value { (v : CarrierValue) → StandsForCarrier self.now v → result ≡ v.format }
        ensures bound { result < 8 }
    {
        self.payload[0] % 8
    }

    /// The carrier type, 0 to 255 octets.
    pub fn kind(&self) -> &'a [u8]
        ensures { (v : CarrierValue) → StandsForCarrier self.now v → result.now ≡ v.kind }
    {
        split_counted(after_first(self.payload)).0
    }

    /// The carrier data, such as what configures the carrier.
    pub fn carried(&self) -> &'a [u8]
        ensures { (v : CarrierValue) → StandsForCarrier self.now v → result.now ≡ v.carried }
    {
        split_counted(after_first(self.payload)).1
    }

    /// A carrier of copies of the parts, or `NoMemory`.
    pub fn to_value(&self, alloc: Global) -> Result<Carrier, NoMemory>
        ensures { IfOk result (StandsForCarrier self.now) }
    {
        let [format, length, rest @ ..] = self.payload else {
            unreachable!()
        };
        let (kind, carried) = rest.split_at(usize::from(*length));
        let Ok(kind) = Name::from_slice(alloc, kind) else {
            return Err(NoMemory);
        };
        let carried = Bytes::from_slice(alloc, carried)?;
        Ok(Carrier::new(format % 8, kind, carried))
    }
}

impl Carrier {
    /// A carrier of exactly these parts, its format at most 7. It allocates no memory.
    pub fn new(format: u8, kind: Name, carried: Bytes) -> Carrier
        requires { format < 8 }
        ensures { result ≡ record { format = format; kind = kind; carried = carried } }
    {
        // For the proof alone.
        let _kind = kind.as_slice();
        let _carried = carried.as_slice();
        Carrier {
            format,
            kind,
            carried,
        }
    }

    /// Returns the carrier of the payload of a handover carrier record: its format is that of the
    /// three low bits of the first byte, whose other bits are ignored. `Refused` if the payload isn't
    /// in the set of its type or is longer than a payload may be, else `NoMemory`.
    pub fn decode(alloc: Global, payload: &[u8]) -> Result<Carrier, DecodeError>
        ensures { DecodesTo IsCarrier (λ s b. NoReason) StandsForCarrier payload.now result }
    {
        Ok(CarrierParts::parse(payload)?.to_value(alloc)?)
    }

    /// The payload of a handover carrier record, its reserved bits 0. `TooLong` comes before `NoMemory`.
    pub fn encode(&self, alloc: Global) -> Result<Bytes, EncodeError>
        ensures ok { IfOk result (λ payload. payload ≡ carrier_payload self.now) }
        ensures too_long { IsErrOf result EncodeError.TooLong ↔ (2 ^ 32 ≤ length (carrier_payload self.now)) }
    {
        if self.carried.as_slice().len() > MOST - 2 - self.kind.as_slice().len() {
            return Err(EncodeError::TooLong);
        }
        Ok(self.payload(alloc)?)
    }

    /// The payload.
    fn payload(&self, alloc: Global) -> Result<Bytes, NoMemory>
        ensures { IfOk result (λ payload. payload ≡ carrier_payload self.now) }
    {
        let kind = self.kind.as_slice();
        let mut payload = Bytes::new(alloc);
        payload.extend(&[self.format, kind.len() as u8])?;
        payload.extend(kind)?;
        payload.extend(self.carried.as_slice())?;
        Ok(payload)
    }

    /// The carrier type format, 0 to 7: what the type name format is to the type of a record.
    pub fn format(&self) -> u8
        ensures value { result ≡ self.now.format }
        ensures carrier { IsCarrierValue self.now }
    {
        self.format
    }

    /// The carrier type, 0 to 255 bytes.
    pub fn kind(&self) -> &Name
        ensures value { result.now ≡ self.now.kind }
        ensures carrier { IsCarrierValue self.now }
    {
        &self.kind
    }

    /// The carrier data, such as what configures the carrier.
    pub fn carried(&self) -> &[u8]
        ensures value { result.now ≡ self.now.carried }
        ensures carrier { IsCarrierValue self.now }
    {
        self.carried.as_slice()
    }
}
