//! Handover errors.
ghost use Rattle.std.specs.Prelude.{◌≡◌, ◌≤◌, ◌^◌, ◌↔◌, [], length, slice_index, IsTrue, IfOk, IsOk, IsErrOf};
ghost use Rattle.ndef_format.specs.Handovers.{IsError, IsErrorData};
ghost use Rattle.ndef_format.specs.Reasons.{NoReason};
ghost use Rattle.ndef_types.specs.declared.handover_error.DetailError.TheVariants as errors;
ghost use Rattle.ndef_types.specs.Decoding.{DecodesTo, ParsesTo};
ghost use Rattle.ndef_types.specs.Values.{ErrorValue, StandsForError, IsErrorValue, error_payload};

use crate::accepting::{MOST, accept};
use crate::fields::after_first;
use crate::{DecodeError, EncodeError};
use ndef_lang::{Kind, Leaf};
use ndef_value::{Bytes, NoMemory, Profile, Refusal};
use std::alloc::Global;
use std::marker::Model;
use thiserror::Error;

/// The reason why a handover fails (Connection Handover 1.2, Error record): a reason and its data, which is one
/// byte for the reasons 1 and 3, four bytes for 2, and any bytes for all others.
#[derive(Debug, Drop, PartialEq, Eq, Hash)]
pub struct HandoverError {
    reason: u8,
    detail: Bytes,
}

impl Model for HandoverError {
    ghost use Rattle.ndef_types.specs.Values.{ErrorValue, IsErrorValue};

    ghost Value = { ErrorValue };

    ghost view = { λ e. record { reason = e.reason; detail = e.detail } };

    ghost invariant = { λ e. IsErrorValue (record { reason = e.reason; detail = e.detail }) };

    ghost inverse = { λ v. record { reason = v.reason; detail = v.detail } };
}

/// The payload of an error record, whose data are a slice of it (Connection Handover 1.2, Error record).
/// Contracts see its octets.
#[derive(Debug, Drop)]
pub struct ErrorParts<'a> {
    payload: &'a [u8],
}

impl<'a> Model for ErrorParts<'a> {
    ghost use Rattle.std.specs.Prelude.{List, ℕ};
    ghost use Rattle.ndef_format.specs.Handovers.{IsError};

    ghost Value = { List ℕ };

    ghost view = { λ e. e.payload.now };

    ghost invariant = { λ e. IsError e.payload.now };
}

impl<'a> ErrorParts<'a> {
    /// The parts of a payload that is known to be that of a handover error.
    pub fn new(payload: &'a [u8]) -> ErrorParts<'a>
        requires { IsError payload.now }
        ensures { result ≡ payload.now }
    {
        ErrorParts { payload }
    }

    /// The parts of a payload, which is refused where it isn't in the set of its type or is longer than a
    /// payload may be.
    pub fn parse(payload: &'a [u8]) -> Result<ErrorParts<'a>, Refusal>
        ensures { ParsesTo IsError (λ s b. NoReason) payload.now result }
    {
        match accept::<Leaf>(Kind::Error, Profile::Strict, payload) {
            Ok(()) => Ok(ErrorParts { payload }),
            Err(refusal) => Err(refusal),
        }
    }

    /// The reason, any octet; 1 to 3 are those that the standard defines.
    pub fn reason(&self) -> u8
        ensures { (v : ErrorValue) → StandsForError self.now v → result ≡ v.reason }
    {
        self.payload[0]
    }

    /// The data, of the length that the reason demands.
    pub fn detail(&self) -> &'a [u8]
        ensures value { (v : ErrorValue) → StandsForError self.now v → result.now ≡ v.detail }
        ensures data { IsErrorData (slice_index self.now 0) result.now }
    {
        after_first(self.payload)
    }

    /// An error of a copy of the data, or `NoMemory`.
    pub fn to_value(&self, alloc: Global) -> Result<HandoverError, NoMemory>
        ensures { IfOk result (StandsForError self.now) }
    {
        let [reason, detail @ ..] = self.payload else {
            unreachable!()
        };
        let detail = Bytes::from_slice(alloc, detail)?;
        Ok(HandoverError {
            reason: *reason,
            detail,
        })
    }
}

/// The reason why a reason and some data make no handover error, in the order in which the reasons are tried.
#[derive(Clone, Copy, Debug, Drop, PartialEq, Eq, Hash, Error)]
pub enum DetailError {
    /// The data doesn't have the length that the reason demands.
    #[error("the data does not go with the reason")]
    BadShape,
    /// An allocation failed.
    #[error("no memory")]
    NoMemory,
}

impl From<NoMemory> for DetailError {
    ghost from_gives = { λ _ error. error ≡ errors.NoMemory };

    fn from(_: NoMemory) -> DetailError {
        DetailError::NoMemory
    }
}

/// Whether the data have the length that the reason demands: one octet for 1 and 3, four for 2, and any number for
/// all others.
pub fn goes_with(reason: u8, detail: &[u8]) -> bool
    ensures { IsTrue result ↔ IsErrorData reason detail.now }
{
    match reason {
        1 | 3 => detail.len() == 1,
        2 => detail.len() == 4,
        _ => true,
    }
}

impl HandoverError {
    /// An error of the reason with a copy of the data. `BadShape` comes before `NoMemory`, which never comes for empty
    /// data.
    pub fn new(alloc: Global, reason: u8, detail: &[u8]) -> Result<HandoverError, DetailError>
        ensures ok { IfOk result (λ e. e ≡ record { reason = reason; detail = detail.now }) }
        ensures bad_shape { IsErrOf result DetailError.BadShape ↔ ¬ IsErrorData reason detail.now }
        ensures empty { detail.now ≡ [] → IsErrorData reason detail.now → IsOk result }
    {
        if !goes_with(reason, detail) {
            return Err(DetailError::BadShape);
        }
        let detail = Bytes::from_slice(alloc, detail)?;
        Ok(HandoverError { reason, detail })
    }

    /// Returns the error of the payload of an error record. `Refused` if the payload isn't in
    /// the set of its type or is longer than a payload may be, else `NoMemory`.
    pub fn decode(alloc: Global, payload: &[u8]) -> Result<HandoverError, DecodeError>
        ensures { DecodesTo IsError (λ s b. NoReason) StandsForError payload.now result }
    {
        Ok(ErrorParts::parse(payload)?.to_value(alloc)?)
    }

    /// The payload of an error record. `TooLong` comes before `NoMemory`.
    pub fn encode(&self, alloc: Global) -> Result<Bytes, EncodeError>
        ensures ok { IfOk result (λ payload. payload ≡ error_payload self.now) }
        ensures too_long { IsErrOf result EncodeError.TooLong ↔ (2 ^ 32 ≤ length (error_payload self.now)) }
    {
        let detail = self.detail.as_slice();
        if detail.len() >= MOST {
            return Err(EncodeError::TooLong);
        }
        let mut payload = Bytes::new(alloc);
        payload.extend(&[self.reason])?;
        payload.extend(detail)?;
        Ok(payload)
    }

    /// The reason, any byte; 1 to 3 are those that the standard defines.
    pub fn reason(&self) -> u8
        ensures value { result ≡ self.now.reason }
        ensures error { IsErrorValue self.now }
    {
        self.reason
    }

    /// The data, of the length that the reason demands.
    pub fn detail(&self) -> &[u8]
        ensures value { result.now ≡ self.now.detail }
        ensures error { IsErrorValue self.now }
    {
        self.detail.as_slice()
    }
}
