//! Records of a message within a payload, added one by one.
ghost use Rattle.std.specs.Prelude.{◌≡◌, ◌↔◌, ◌<◌, ◌≤◌, ◌^◌, ◌++◌, ◌∷◌, ℕ, List, [], length, chars, IfErr, IfOk, IsAscii, IsErr, IsErrOf, IsTrue, OnErr, vec_capacity, vec_len};
ghost use Rattle.ndef_format.specs.Kinds.{kind_name};
ghost use Rattle.ndef_format.specs.declared.kind.Kind.TheVariants as kinds;
ghost use Rattle.ndef_types.specs.Decoding.{IsTooLong};
ghost use Rattle.ndef_types.specs.Values.{WritesUri, text_payload};
ghost use Rattle.ndef_types.specs.Building.{BuildsPoster, BuildsRequest, BuildsSelect, FailsToAdd, FailsToCarry, FailsToLead, FailsToSay, IsLongText, IsNoCount};
ghost use Rattle.ndef_types.specs.Building.{action_item, action_octet, carrier_item, collision_item, kind_item, size_item};
ghost use Rattle.ndef_types.specs.declared.build_error.BuildError.TheVariants as errors;

use crate::accepting::MOST;
use crate::text::text_fits;
use crate::{
    Ac, Action, BuildError, Encoding, Power, Request, Select, SmartPoster, Text, Uri, split,
};
use ndef_format::Kind;
use ndef_value::{Bytes, Message, MessageError, Name, Record, RecordError, Tnf};
use std::alloc::Global;

/// Builds a smart poster, a handover request or a handover select, record by record. Each call adds a record after the
/// others and returns the builder; where it returns an error, the builder is gone.
#[derive(Debug, Drop)]
pub struct Builder {
    alloc: Global,
    /// The records so far.
    pub records: Vec<Record>,
}

/// The octet of an action.
fn action_octet(action: Action) -> u8
    ensures { result ≡ action_octet action }
{
    match action {
        Action::Do => 0,
        Action::Save => 1,
        Action::Open => 2,
        Action::Other(octet) => octet,
    }
}

/// Whether the payload of a URI has at most 4294967295 bytes.
fn uri_fits(uri: &str) -> bool
    ensures { ¬ IsTrue result ↔ IsTooLong WritesUri uri.now }
{
    split(uri).1.len() < MOST
}

/// The message of the records; `RecordCount` if there are none, or more than 65535.
fn message_of(records: Vec<Record>) -> Result<Message, BuildError>
    ensures message { IfOk result (λ m. m ≡ records.items) }
    ensures count { IsErr result ↔ IsNoCount (length records.items) }
    ensures fault { IfErr result (λ error. error ≡ errors.RecordCount) }
{
    match Message::new(records) {
        Ok(message) => Ok(message),
        Err(MessageError::NoRecords(_)) => Err(BuildError::RecordCount),
        Err(MessageError::TooMany(_)) => Err(BuildError::RecordCount),
    }
}

impl Builder {
    /// A builder without a record. It allocates no memory.
    pub fn with(alloc: Global) -> Builder
        ensures { result.records.items ≡ [] }
    {
        Builder {
            alloc,
            records: Vec::new(alloc),
        }
    }

    /// Adds any record. `NoMemory` comes only if a record is added for which there is no memory yet.
    pub fn record(self, item: Record) -> Result<Builder, BuildError>
        ensures added { IfOk result (λ b. b.records.items ≡ self.records.items ++ item ∷ []) }
        ensures fault { IfErr result (λ error. error ≡ errors.NoMemory) }
        ensures full { OnErr result (vec_capacity self.records ≤ vec_len self.records) }
    {
        let mut records = self.records;
        records.push(item)?;
        Ok(Builder {
            alloc: self.alloc,
            records,
        })
    }

    /// Adds a record of the well-known type of a kind.
    fn of_kind(self, kind: Kind, payload: &[u8]) -> Result<Builder, BuildError>
        requires { 1 ≤ length (kind_name kind) }
        ensures added { IfOk result (λ b. b.records.items ≡ self.records.items ++ kind_item kind payload.now ∷ []) }
        ensures too_long { IsErrOf result BuildError.TooLong ↔ (2 ^ 32 ≤ length payload.now) }
        ensures fault { IfErr result (FailsToAdd (length payload.now)) }
    {
        match Record::new(self.alloc, Tnf::WellKnown, kind.name(), b"", payload) {
            Ok(item) => self.record(item),
            Err(RecordError::NoMemory) => Err(BuildError::NoMemory),
            Err(RecordError::TooLong) => Err(BuildError::TooLong),
            Err(RecordError::BadShape) => unreachable!(),
        }
    }

    /// Adds an alternative carrier without auxiliary references (Connection Handover 1.2, Alternative Carrier record):
    /// its power state, and the id of the record that describes it. `TooLong` above 255 bytes, else `NoMemory`.
    pub fn carrier(self, power: Power, reference: &[u8]) -> Result<Builder, BuildError>
        ensures added { IfOk result
            (λ b. b.records.items ≡ self.records.items ++ carrier_item power reference.now ∷ []) }
        ensures too_long { IsErrOf result BuildError.TooLong ↔ (255 < length reference.now) }
        ensures fault { IfErr result (FailsToCarry reference.now) }
    {
        let reference = Name::from_slice(self.alloc, reference)?;
        match Ac::new(
            power,
            reference,
            Vec::new(self.alloc),
            Bytes::new(self.alloc),
        ) {
            Ok(carrier) => {
                let payload = carrier.encode(self.alloc)?;
                self.of_kind(Kind::Alternative, payload.as_slice())
            }
            Err(_) => unreachable!(),
        }
    }

    /// Adds the collision resolution with which a request begins (Connection Handover 1.2, Collision Resolution
    /// record): a random number.
    #[tactic(auto, using(crate::proofs::BuilderFaults::memory_alone))]
    pub fn collision(self, number: u16) -> Result<Builder, BuildError>
        ensures added { IfOk result (λ b. b.records.items ≡ self.records.items ++ collision_item number ∷ []) }
        ensures fault { IfErr result (λ error. error ≡ errors.NoMemory) }
    {
        self.of_kind(Kind::Collision, &number.to_be_bytes())
    }

    /// Adds a URI (RTD URI 1.0), in its shortest form. `TooLong` comes before `NoMemory`.
    pub fn uri(self, uri: &str) -> Result<Builder, BuildError>
        ensures added { IfOk result (λ b. (payload : List ℕ) × WritesUri uri.now payload
            × (b.records.items ≡ self.records.items ++ kind_item kinds.Uri payload ∷ [])) }
        ensures too_long { IsErrOf result BuildError.TooLong ↔ IsTooLong WritesUri uri.now }
        ensures fault { IfErr result (FailsToLead uri.now) }
    {
        if !uri_fits(uri) {
            return Err(BuildError::TooLong);
        }
        let payload = Uri::new(self.alloc, uri)?.encode(self.alloc)?;
        self.of_kind(Kind::Uri, payload.as_slice())
    }

    /// Adds a title (RTD Text 1.0). `TooLong` for a language code of more than 63 bytes, `NotAscii` for one that isn't
    /// ASCII, `TooLong` for a payload that is too long, else `NoMemory`.
    pub fn title(
        self,
        encoding: Encoding,
        language: &str,
        text: &str,
    ) -> Result<Builder, BuildError>
        ensures added { IfOk result (λ b. b.records.items ≡ self.records.items ++ kind_item kinds.Text (text_payload
            (record { encoding = encoding; language = language.now; text = chars text.now })) ∷ []) }
        ensures too_long { IsErrOf result BuildError.TooLong ↔ IsLongText
            (record { encoding = encoding; language = language.now; text = chars text.now }) }
        ensures not_ascii { IsErrOf result BuildError.NotAscii
            ↔ ((length language.now ≤ 63) × ¬ IsAscii language.now) }
        ensures fault { IfErr result
            (FailsToSay (record { encoding = encoding; language = language.now; text = chars text.now })) }
    {
        if language.len() > 63 {
            return Err(BuildError::TooLong);
        }
        if !language.is_ascii() {
            return Err(BuildError::NotAscii);
        }
        if !text_fits(encoding, language, text) {
            return Err(BuildError::TooLong);
        }
        let payload = Text::new(self.alloc, encoding, language, text)?.encode(self.alloc)?;
        self.of_kind(Kind::Text, payload.as_slice())
    }

    /// Adds the recommended action of a smart poster (RTD Smart Poster 1.0, recommended action record).
    #[tactic(auto, using(crate::proofs::BuilderFaults::memory_alone))]
    pub fn action(self, action: Action) -> Result<Builder, BuildError>
        ensures added { IfOk result (λ b. b.records.items ≡ self.records.items ++ action_item action ∷ []) }
        ensures fault { IfErr result (λ error. error ≡ errors.NoMemory) }
    {
        self.of_kind(Kind::Action, &[action_octet(action)])
    }

    /// Adds the size in bytes of the object of a smart poster's URI (RTD Smart Poster 1.0, size record).
    #[tactic(auto, using(crate::proofs::BuilderFaults::memory_alone))]
    pub fn size(self, size: u32) -> Result<Builder, BuildError>
        ensures added { IfOk result (λ b. b.records.items ≡ self.records.items ++ size_item size ∷ []) }
        ensures fault { IfErr result (λ error. error ≡ errors.NoMemory) }
    {
        self.of_kind(Kind::Size, &size.to_be_bytes())
    }

    /// The select of version 1.2 with these records, or without a message where there are none. `RecordCount` comes
    /// before `Wrong`. It allocates no memory.
    pub fn select(self) -> Result<Select, BuildError>
        ensures { BuildsSelect self.records.items result }
    {
        if self.records.is_empty() {
            return match Select::new(2, None) {
                Ok(select) => Ok(select),
                Err(_) => unreachable!(),
            };
        }
        match Select::new(2, Some(message_of(self.records)?)) {
            Ok(select) => Ok(select),
            Err(fault) => Err(BuildError::Wrong(fault.index)),
        }
    }

    /// The request of version 1.2 with these records, of which the first is a collision resolution. `RecordCount` comes
    /// before `Wrong`. It allocates no memory.
    pub fn request(self) -> Result<Request, BuildError>
        ensures { BuildsRequest self.records.items result }
    {
        match Request::new(2, message_of(self.records)?) {
            Ok(request) => Ok(request),
            Err(fault) => Err(BuildError::Wrong(fault.index)),
        }
    }

    /// The smart poster of these records, which has exactly one URI. `RecordCount` comes before `Wrong`. It allocates
    /// no memory.
    pub fn poster(self) -> Result<SmartPoster, BuildError>
        ensures { BuildsPoster self.records.items result }
    {
        match SmartPoster::new(message_of(self.records)?) {
            Ok(poster) => Ok(poster),
            Err(fault) => Err(BuildError::Wrong(fault.index)),
        }
    }
}
