//! Smart posters.
ghost use Rattle.std.specs.Prelude.{◌≡◌, ◌≢◌, ◌≤◌, ◌^◌, ◌↔◌, ◌⊎◌, [], length, map, option_map, IfOk, IfSome, IsErrOf, MatchOption, OnErr};
ghost use Rattle.ndef_format.specs.Canonical.{canonical};
ghost use Rattle.ndef_format.specs.declared.profile.Profile.TheVariants.{Strict};
ghost use Rattle.ndef_value.specs.declared.limits.TheConstants.{MOST_RECORDS};
ghost use Rattle.ndef_format.specs.Nested.{IsPayload, HasContents, IsNest};
ghost use Rattle.ndef_format.specs.declared.kind.Kind.TheVariants as kinds;
ghost use Rattle.ndef_format.specs.NestedReasons.{NestReason};
ghost use Rattle.ndef_format.specs.declared.table.Table.TheVariants as tables;
ghost use Rattle.ndef_types.specs.Contents.{IsFirstOf, IsFirstWrong, IsOfKind, Lack};
ghost use Rattle.ndef_types.specs.Decoding.{DecodesTo};
ghost use Rattle.ndef_types.specs.Posters.{IsUriOf, LacksUri, MakesPoster, Says, StandForTexts, StandsForPoster, WritesPoster, action_in, plain, size_in, titles};

use crate::accepting::{MOST, accept};
use crate::contents::{first_of, first_wrong, is_kind};
use crate::nested::read_nested;
use crate::{Action, DecodeError, EncodeError, TextParts, Texts, Uri, UriParts};
use ndef_lang::Kind;
use ndef_message::{Form, encode, encoded_length, short_is_canonical};
use ndef_nest::{Nest, Table};
use ndef_value::{Bytes, Message, MessageError, NoMemory, Profile, Record, RecordError};
use std::alloc::Global;
use std::marker::Model;
use thiserror::Error;

/// A smart poster (RTD Smart Poster 1.0): a message with exactly one URI, in which titles, actions,
/// sizes and media types have payloads of their own, as a strict reader takes them.
#[derive(Debug, Drop, PartialEq, Eq, Hash)]
pub struct SmartPoster {
    message: Message,
}

impl Model for SmartPoster {
    ghost use Rattle.std.specs.Prelude.{List};
    ghost use Rattle.ndef_format.specs.Messages.{Item};
    ghost use Rattle.ndef_format.specs.declared.profile.Profile.TheVariants.{Strict};
    ghost use Rattle.ndef_format.specs.Nested.{HasContents};
    ghost use Rattle.ndef_format.specs.declared.table.Table.TheVariants as tables;

    ghost Value = { List Item };

    ghost view = { λ p. p.message };

    ghost invariant = { λ p. HasContents tables.SmartPoster Strict p.message };

    ghost inverse = { λ items. record { message = items } };
}

/// The message isn't one of a smart poster, and is handed back.
#[derive(Debug, Drop, Error)]
#[error("no smart poster: record {index}")]
pub struct NotPoster {
    /// The message.
    pub message: Message,
    /// The first record with a payload that isn't one of its kind, or that is a second URI; or the
    /// number of records where only the URI is missing.
    pub index: usize,
}

/// The index of the first record that is wrong, or the number of records where only the URI is
/// missing.
fn fault_of(records: &[Record]) -> Option<usize>
    ensures { MatchOption result (HasContents tables.SmartPoster Strict records.now)
        (λ index. IsFirstWrong tables.SmartPoster records.now index ⊎ LacksUri records.now index) }
{
    if let Some(index) = first_wrong(Table::SmartPoster, records) {
        return Some(index);
    }
    match first_of(Table::SmartPoster, records, Kind::Uri) {
        Some(_) => None,
        None => Some(records.len()),
    }
}

/// A copy of a record, with code 0 in the place of a reserved one.
fn plain_record(alloc: Global, item: &Record) -> Result<Record, NoMemory>
    ensures { IfOk result (λ copy. copy ≡ plain item.now) }
{
    let mut payload = Bytes::new(alloc);
    let kind = Table::SmartPoster.kind(item.tnf(), item.kind());
    match (kind, item.payload()) {
        (Kind::Uri, [0x24..=0xff, rest @ ..]) => {
            payload.extend(&[0])?;
            payload.extend(rest)?;
        }
        (_, whole) => payload.extend(whole)?,
    }
    match Record::new(
        alloc,
        item.tnf(),
        item.kind(),
        item.id(),
        payload.as_slice(),
    ) {
        Ok(copy) => Ok(copy),
        Err(RecordError::NoMemory) => Err(NoMemory),
        Err(RecordError::BadShape) => unreachable!(),
        Err(RecordError::TooLong) => unreachable!(),
    }
}

/// A copy of the message, with code 0 in the place of reserved ones.
fn plain_message(alloc: Global, message: &Message) -> Result<Message, NoMemory>
    ensures { IfOk result (λ copy. copy ≡ map plain message.now) }
{
    let mut records = Vec::new(alloc);
    for item in message.records() {
        records.push(plain_record(alloc, item)?)?;
    }
    match Message::new(records) {
        Ok(copy) => Ok(copy),
        Err(MessageError::NoRecords(_)) => unreachable!(),
        Err(MessageError::TooMany(_)) => unreachable!(),
    }
}

/// The message with code 0 in the place of reserved ones, which a strict reader has refused.
fn plain_for(alloc: Global, message: Message, profile: Profile) -> Result<Message, NoMemory>
    requires { HasContents tables.SmartPoster profile message }
    ensures { IfOk result (λ copy. copy ≡ map plain message) }
{
    match profile {
        Profile::Strict => Ok(message),
        Profile::Standard => plain_message(alloc, &message),
    }
}

/// Returns the poster of a payload of a smart poster record, or `NoMemory`. The payload is not checked again.
pub fn read_poster(alloc: Global, payload: &[u8], profile: Profile) -> Result<SmartPoster, NoMemory>
    requires { IsNest tables.SmartPoster MOST_RECORDS profile payload.now }
    ensures { IfOk result (StandsForPoster profile payload.now) }
{
    let message = read_nested(alloc, payload, profile)?;
    let message = plain_for(alloc, message, profile)?;
    Ok(SmartPoster { message })
}

impl SmartPoster {
    /// The first record of a kind.
    fn first(&self, kind: Kind) -> Option<&Record>
        ensures first { IsFirstOf (IsOfKind tables.SmartPoster kind) self.now (option_map (λ r. r.now) result) }
        ensures payload { IfSome result (λ r. IsPayload kind Strict r.now.payload) }
        ensures contents { HasContents tables.SmartPoster Strict self.now }
    {
        first_of(Table::SmartPoster, self.message.records(), kind)
    }

    /// A poster of the message, as a strict reader takes it, or the message back. It allocates no
    /// memory.
    pub fn new(message: Message) -> Result<SmartPoster, NotPoster>
        ensures { MakesPoster message result }
    {
        match fault_of(message.records()) {
            None => Ok(SmartPoster { message }),
            Some(index) => Err(NotPoster { message, index }),
        }
    }

    /// Returns the poster of the payload of a Smart Poster record, as a strict reader takes it:
    /// a message of at most 65535 records, each in one piece. Any other payload is `Refused` at the first
    /// byte after which no payload of its length is one. Else `NoMemory`.
    pub fn decode(alloc: Global, payload: &[u8]) -> Result<SmartPoster, DecodeError>
        ensures { DecodesTo (IsNest tables.SmartPoster MOST_RECORDS Strict)
            (NestReason tables.SmartPoster MOST_RECORDS Strict) (StandsForPoster Strict) payload.now result }
    {
        SmartPoster::decode_as(alloc, payload, Profile::Strict)
    }

    /// Returns the poster of the payload of a Smart Poster record, as a reader of the profile
    /// takes it. A reserved code of its URI is 0 in the poster. Refusals as for `decode`.
    pub fn decode_as(
        alloc: Global,
        payload: &[u8],
        profile: Profile,
    ) -> Result<SmartPoster, DecodeError>
        ensures { DecodesTo (IsNest tables.SmartPoster MOST_RECORDS profile)
            (NestReason tables.SmartPoster MOST_RECORDS profile) (StandsForPoster profile) payload.now result }
    {
        accept::<Nest>(Kind::SmartPoster, profile, payload)?;
        Ok(read_poster(alloc, payload, profile)?)
    }

    /// The payload of a Smart Poster record: the canonical spelling of the message. `TooLong` where it
    /// has more than 4294967295 bytes comes before `NoMemory`.
    pub fn encode(&self, alloc: Global) -> Result<Bytes, EncodeError>
        ensures ok { IfOk result (WritesPoster self.now) }
        ensures too_long { IsErrOf result EncodeError.TooLong ↔ (2 ^ 32 ≤ length (canonical self.now)) }
    {
        // For the proof alone.
        short_is_canonical();
        if encoded_length(&self.message, Form::Short) > MOST as u64 {
            return Err(EncodeError::TooLong);
        }
        Ok(encode(alloc, &self.message, Form::Short)?)
    }

    /// The message.
    pub fn message(&self) -> &Message
        ensures value { result.now ≡ self.now }
        ensures contents { HasContents tables.SmartPoster Strict self.now }
    {
        &self.message
    }

    /// Returns the action of the first recommended action record; None without one.
    pub fn action(&self) -> Option<Action>
        ensures { Says kinds.Action action_in self.now result }
    {
        let item = self.first(Kind::Action)?;
        Some(Action::of(item.payload()[0]))
    }

    /// The size in bytes of the object of the poster, 0 to 4294967295, as the first size record gives it; none without
    /// one.
    pub fn size(&self) -> Option<u32>
        ensures { Says kinds.Size size_in self.now result }
    {
        match self.first(Kind::Size)?.payload() {
            [a, b, c, d] => Some(u32::from_be_bytes([*a, *b, *c, *d])),
            _ => unreachable!(),
        }
    }

    /// The URI, or `NoMemory`.
    pub fn uri(&self, alloc: Global) -> Result<Uri, NoMemory>
        ensures { IfOk result (IsUriOf self.now) }
    {
        match self.first(Kind::Uri) {
            Some(item) => UriParts::new(item.payload()).to_value(alloc),
            None => unreachable!(),
        }
    }

    /// The media type of the object to which the poster refers, as the first type record gives it; none without
    /// one, and then no memory is allocated. Else `NoMemory`.
    pub fn media(&self, alloc: Global) -> Result<Option<Bytes>, NoMemory>
        ensures value { IfOk result (Says kinds.MediaType (λ i. i.payload) self.now) }
        ensures memory { OnErr result (¬ Lack (IsOfKind tables.SmartPoster kinds.MediaType) self.now) }
    {
        match self.first(Kind::MediaType) {
            Some(item) => Ok(Some(Bytes::from_slice(alloc, item.payload())?)),
            None => Ok(None),
        }
    }

    /// The titles, which are its texts, in order. Without one no memory is allocated; else
    /// `NoMemory`.
    pub fn titles(&self, alloc: Global) -> Result<Texts, NoMemory>
        ensures value { IfOk result (StandForTexts (titles self.now)) }
        ensures memory { OnErr result (titles self.now ≢ []) }
    {
        let mut texts = Texts::new(alloc);
        for item in self.message.records() {
            if is_kind(Table::SmartPoster.kind(item.tnf(), item.kind()), Kind::Text) {
                let title = TextParts::new(item.payload());
                texts.push(title.to_value(alloc)?)?;
            }
        }
        Ok(texts)
    }
}
