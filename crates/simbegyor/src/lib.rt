//! NDEF messages (NFC Forum, NDEF 1.0), decoded, encoded and checked: what a program needs, from one crate.
//!
//! - A message: [`Message`] and its [`Record`]s, with a [`Tnf`], a type, an id and a payload, and [`Limits`].
//! - Read it: [`view`] in a slice, [`read_message`] from a [`Source`], a [`Decoder`] fed with bytes as they come.
//! - Check it: [`check_bytes`], [`check_message`], a [`Checker`] fed with bytes as they come.
//! - Write it: [`encode`], [`encode_chunked`], [`write_message`] to a [`Sink`], an [`Encoder`] that fills one buffer
//!   after another; a [`RecordEncoder`] for a record whose payload comes in parts.
//! - Payloads: [`Text`], [`Uri`], [`SmartPoster`], [`Request`], [`Select`] and their parts, and the
//!   [`carriers`] of a message. A [`Builder`] makes posters and handovers record by record. [`Typed`] demands that
//!   payloads are checked, [`Opaque`] that they are not; [`With`] adds a record type of your own, whose payloads
//!   are a [`Language`], and a [`RecordLanguage`] of your own over [`Leaf`] says which are checked.
//! - A [`Refusal`] has the place of the first byte after which no continuation is a message, and its [`Reason`].
//!
//! The crates that these come from have the laws, and what only other crates of this repository need.
#![tactic(auto)]

pub use ndef_lang::{Fixed, Kind, Language, Leaf, Opaque, OwnType, RecordLanguage, With, is_type};
pub use ndef_message::{
    CheckError, Checked, Checker, Decoder, Encoder, Event, Fed, Form, InputError, Item, Items,
    OtherLength, Pieces, Progress, Read, ReadError, RecordEncoder, RecordPlan, Sink, SinkFault,
    SliceSource, Source, SourceFault, StdSink, StdSource, View, WriteFault, check as check_bytes,
    check_message, encode, encode_chunked, encoded_length, read_all, read_message, view,
    write_message,
};
pub use ndef_nest::Typed;
pub use ndef_types::{
    Ac, Action, AlternativeParts, BuildError, Builder, Carrier, CarrierParts, DecodeError,
    DetailError, EncodeError, Encoding, ErrorParts, HandoverError, Link, LinkError, Links,
    NotHandover, NotPoster, Power, Request, Select, SmartPoster, Text, TextError, TextParts, Texts,
    TooMany, Uri, UriParts, carriers, carriers_as, carriers_view, prefix as uri_prefix,
    split as split_uri_prefix, unmark,
};
pub use ndef_value::{
    Bytes, Limits, MOST_PAYLOAD, MOST_PIECES, MOST_RECORDS, Message, MessageError, Name, NameError,
    NoMemory, OutOfRange, Profile, Reason, Record, RecordError, Refusal, Tnf, TnfError,
};
