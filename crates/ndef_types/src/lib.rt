//! Typed payloads: texts, URIs, smart posters and handovers (NFC Forum, RTD Text 1.0, RTD URI 1.0, RTD
//! Smart Poster 1.0 and Connection Handover 1.2).
//!
//! The files:
//!
//! - `text.rt`, `uri.rt`, `smart_poster.rt`, `request.rt`, `select.rt`, `alternative.rt`, `carrier.rt`,
//!   `handover_error.rt`: a value each. Those of one record, such as a text, have a type of their parts
//!   beside them, `TextParts`: slices of the payload, without memory. `alternative_parts.rt`: those of
//!   an alternative carrier.
//! - `encoding.rt`, `action.rt`, `power.rt`: the codes of texts, posters and carriers. `texts.rt`: the titles of a
//!   poster. `prefixes.rt`: the prefixes of URIs. `utf16.rt`: texts in UTF-16. `fields.rt`: the fields of a payload.
//! - `error.rt`, `not_handover.rt`: why there is no value. `laws.rt`, `message_laws.rt`: what is written is decoded.
//! - `specs/Values.antt`, `specs/Posters.antt`, `specs/Handovers.antt`: the value of each
//!   payload.
//! - `specs/Decoding.antt`: the answers, and the laws. `accepting.rt`: the check that each decoder
//!   begins with.
//! - `specs/Prefixes.antt`: the prefixes of URIs.
//! - `contents.rt`, `specs/Contents.antt`: the wrong record of a nested message. `nested.rt`:
//!   messages in payloads.
//! - `link.rt`, `specs/Links.antt`: the carriers of a message. `ids.rt`, `specs/Ids.antt`: its records,
//!   found by their ids. `specs/Equality.antt`: the equality of
//!   values.
//! - `builder.rt`, `build_error.rt`, `specs/Building.antt`: smart posters and handovers, made record by
//!   record.
#![tactic(auto)]

mod accepting;
mod action;
mod alternative;
mod alternative_parts;
mod build_error;
mod builder;
mod carrier;
mod contents;
mod encoding;
mod error;
mod fields;
mod handover_error;
mod ids;
mod laws;
mod link;
mod message_laws;
mod nested;
mod not_handover;
mod power;
mod prefixes;
mod request;
mod select;
mod smart_poster;
mod text;
mod texts;
mod uri;
mod utf16;

pub use accepting::accept;
pub use action::Action;
pub use alternative::{Ac, TooMany};
pub use alternative_parts::AlternativeParts;
pub use build_error::BuildError;
pub use builder::Builder;
pub use carrier::{Carrier, CarrierParts};
pub use contents::is_kind;
pub use encoding::Encoding;
pub use error::{DecodeError, EncodeError};
pub use handover_error::{DetailError, ErrorParts, HandoverError, goes_with};
pub use laws::{
    alternatives_are_exact, carriers_are_exact, equality_is_exact, errors_are_exact,
    texts_are_exact, typed_messages_are_read, uris_are_exact,
};
pub use link::{Link, LinkError, Links, carriers, carriers_as, carriers_view};
pub use message_laws::{
    links_are_unique, posters_are_exact, requests_are_exact, selects_are_exact,
};
pub use not_handover::NotHandover;
pub use power::Power;
pub use prefixes::{prefix, split};
pub use request::{Request, read_request};
pub use select::{Select, read_select};
pub use smart_poster::{NotPoster, SmartPoster, read_poster};
pub use text::{Text, TextError, TextParts};
pub use texts::Texts;
pub use uri::{Uri, UriParts};
pub use utf16::{units_len, unmark};
