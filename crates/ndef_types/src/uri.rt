//! URIs.
ghost use Rattle.std.proofs.Common.{rules};
ghost use Rattle.std.specs.Cmp.{partial_equiv_from_equiv};
ghost use Rattle.std.specs.Cmp.Lexicographic.{nat_list_eq_equiv, pointwise};
ghost use Rattle.std.specs.Cmp.Rules.{hashing};
ghost use Rattle.std.specs.Hash as fed;
ghost use Rattle.std.specs.Prelude.{◌≡◌, ◌==◌, ◌<◌, ◌≤◌, ◌^◌, ◌++◌, ◌↔◌, ℕ, List, [], length, drop, slice_index, IsTrue, IsUtf8, IfOk, IsOk, IsErrOf};
ghost use Rattle.ndef_format.specs.Uris.{IsUri};
ghost use Rattle.ndef_format.specs.PayloadReasons.{UriReason};
ghost use Rattle.ndef_format.specs.declared.profile.Profile.{Profile as Reader};
ghost use Rattle.ndef_format.specs.declared.profile.Profile.TheVariants.{Strict};
ghost use Rattle.ndef_types.specs.Decoding.{DecodesTo, IsTooLong, ParsesTo};
ghost use Rattle.ndef_types.specs.Prefixes.{prefix_of};
ghost use Rattle.ndef_types.specs.Values.{StandsForUri, WritesUri};

use crate::accepting::{MOST, accept};
use crate::prefixes::{prefix, split};
use crate::text::copied;
use crate::{DecodeError, EncodeError};
use ndef_lang::{Kind, Leaf};
use ndef_value::{Bytes, NoMemory, Profile, Refusal};
use std::alloc::Global;
use std::hash::{Hash, Hasher};
use std::marker::Model;

/// A URI (RTD URI 1.0; RFC 3986 defines URIs), as one whole text in UTF-8, its prefix written out.
#[derive(Debug, Drop)]
pub struct Uri {
    text: String,
}

impl Model for Uri {
    ghost use Rattle.std.specs.Prelude.{List, ℕ, string_bytes};

    ghost Value = { List ℕ };

    ghost view = { λ u. string_bytes u.text };
}

/// The payload of a URI record, whose rest is a slice of it (RTD URI 1.0). Contracts see its octets.
#[derive(Debug, Drop)]
pub struct UriParts<'a> {
    payload: &'a [u8],
}

impl<'a> Model for UriParts<'a> {
    ghost use Rattle.std.specs.Prelude.{List, ℕ};
    ghost use Rattle.ndef_format.specs.Uris.{IsUri};
    ghost use Rattle.ndef_format.specs.declared.profile.Profile.TheVariants.{Standard};

    ghost Value = { List ℕ };

    ghost view = { λ u. u.payload.now };

    ghost invariant = { λ u. IsUri Standard u.payload.now };
}

impl<'a> UriParts<'a> {
    /// The parts of a payload that is known to be that of a URI, for either profile.
    pub fn new(payload: &'a [u8]) -> UriParts<'a>
        requires { (profile : Reader) × IsUri profile payload.now }
        ensures { result ≡ payload.now }
    {
        UriParts { payload }
    }

    /// The parts of a payload as a reader of the profile takes it. It is refused where it isn't in the set of
    /// its type or is longer than a payload may be.
    pub fn parse(payload: &'a [u8], profile: Profile) -> Result<UriParts<'a>, Refusal>
        ensures { ParsesTo (IsUri profile) (UriReason profile) payload.now result }
    {
        match accept::<Leaf>(Kind::Uri, profile, payload) {
            Ok(()) => Ok(UriParts { payload }),
            Err(refusal) => Err(refusal),
        }
    }

    /// The code of the prefix, which `prefix` gives.
    pub fn code(&self) -> u8
        ensures { result ≡ slice_index self.now 0 }
    {
        self.payload[0]
    }

    /// The rest of the URI, after the prefix.
    pub fn rest(&self) -> &'a str
        ensures value { result.now ≡ drop 1 self.now }
        ensures stands { StandsForUri self.now (prefix_of (slice_index self.now 0) ++ result.now) }
    {
        // What is after the code of a URI is UTF-8.
        unsafe { str::from_utf8_unchecked(&self.payload[1..]) }
    }

    /// A URI of a copy of its prefix and its rest, or `NoMemory`.
    pub fn to_value(&self, alloc: Global) -> Result<Uri, NoMemory>
        ensures { IfOk result (StandsForUri self.now) }
    {
        let mut text = copied(alloc, prefix(self.code()))?;
        text.push_str(self.rest())?;
        Ok(Uri { text })
    }
}

impl Uri {
    /// A URI of a copy of the text, or `NoMemory`, which never comes for an empty text. What the text means isn't
    /// looked at.
    pub fn new(alloc: Global, text: &str) -> Result<Uri, NoMemory>
        ensures ok { IfOk result (λ uri. uri ≡ text.now) }
        ensures empty { text.now ≡ [] → IsOk result }
    {
        Ok(Uri {
            text: copied(alloc, text)?,
        })
    }

    /// Returns the URI of the payload of a URI record, as a strict reader takes it: the prefix of
    /// the code and the rest. `Refused` if the payload isn't in the set of its type or is longer than
    /// a payload may be, else `NoMemory`.
    pub fn decode(alloc: Global, payload: &[u8]) -> Result<Uri, DecodeError>
        ensures { DecodesTo (IsUri Strict) (UriReason Strict) StandsForUri payload.now result }
    {
        Uri::decode_as(alloc, payload, Profile::Strict)
    }

    /// Returns the URI of the payload of a URI record, as a reader of the profile takes it: under
    /// `Standard` a reserved code is read as 0, which denotes no prefix. Refusals as for `decode`.
    pub fn decode_as(alloc: Global, payload: &[u8], profile: Profile) -> Result<Uri, DecodeError>
        ensures { DecodesTo (IsUri profile) (UriReason profile) StandsForUri payload.now result }
    {
        Ok(UriParts::parse(payload, profile)?.to_value(alloc)?)
    }

    /// The payload of a URI record: the code of the longest prefix that begins the URI, and the rest.
    /// `TooLong` comes before `NoMemory`.
    pub fn encode(&self, alloc: Global) -> Result<Bytes, EncodeError>
        ensures ok { IfOk result (WritesUri self.now) }
        ensures too_long { IsErrOf result EncodeError.TooLong ↔ IsTooLong WritesUri self.now }
    {
        let (code, rest) = split(&self.text);
        if rest.len() >= MOST {
            return Err(EncodeError::TooLong);
        }
        let mut payload = Bytes::new(alloc);
        payload.extend(&[code])?;
        payload.extend(rest)?;
        Ok(payload)
    }

    /// The whole URI.
    pub fn text(&self) -> &str
        ensures value { result.now ≡ self.now }
        ensures text { IsUtf8 self.now }
    {
        self.text.as_str()
    }
}

impl PartialEq for Uri {
    ghost eq = { pointwise ◌==◌ };

    ghost laws = { partial_equiv_from_equiv nat_list_eq_equiv };

    fn eq(&self, other: &Uri) -> bool
        ensures eq { result ≡ pointwise ◌==◌ self.now other.now }
        ensures value { IsTrue result ↔ (self.now ≡ other.now) }
    {
        self.text == other.text
    }
}

impl Eq for Uri {
    ghost laws = { nat_list_eq_equiv };
}

impl Hash for Uri {
    ghost hash_input = { fed.str };

    ghost respects_eq = { Prim.search (hashing, rules) };

    fn hash<H: Hasher>(&self, state: &mut H) {
        self.text.hash(state);
    }
}
