//! Laws of the definitions: what was written for a value is decoded to it, which values are equal, and the headline.
ghost use Rattle.std.specs.Prelude.{IsUtf8};
ghost use Rattle.ndef_format.specs.declared.profile.Profile.{Profile};
ghost use Rattle.ndef_format.specs.Handovers.{IsAlternative, IsCarrier, IsError};
ghost use Rattle.ndef_format.specs.Reasons.{NoReason};
ghost use Rattle.ndef_format.specs.Texts.{IsText};
ghost use Rattle.ndef_format.specs.PayloadReasons.{TextReason, UriReason};
ghost use Rattle.ndef_format.specs.Uris.{IsUri};
ghost use Rattle.ndef_types.specs.Decoding.{AreExact, EachHasValue, OnePayload, OneValue, ValuesRoundTrip, WritesPayloads};
ghost use Rattle.ndef_types.specs.Headline.{Headline};
ghost use Rattle.ndef_types.specs.Equality.{EqualAlternativesAreSame, EqualTextsAreSame};
ghost use Rattle.ndef_types.specs.Values.{StandsForText, IsTextValue, WritesText, StandsForUri, WritesUri, StandsForError, IsErrorValue, WritesError, StandsForCarrier, IsCarrierValue, WritesCarrier, StandsForAc, IsAcValue, WritesAc};

use ndef_message::{reading_gives_back, readings_are_exact};
use ndef_nest::Typed;

/// A payload of a Text record has one text as its value, and what `Text::encode` writes is such a payload
/// and is decoded to the text that was written.
pub fn texts_are_exact()
    ensures exact { AreExact IsText TextReason StandsForText IsTextValue WritesText }
    ensures written { WritesPayloads IsText IsTextValue WritesText }
{}

/// A payload of a URI record has one URI as its value, and what `Uri::encode` writes is such a payload and is
/// decoded, for either profile, to the URI that was written.
pub fn uris_are_exact()
    ensures one { (profile : Profile) → OneValue (IsUri profile) StandsForUri }
    ensures each { (profile : Profile) → EachHasValue (IsUri profile) StandsForUri IsUtf8 }
    ensures payload { OnePayload IsUtf8 WritesUri }
    ensures written { (profile : Profile) → WritesPayloads (IsUri profile) IsUtf8 WritesUri }
    ensures round_trip { (profile : Profile) →
        ValuesRoundTrip (IsUri profile) (UriReason profile) StandsForUri IsUtf8 WritesUri }
{}

/// A payload of a handover error record has one error as its value, and what `HandoverError::encode` writes
/// is such a payload and is decoded to the error that was written.
pub fn errors_are_exact()
    ensures exact { AreExact IsError (λ s b. NoReason) StandsForError IsErrorValue WritesError }
    ensures written { WritesPayloads IsError IsErrorValue WritesError }
{}

/// A payload of a handover carrier record has one carrier as its value, and what `Carrier::encode` writes is
/// such a payload and is decoded to the carrier that was written.
pub fn carriers_are_exact()
    ensures exact { AreExact IsCarrier (λ s b. NoReason) StandsForCarrier IsCarrierValue WritesCarrier }
    ensures written { WritesPayloads IsCarrier IsCarrierValue WritesCarrier }
{}

/// A payload of an alternative carrier record has one value, and what `Ac::encode` writes is such
/// a payload and is decoded to the value that was written.
pub fn alternatives_are_exact()
    ensures exact { AreExact IsAlternative (λ s b. NoReason) StandsForAc IsAcValue WritesAc }
    ensures written { WritesPayloads IsAlternative IsAcValue WritesAc }
{}

/// Texts and alternative carriers are equal, by `==`, exactly where all their parts are the same.
pub fn equality_is_exact()
    ensures texts { EqualTextsAreSame }
    ensures alternatives { EqualAlternativesAreSame }
{}

/// The headline, for the payloads that the standards define, as one statement: an answer that `read_message` may give
/// by its contract for `Typed` is the message with which the input begins, or else a refusal where no continuation is
/// one.
pub fn typed_messages_are_read()
    ensures { Headline }
{
    readings_are_exact::<Typed>();
    reading_gives_back::<Typed>();
}
