//! The sentences about payloads are true, and one hint applies.
ghost use Rattle.std.specs.Prelude.{false, true};
ghost use Rattle.ndef_diagnostics.specs.Hints.{OneHint};
ghost use Rattle.ndef_diagnostics.specs.Truths.{CollisionsAreMissing, CollisionsDoNotFit, LeastNestsHold, LeastRecordsHold, LengthsHold};
ghost use Rattle.ndef_diagnostics.specs.Truths.{LengthMismatchesAreTrue, MessageIsMissing, MissingIsTrue, NextIsMissing};
ghost use Rattle.ndef_diagnostics.specs.Truths.{RecordsDoNotFit, SelectsAreOneOrFour, UrisAreMissing, UrisComeAgain, UrisDoNotFit};
ghost use Rattle.ndef_diagnostics.specs.declared.expected.Expected.TheVariants.{NextChunk, NextRecord};

/// The lengths in sentences are those of the definitions: each payload of a kind has a length of its layout, and a
/// payload that holds a message at least that of the least one (RTD Text 1.0, RTD URI 1.0, RTD Smart Poster 1.0 and
/// Connection Handover 1.2).
pub fn lengths_are_true()
    ensures payloads { LengthsHold }
    ensures nests { LeastNestsHold }
    ensures selects { SelectsAreOneOrFour }
{}

/// If a sentence states that a payload, or a field in it, has a wrong length, it is right: no payload of the kind that
/// has the given length begins with the octets up to the refused one.
pub fn length_mismatches_are_true()
    ensures { LengthMismatchesAreTrue }
{}

/// If a sentence states that a record doesn't fit the payload that holds its message, or the URI of a smart poster, or
/// how many octets of a record are missing, it is right: no records that fill the payload begin with the octets up to
/// the refused one, and each record that begins with those before the end of the input has at least that number of
/// octets more, or exactly that where they are missing of its payload (NDEF 1.0, record layout, RTD Smart Poster 1.0
/// and Connection Handover 1.2).
pub fn sizes_are_true()
    ensures least { LeastRecordsHold }
    ensures records { RecordsDoNotFit }
    ensures uris { UrisDoNotFit }
    ensures collisions { CollisionsDoNotFit }
    ensures missing { MissingIsTrue }
{}

/// If a sentence states that the input has no bytes, or that another record or another chunk is missing, it is right:
/// ME is set in none of the whole pieces of the input, CF is set in the last exactly if a chunk is missing, and each
/// longer message that begins with the input has another piece (NDEF 1.0, messages and chunked payloads).
pub fn ends_are_true()
    ensures message { MessageIsMissing }
    ensures next { NextIsMissing NextRecord false }
    ensures chunk { NextIsMissing NextChunk true }
{}

/// If a sentence states that no record of a smart poster is a URI, or that one is a second URI, or that a request
/// begins with another record than a collision record, it is right: so it is of all records that fill the payload and
/// begin with the octets up to the refused one (RTD Smart Poster 1.0 and Connection Handover 1.2).
pub fn records_are_true()
    ensures missing { UrisAreMissing }
    ensures again { UrisComeAgain }
    ensures collision { CollisionsAreMissing }
{}

/// At most one hint applies to bytes that are refused: so each call that gives a hint for them gives the same.
pub fn hints_are_one()
    ensures { OneHint }
{}
