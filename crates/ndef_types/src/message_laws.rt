//! Laws of the values that hold messages: what was written for a value is decoded to it.
ghost use Rattle.ndef_format.specs.declared.table.Table.TheVariants.{SmartPoster, Request, Select};
ghost use Rattle.ndef_types.specs.Decoding.{NestsAreExact};
ghost use Rattle.ndef_types.specs.Handovers.{IsRequestValue, IsSelectValue, StandsForRequest, StandsForSelect, WritesRequest, WritesSelect};
ghost use Rattle.ndef_types.specs.Links.{OneListOfLinks};
ghost use Rattle.ndef_types.specs.Posters.{IsPosterValue, StandsForPoster, WritesPoster};

use ndef_nest::strict_contents_are_read;
use ndef_value::{canonical_is_a_spelling, one_meaning};

/// A payload of a Smart Poster record has one poster as its value, and what `SmartPoster::encode` writes is
/// decoded, for either profile, to the poster that was written.
pub fn posters_are_exact()
    ensures { NestsAreExact SmartPoster StandsForPoster IsPosterValue WritesPoster }
{
    one_meaning();
    canonical_is_a_spelling();
    strict_contents_are_read();
}

/// A payload of a Handover Request record has one request as its value, and what `Request::encode` writes is
/// decoded, for either profile, to the request that was written.
pub fn requests_are_exact()
    ensures { NestsAreExact Request StandsForRequest IsRequestValue WritesRequest }
{
    one_meaning();
    canonical_is_a_spelling();
    strict_contents_are_read();
}

/// A payload of a Handover Select record has one select as its value, and what `Select::encode` writes is
/// decoded, for either profile, to the select that was written.
pub fn selects_are_exact()
    ensures { NestsAreExact Select StandsForSelect IsSelectValue WritesSelect }
{
    one_meaning();
    canonical_is_a_spelling();
    strict_contents_are_read();
}

/// A message has one list of links: `carriers`, `carriers_as` and `carriers_view` give the same.
pub fn links_are_unique()
    ensures { OneListOfLinks }
{
    one_meaning();
}
