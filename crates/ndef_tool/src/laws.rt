//! Properties of the output.
ghost use Rattle.ndef_tool.specs.Output.{OneOutput};

use ndef_types::{
    carriers_are_exact, posters_are_exact, requests_are_exact, selects_are_exact, texts_are_exact,
};
use ndef_value::one_meaning;

/// The output for messages whose payloads are those of their types, and for an ending, is one
/// text.
pub fn output_is_exact()
    ensures { OneOutput }
{
    one_meaning();
    texts_are_exact();
    posters_are_exact();
    requests_are_exact();
    selects_are_exact();
    carriers_are_exact();
}
