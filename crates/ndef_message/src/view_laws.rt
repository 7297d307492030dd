//! Properties of views, for every caller.
ghost use Rattle.ndef_message.specs.Views.{NeverRefusedInView, OneView};

use crate::places_are_exact;
use ndef_lang::RecordLanguage;
use ndef_value::one_meaning;

/// There is a view exactly where the bytes begin with a message: such bytes are not refused, and what
/// is seen is the only message at their front, in the only runs that spell it.
pub fn views_are_exact<L: RecordLanguage>()
    ensures refused { NeverRefusedInView L.payloads L.reasons }
    ensures one { OneView L.payloads L.reasons }
{
    one_meaning();
    places_are_exact::<L>();
}
