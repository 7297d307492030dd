//! A record of an input, by its number.
ghost use Rattle.std.specs.Prelude.{◌≡◌, ◌+◌, ◌-◌, IfErr, IfOk, Some, length, slice_get};
ghost use Rattle.ndef_cli_explain.specs.Numbered.{IsRecordAt};

use crate::explaining::next_message;
use crate::fields::cut;
use ndef_message::{Item, Items};
use ndef_value::Limits;

/// The record at this place among these, or the place that it has among the records after them.
fn item_at(items: Items<'_>, place: u64) -> Result<Item<'_>, u64>
    ensures found { IfOk result (λ item. slice_get items.entry place ≡ Some item) }
    ensures later { IfErr result (λ left. length items.entry + left ≡ place) }
{
    let mut left = place;
    for item in items {
        if left == 0 {
            return Ok(item);
        }
        left -= 1;
    }
    Err(left)
}

/// The record of this number, from 1 over all messages of an input, if they have as many records (NDEF 1.0, messages).
pub(crate) fn record_of(input: &[u8], limits: Limits, number: u32) -> Option<Item<'_>>
    ensures { IsRecordAt limits (number - 1) input.now result }
{
    let mut rest = input;
    let mut left = u64::from(number.saturating_sub(1));
    while !rest.is_empty() {
        let Ok(reported) = next_message(rest, limits) else {
            return None;
        };
        let taken = reported.taken;
        match item_at(reported.items, left) {
            Ok(item) => return Some(item),
            Err(later) => left = later,
        }
        rest = cut(rest, taken as usize).1;
    }
    None
}
