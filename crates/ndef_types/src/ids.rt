//! The records of a message, found by their ids.
ghost use Rattle.std.specs.Prelude.{◌≡◌, ◌+◌, List, length, map, slice_get, Some, IfOk, OnOk};
ghost use Rattle.ndef_format.specs.Messages.{Item as Each, run_record};
ghost use Rattle.ndef_types.specs.Ids.{FindsFirsts, FindsSome};
ghost use Rattle.ndef_types.specs.Links.{IsIndexOf};

use ndef_message::View;
use ndef_value::{Message, NoMemory};
use std::alloc::Global;
use std::collections::BTreeMap;

/// The index from 0 of the first record of a message with each id (NDEF 1.0, ID). The empty id is none.
pub(crate) type Ids<'a> = BTreeMap<&'a [u8], usize>;

/// Adds the record with an index, after all before it.
fn add<'a>(ids: &mut Ids<'a>, id: &'a [u8], index: usize) -> Result<(), NoMemory>
    ensures { OnOk result ((items : List Each) (i : Each) → slice_get items index ≡ Some i → i.id ≡ id.now
        → FindsSome items index ids.old → FindsSome items (index + 1) ids.new) }
{
    if !id.is_empty() && !ids.contains_key(&id) {
        ids.insert(id, index)?;
    }
    Ok(())
}

/// The index of the first record with the id; no record has the empty id.
pub(crate) fn index_of<'a>(ids: &Ids<'a>, id: &'a [u8]) -> Option<usize>
    ensures { (items : List Each) → FindsFirsts items ids.now → IsIndexOf items id.now result }
{
    ids.get(&id).copied()
}

/// The records to which the carriers of a handover refer.
pub(crate) trait Outer {
    /// The records.
    ghost items: { Self → List Each };

    /// The records by their ids.
    fn ids(&self, alloc: Global) -> Result<Ids<'_>, NoMemory>
        ensures { IfOk result (FindsFirsts (items self.now)) };
}

impl Outer for Message {
    ghost items = { λ message. message };

    fn ids(&self, alloc: Global) -> Result<Ids<'_>, NoMemory> {
        let mut ids = BTreeMap::new(alloc);
        for (index, item) in self.records().iter().enumerate() {
            add(&mut ids, item.id(), index)?;
        }
        Ok(ids)
    }
}

impl<'a> Outer for View<'a> {
    ghost items = { λ view. map run_record view.runs };

    fn ids(&self, alloc: Global) -> Result<Ids<'_>, NoMemory> {
        let mut ids = BTreeMap::new(alloc);
        let mut index = 0;
        for item in self.items() {
            add(&mut ids, item.id(), index)?;
            index += 1;
        }
        Ok(ids)
    }
}
