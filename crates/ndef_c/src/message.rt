//! The records of a message, one after another.
ghost use Rattle.std.specs.Prelude.{◌↔◌, List, IsTrue};
ghost use Rattle.ndef_format.specs.Records.{Run};
ghost use Rattle.ndef_c.specs.Links.{BeginsWithRuns, FindsRecord, HasRuns};

use crate::record::id_in;
use crate::walk::Walk;

/// A record of a message.
#[derive(Clone, Copy)]
pub(crate) struct Place {
    /// Its index from 0.
    pub(crate) index: usize,
    /// The offset at which it begins.
    pub(crate) at: usize,
}

/// Whether the bytes begin with the records of a message, up to the one that ends it.
pub(crate) fn has_message(bytes: &[u8]) -> bool
    ensures { IsTrue result ↔ HasRuns bytes.now }
{
    for found in Walk::from(bytes, 0) {
        if found.last == 1 {
            return true;
        }
    }
    false
}

/// The first record of a message with the id; no record has the empty id.
pub(crate) fn record_with(bytes: &[u8], id: &[u8]) -> Option<Place>
    requires { HasRuns bytes.now }
    ensures { (runs : List Run) → BeginsWithRuns runs bytes.now → FindsRecord bytes.now runs id.now result }
{
    if id.is_empty() {
        return None;
    }
    let mut index = 0;
    for found in Walk::from(bytes, 0) {
        if id_in(bytes, &found) == id {
            return Some(Place {
                index,
                at: found.at,
            });
        }
        index += 1;
    }
    None
}
