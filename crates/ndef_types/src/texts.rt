//! The titles of a smart poster.
ghost use Rattle.std.specs.Iterator.Adapters.{IterYieldsInOrder, IterYieldsInReverse};
ghost use Rattle.std.specs.Prelude.{◌≡◌, ◌<◌, ◌^◌, ◌↔◌, ◌++◌, ◌∷◌, [], length, slice_get, option_map, IsTrue, OnOk};
ghost use Rattle.std.specs.Slice.Iter.{iter_rest};
ghost use Rattle.ndef_types.specs.Values.{TextValue};

use crate::Text;
use ndef_value::NoMemory;
use std::alloc::Global;
use std::marker::Model;
use std::slice;

/// The titles of a smart poster (RTD Smart Poster 1.0, title records), in order.
#[derive(Debug, Drop)]
pub struct Texts {
    texts: Vec<Text>,
}

impl Model for Texts {
    ghost use Rattle.std.specs.Prelude.{List};
    ghost use Rattle.ndef_types.specs.Values.{TextValue};

    ghost Value = { List TextValue };

    ghost view = { λ t. t.texts.items };
}

impl Texts {
    /// None. It allocates no memory.
    pub(crate) fn new(alloc: Global) -> Texts
        ensures { result ≡ [] }
    {
        Texts {
            texts: Vec::new(alloc),
        }
    }

    /// One more.
    pub(crate) fn push(&mut self, text: Text) -> Result<(), NoMemory>
        ensures { OnOk result (self.new ≡ self.old ++ text ∷ []) }
    {
        Ok(self.texts.push(text)?)
    }

    /// The number of texts.
    pub fn len(&self) -> usize
        ensures { result ≡ length self.now }
    {
        self.texts.len()
    }

    /// Whether there is none.
    pub fn is_empty(&self) -> bool
        ensures { IsTrue result ↔ (self.now ≡ []) }
    {
        self.texts.is_empty()
    }

    /// The text at a place, counted from 0; none from `len` on.
    pub fn get(&self, index: usize) -> Option<&Text>
        ensures { option_map (λ t. t.now) result ≡ slice_get self.now index }
    {
        self.texts.get(index)
    }

    /// The texts one after another. Each call starts from the first.
    pub fn iter(&self) -> slice::Iter<'_, Text>
        ensures rest { iter_rest result ≡ self.now }
        ensures bound { length (iter_rest result) < 2 ^ 64 }
        // It gives them in order, or from the back.
        ensures runs { IterYieldsInOrder TextValue }
        ensures runs_back { IterYieldsInReverse TextValue }
    {
        self.texts.iter()
    }
}

impl<'a> IntoIterator for &'a Texts {
    type Item = &'a Text;

    type IntoIter = slice::Iter<'a, Text>;

    ghost into_iter_gives = { λ texts it.
        (iter_rest it ≡ texts.now) × (length (iter_rest it) < 2 ^ 64) × IterYieldsInOrder TextValue };

    fn into_iter(self) -> slice::Iter<'a, Text> {
        self.iter()
    }
}
