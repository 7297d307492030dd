//! A type name or an id.
ghost use Rattle.std.proofs.Common.{rules};
ghost use Rattle.std.specs.Cmp.{partial_equiv_from_equiv};
ghost use Rattle.std.specs.Cmp.Lexicographic.{nat_list_eq_equiv, pointwise};
ghost use Rattle.std.specs.Cmp.Rules.{hashing};
ghost use Rattle.std.specs.Hash as fed;
ghost use Rattle.std.specs.Prelude.{◌≡◌, ◌==◌, ◌+◌, ◌<◌, ◌≤◌, ◌↔◌, [], ◌∷◌, ◌++◌, length, IsTrue, IsOk, IfOk, OnOk, OnErr, IsErrOf};
ghost use Rattle.ndef_value.specs.declared.name.NameError.TheVariants as errors;
ghost use Rattle.ndef_format.specs.Records.{AreOctets};

use crate::NoMemory;
use smallvec::SmallVec;
use std::alloc::{AllocError, Global};
use std::hash::{Hash, Hasher};
use std::marker::Model;
use thiserror::Error;

/// The bytes that a name holds without memory.
const INLINE: usize = 32;

/// The type or the id of a record (NDEF 1.0, TYPE and ID): 0 to 255 bytes, as many as a head can count,
/// up to 32 of them inline.
#[derive(Debug, Drop)]
pub struct Name {
    bytes: SmallVec<u8, INLINE>,
}

impl Model for Name {
    ghost use Rattle.std.specs.Prelude.{List, ℕ, ◌≤◌, length};
    ghost use Rattle.ndef_format.specs.Records.{AreOctets};

    ghost Value = { List ℕ };

    ghost view = { λ n. n.bytes.items };

    ghost invariant = { λ n. (length n.bytes.items ≤ 255) × (32 ≤ n.bytes.capacity) × AreOctets n.bytes.items };
}

/// The reason why there is no name of some bytes.
#[derive(Clone, Copy, Debug, Drop, PartialEq, Eq, Hash, Error)]
pub enum NameError {
    /// There are more than 255 of them.
    #[error("a name of more than 255 bytes")]
    TooLong,
    /// An allocation failed.
    #[error("no memory")]
    NoMemory,
}

impl From<AllocError> for NameError {
    ghost from_gives = { λ _ error. error ≡ errors.NoMemory };

    fn from(_: AllocError) -> NameError {
        NameError::NoMemory
    }
}

impl Name {
    /// The empty name. It allocates no memory.
    pub fn new(alloc: Global) -> Name
        ensures { result ≡ [] }
    {
        Name {
            bytes: SmallVec::new(alloc),
        }
    }

    /// A copy of the bytes. `TooLong` above 255 bytes, else `NoMemory`, which up to 32 bytes never
    /// comes, since they need no memory.
    pub fn from_slice(alloc: Global, bytes: &[u8]) -> Result<Name, NameError>
        ensures ok { IfOk result (λ name. name ≡ bytes.now) }
        ensures too_long { IsErrOf result NameError.TooLong ↔ (255 < length bytes.now) }
        ensures inline { length bytes.now ≤ 32 → IsOk result }
    {
        if bytes.len() > 255 {
            return Err(NameError::TooLong);
        }
        Ok(Name {
            bytes: SmallVec::from_slice(alloc, bytes)?,
        })
    }

    /// Appends a byte to fewer than 255, up to 32 bytes without memory. On `NoMemory` nothing has changed.
    #[inline]
    pub fn push(&mut self, byte: u8) -> Result<(), NoMemory>
        requires { length self.old < 255 }
        ensures ok { OnOk result (self.new ≡ self.old ++ byte ∷ []) }
        ensures err { OnErr result (self.new ≡ self.old) }
        ensures inline { length self.old < 32 → IsOk result }
    {
        Ok(self.bytes.push(byte)?)
    }

    /// Appends the bytes, to at most 255 in all, up to 32 without memory. On `NoMemory` nothing has changed.
    #[inline]
    pub fn extend(&mut self, bytes: &[u8]) -> Result<(), NoMemory>
        requires { length self.old + length bytes.now ≤ 255 }
        ensures ok { OnOk result (self.new ≡ self.old ++ bytes.now) }
        ensures err { OnErr result (self.new ≡ self.old) }
        ensures inline { length self.old + length bytes.now ≤ 32 → IsOk result }
    {
        match bytes {
            [] => Ok(()),
            [byte] => self.push(*byte),
            _ => self.extend_more(bytes),
        }
    }

    /// The same of any bytes. It isn't inlined, so that none or one are fast.
    #[inline(never)]
    fn extend_more(&mut self, bytes: &[u8]) -> Result<(), NoMemory>
        requires { length self.old + length bytes.now ≤ 255 }
        ensures ok { OnOk result (self.new ≡ self.old ++ bytes.now) }
        ensures err { OnErr result (self.new ≡ self.old) }
        ensures inline { length self.old + length bytes.now ≤ 32 → IsOk result }
    {
        Ok(self.bytes.extend_from_slice(bytes)?)
    }

    /// The bytes, 0 to 255 of them.
    pub fn as_slice(&self) -> &[u8]
        ensures value { result.now ≡ self.now }
        ensures bound { length self.now ≤ 255 }
        ensures octets { AreOctets self.now }
    {
        self.bytes.as_slice()
    }
}

impl PartialEq for Name {
    ghost eq = { pointwise ◌==◌ };

    ghost laws = { partial_equiv_from_equiv nat_list_eq_equiv };

    fn eq(&self, other: &Name) -> bool
        ensures eq { result ≡ pointwise ◌==◌ self.now other.now }
        ensures value { IsTrue result ↔ (self.now ≡ other.now) }
    {
        self.bytes == other.bytes
    }
}

impl Eq for Name {
    ghost laws = { nat_list_eq_equiv };
}

impl Hash for Name {
    ghost hash_input = { fed.slice fed.u8 };

    ghost respects_eq = { Prim.search (hashing, rules) };

    fn hash<H: Hasher>(&self, state: &mut H) {
        self.bytes.hash(state);
    }
}
