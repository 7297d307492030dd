//! A byte string.
ghost use Rattle.std.proofs.Common.{rules};
ghost use Rattle.std.specs.Cmp.{partial_equiv_from_equiv};
ghost use Rattle.std.specs.Cmp.Lexicographic.{nat_list_eq_equiv, pointwise};
ghost use Rattle.std.specs.Cmp.Rules.{hashing};
ghost use Rattle.std.specs.Hash as fed;
ghost use Rattle.std.specs.Prelude.{◌≡◌, ◌==◌, ◌↔◌, [], ◌++◌, IsTrue, IsOk, IfOk, OnOk, OnErr};
ghost use Rattle.ndef_format.specs.Records.{AreOctets};

use crate::NoMemory;
use std::alloc::Global;
use std::hash::{Hash, Hasher};
use std::marker::Model;

/// A byte string of any length, as a payload (NDEF 1.0, PAYLOAD) or the bytes of an encoded message.
#[derive(Debug, Drop)]
pub struct Bytes {
    bytes: Vec<u8>,
}

impl Model for Bytes {
    ghost use Rattle.std.specs.Prelude.{List, ℕ};
    ghost use Rattle.ndef_format.specs.Records.{AreOctets};

    ghost Value = { List ℕ };

    ghost view = { λ b. b.bytes.items };

    ghost invariant = { λ b. AreOctets b.bytes.items };
}

impl Bytes {
    /// The empty string. It allocates no memory.
    pub fn new(alloc: Global) -> Bytes
        ensures { result ≡ [] }
    {
        Bytes {
            bytes: Vec::new(alloc),
        }
    }

    /// A copy of the bytes; `NoMemory` where the allocation fails, which never happens for no bytes, since they need no
    /// memory.
    pub fn from_slice(alloc: Global, bytes: &[u8]) -> Result<Bytes, NoMemory>
        ensures ok { IfOk result (λ b. b ≡ bytes.now) }
        ensures empty { bytes.now ≡ [] → IsOk result }
    {
        let mut copy = Vec::with_capacity(alloc, bytes.len())?;
        copy.extend_from_slice(bytes)?;
        Ok(Bytes { bytes: copy })
    }

    /// Appends the bytes, none without memory. On `NoMemory` nothing has changed.
    pub fn extend(&mut self, bytes: &[u8]) -> Result<(), NoMemory>
        ensures ok { OnOk result (self.new ≡ self.old ++ bytes.now) }
        ensures err { OnErr result (self.new ≡ self.old) }
        ensures empty { bytes.now ≡ [] → IsOk result }
    {
        Ok(self.bytes.extend_from_slice(bytes)?)
    }

    /// The bytes.
    pub fn as_slice(&self) -> &[u8]
        ensures value { result.now ≡ self.now }
        ensures octets { AreOctets self.now }
    {
        self.bytes.as_slice()
    }
}

/// The bytes of a vector, without a copy.
impl From<Vec<u8>> for Bytes {
    ghost from_gives = { λ bytes string. string ≡ bytes.items };

    fn from(bytes: Vec<u8>) -> Bytes {
        Bytes { bytes }
    }
}

impl PartialEq for Bytes {
    ghost eq = { pointwise ◌==◌ };

    ghost laws = { partial_equiv_from_equiv nat_list_eq_equiv };

    fn eq(&self, other: &Bytes) -> bool
        ensures eq { result ≡ pointwise ◌==◌ self.now other.now }
        ensures value { IsTrue result ↔ (self.now ≡ other.now) }
    {
        self.bytes == other.bytes
    }
}

impl Eq for Bytes {
    ghost laws = { nat_list_eq_equiv };
}

impl Hash for Bytes {
    ghost hash_input = { fed.slice fed.u8 };

    ghost respects_eq = { Prim.search (hashing, rules) };

    fn hash<H: Hasher>(&self, state: &mut H) {
        self.bytes.hash(state);
    }
}
