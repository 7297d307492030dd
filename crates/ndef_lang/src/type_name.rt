//! The octets of a type name, as far as they have come.
ghost use Rattle.std.specs.Prelude.{◌≡◌, ◌+◌, ◌≤◌, ◌++◌, [], length};
ghost use Rattle.ndef_lang.specs.Machine.TypeName.{name_of};

/// Keeps the type name of a record (NDEF 1.0, TYPE), of at most 255 octets.
#[derive(Clone, Copy, Debug)]
pub struct TypeName {
    octets: [u8; 255],
    count: u8,
}

impl TypeName {
    /// Returns the name before the first octet.
    pub fn new() -> Self
        ensures { name_of result ≡ [] }
    {
        TypeName {
            octets: [0; 255],
            count: 0,
        }
    }

    /// Forgets them.
    pub fn clear(&mut self)
        ensures { name_of self.new ≡ [] }
    {
        self.count = 0;
    }

    /// Takes the next octets of the name.
    pub fn push_all(&mut self, octets: &[u8])
        requires { length (name_of self.old) + length octets.now ≤ 255 }
        ensures { name_of self.new ≡ name_of self.old ++ octets.now }
    {
        for octet in octets {
            self.octets[usize::from(self.count)] = *octet;
            self.count += 1;
        }
    }

    /// The octets that have come.
    pub fn octets(&self) -> &[u8]
        ensures { result.now ≡ name_of self.now }
    {
        &self.octets[..usize::from(self.count)]
    }
}
