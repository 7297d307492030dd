//! The output, part by part: lines, and JSON (RFC 8259).
ghost use Rattle.std.specs.Prelude.{◌≡◌, ◌++◌, [], false, OnOk};
ghost use Rattle.hex.specs.Hex.{encode_lower};
ghost use Rattle.ndef_cli.specs.Quoting.{quoted_bytes};
ghost use Rattle.serde_json.specs.Data.{string};
ghost use Rattle.serde_json.specs.Written.{comma_if};
ghost use Rattle.ndef_cli_explain.specs.Outputs.{number_value, with_begin, with_end, with_line, with_name, with_pair, with_value};

use crate::json_strings::push_string;
use ndef_cli::{push_number, push_quoted_bytes};
use ndef_value::{Bytes, NoMemory};
use std::alloc::Global;

/// The output so far; in JSON, whether a comma comes before the next value or name. Parts of it are made by its
/// allocator.
#[derive(Drop)]
pub(crate) struct Output {
    pub(crate) alloc: Global,
    pub(crate) text: Bytes,
    pub(crate) later: bool,
}

impl Output {
    /// Returns an empty output.
    pub(crate) fn new(alloc: Global) -> Output
        ensures { result.text ≡ [] }
    {
        Output {
            alloc,
            text: Bytes::new(alloc),
            later: false,
        }
    }

    /// Appends a comma, where one is due.
    fn comma(&mut self) -> Result<(), NoMemory>
        ensures { OnOk result (self.new ≡ record self.old { text = self.old.text ++ comma_if self.old.later }) }
    {
        if self.later {
            self.text.extend(b",")
        } else {
            Ok(())
        }
    }

    /// Begins an object or an array.
    #[tactic(auto, unfolding(crate::specs::Outputs::with_begin))]
    pub(crate) fn begin(&mut self, bracket: &[u8]) -> Result<(), NoMemory>
        ensures { OnOk result (self.new ≡ with_begin self.old bracket.now) }
    {
        self.comma()?;
        self.later = false;
        self.text.extend(bracket)
    }

    /// Ends one.
    #[tactic(auto, unfolding(crate::specs::Outputs::with_end))]
    pub(crate) fn end(&mut self, bracket: &[u8]) -> Result<(), NoMemory>
        ensures { OnOk result (self.new ≡ with_end self.old bracket.now) }
    {
        self.later = true;
        self.text.extend(bracket)
    }

    /// Begins the object of a line.
    #[tactic(auto, unfolding(crate::specs::Outputs::with_line))]
    pub(crate) fn begin_line(&mut self) -> Result<(), NoMemory>
        ensures { OnOk result (self.new ≡ with_line self.old) }
    {
        self.later = false;
        self.text.extend(b"{")
    }

    /// Appends the name of a member.
    #[tactic(auto, unfolding(crate::specs::Outputs::with_name))]
    pub(crate) fn name(&mut self, name: &[u8]) -> Result<(), NoMemory>
        ensures { OnOk result (self.new ≡ with_name self.old name.now) }
    {
        self.comma()?;
        self.later = false;
        push_string(&mut self.text, name)?;
        self.text.extend(b":")
    }

    /// Appends a string.
    #[tactic(auto, unfolding(crate::specs::Outputs::with_value))]
    pub(crate) fn string(&mut self, text: &[u8]) -> Result<(), NoMemory>
        ensures { OnOk result (self.new ≡ with_value self.old (string text.now)) }
    {
        self.comma()?;
        self.later = true;
        push_string(&mut self.text, text)
    }

    /// Appends a number.
    #[tactic(auto, unfolding(crate::specs::Outputs::with_value))]
    pub(crate) fn number(&mut self, value: u64) -> Result<(), NoMemory>
        ensures { OnOk result (self.new ≡ with_value self.old (number_value value)) }
    {
        self.comma()?;
        self.later = true;
        push_number(&mut self.text, value)
    }

    /// Appends a member that is a string.
    #[tactic(auto, using(crate::proofs::OutputParts::pair_parts))]
    pub(crate) fn string_member(&mut self, name: &[u8], text: &[u8]) -> Result<(), NoMemory>
        ensures { OnOk result (self.new ≡ with_pair self.old (name.now, string text.now)) }
    {
        self.name(name)?;
        self.string(text)
    }

    /// Appends a member that is a number.
    #[tactic(auto, using(crate::proofs::OutputParts::pair_parts))]
    pub(crate) fn number_member(&mut self, name: &[u8], value: u64) -> Result<(), NoMemory>
        ensures { OnOk result (self.new ≡ with_pair self.old (name.now, number_value value)) }
    {
        self.name(name)?;
        self.number(value)
    }

    /// Appends a member that is a string: octets in hexadecimal digits.
    pub(crate) fn octets_member(&mut self, name: &[u8], octets: &[u8]) -> Result<(), NoMemory>
        ensures { OnOk result (self.new ≡ with_pair self.old (name.now, string (encode_lower octets.now))) }
    {
        let Ok(digits) = hex::encode(self.alloc, octets) else {
            return Err(NoMemory);
        };
        self.string_member(name, digits.as_bytes())
    }

    /// Appends a member that is a string: bytes in the form that they have between quotation marks.
    pub(crate) fn quoted_member(&mut self, name: &[u8], octets: &[u8]) -> Result<(), NoMemory>
        ensures { OnOk result (self.new ≡ with_pair self.old (name.now, string (quoted_bytes octets.now))) }
    {
        let mut text = Bytes::new(self.alloc);
        push_quoted_bytes(&mut text, octets)?;
        self.string_member(name, text.as_slice())
    }
}
