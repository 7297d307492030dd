//! The output for a message.
ghost use Rattle.std.specs.Prelude.{◌≡◌, IfOk};
ghost use Rattle.ndef_message.specs.Written.{cut_octets};
ghost use Rattle.std.specs.List.{AllByRecursion};
ghost use Rattle.ndef_tool.specs.Output.{IsShown, message_line, bytes_or_digits};
ghost use Rattle.ndef_tool.specs.Showing.{IsTyped};
ghost use Rattle.ndef_tool.specs.Chosen.{HasSizeIfAny};
ghost use Rattle.ndef_tool.specs.Blocks.{block_text};

use crate::linking::push_link_lines;
use crate::printing::{MessageLine, message_line};
use crate::showing::push_records;
use ndef_cli::hexadecimal_line;
use ndef_message::{Checked, Form, Read, encode, encode_chunked};
use ndef_value::{Bytes, Message, NoMemory, Profile};
use std::alloc::Global;

/// The bytes that are printed of a message.
#[derive(Drop)]
pub enum Block {
    Line(MessageLine),
    Bytes(Bytes),
}

impl Block {
    /// Its bytes.
    pub fn as_slice(&self) -> &[u8]
        ensures { result.now ≡ block_text self.now }
    {
        match self {
            Block::Line(line) => line.as_slice(),
            Block::Bytes(bytes) => bytes.as_slice(),
        }
    }
}

/// The message in a form, and in chunks where their size is given.
fn encode_by(
    alloc: Global,
    message: &Message,
    form: Form,
    size: Option<u32>,
) -> Result<Bytes, NoMemory>
    requires { HasSizeIfAny size }
    ensures { IfOk result (λ bytes. bytes ≡ cut_octets form size message.now) }
{
    match size {
        None => encode(alloc, message, form),
        Some(size) => encode_chunked(alloc, message, form, size),
    }
}

/// The bytes as they are, or as hexadecimal digits.
fn block_in(alloc: Global, hex: bool, bytes: Bytes) -> Result<Block, NoMemory>
    ensures { IfOk result (λ block. block_text block ≡ bytes_or_digits hex bytes) }
{
    if hex {
        return Ok(Block::Bytes(hexadecimal_line(alloc, bytes.as_slice())?));
    }
    Ok(Block::Bytes(bytes))
}

/// Returns the output of `check` for a message, with its number from 1 and its place in the input: its line.
pub fn check_block(number: u64, at: u64, checked: Checked) -> Block
    ensures { block_text result ≡ message_line number at checked.records checked.taken }
{
    let records = u64::from(checked.records);
    Block::Line(message_line(number, at, records, checked.taken))
}

/// The bytes for which memory is taken at once for the output of `show` for a message; more where it is longer.
const USUAL: usize = 512;

/// Returns the output of `show` for it: its line, the lines of the records and those of the links.
pub fn show_block(
    alloc: Global,
    profile: Profile,
    number: u64,
    at: u64,
    read: &Read,
) -> Result<Block, NoMemory>
    requires { AllByRecursion (IsTyped profile) read.now.message }
    ensures { IfOk result (λ block. IsShown profile number at read.now (block_text block)) }
{
    let records = read.message.len() as u64;
    let mut lines = Bytes::from(Vec::with_capacity(alloc, USUAL)?);
    lines.extend(message_line(number, at, records, read.taken).as_slice())?;
    let first = push_records(alloc, &mut lines, profile, &read.message)?;
    push_link_lines(alloc, &mut lines, profile, &read.message, first)?;
    Ok(Block::Bytes(lines))
}

/// Returns the output of `encode` for it: its bytes, or their digits.
pub fn encode_block(
    alloc: Global,
    hex: bool,
    form: Form,
    size: Option<u32>,
    message: &Message,
) -> Result<Block, NoMemory>
    requires { HasSizeIfAny size }
    ensures { IfOk result (λ block. block_text block ≡ bytes_or_digits hex (cut_octets form size message.now)) }
{
    let bytes = encode_by(alloc, message, form, size)?;
    block_in(alloc, hex, bytes)
}
