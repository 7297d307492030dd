//! The hints for an input that is refused, with the commands that help, and the warnings about a message.
ghost use Rattle.std.specs.Prelude.{◌≡◌, ◌++◌, ◌∷◌, [], IfOk, IfSome, OnOk, option_map};
ghost use Rattle.ndef_diagnostics.specs.Hints.{hint_text};
ghost use Rattle.serde_json.specs.Data.{string};
ghost use Rattle.ndef_cli_explain.specs.Advice.{IsHint, advice_of, advice_on, command_pairs, dump_name, hint_line};
ghost use Rattle.ndef_cli_explain.specs.Advice.{hint_name, hint_object, hint_pairs, is_given, remark_line, said_remark};
ghost use Rattle.ndef_cli_explain.specs.Advice.{some_pairs, there_pairs, there_text, try_line, wrapping_name};
ghost use Rattle.ndef_cli_explain.specs.Outputs.{array_of, with_pairs, with_value};
ghost use Rattle.ndef_cli_explain.specs.Shell.{IsNear, origin_of, there_of};

use crate::output::Output;
use crate::shell::{Source, command_of};
use ndef_cli::push_counted;
use ndef_diagnostics::{DumpText, Hint, Remark, Wrapping, field_remark, hint_at};
use ndef_fields::FieldName;
use ndef_value::{Bytes, Limits, NoMemory, Refusal};
use std::alloc::Global;

/// A hint, and what goes with it.
#[derive(Drop)]
pub(crate) struct Advice {
    pub(crate) hint: Hint,
    /// How many bytes of the message are there, if they aren't all.
    pub(crate) there: Option<u64>,
    /// The command that reads the message, if there is one.
    pub(crate) command: Option<Bytes>,
}

/// The hint that applies where these bytes are refused so, if one does.
pub(crate) fn hint_for(bytes: &[u8], limits: Limits, refusal: Refusal) -> Option<Hint>
    ensures hint { IsHint limits bytes.now refusal result }
    ensures near { IfSome result IsNear }
{
    hint_at(bytes, limits, refusal)
}

/// Whether a hint after `at` bytes of the input is given.
fn is_given(at: u64, hint: Hint) -> bool
    ensures { result ≡ is_given at hint }
{
    match hint {
        Hint::InTag(_) | Hint::Text(_) | Hint::MessageAt(_) => at == 0,
        Hint::AfterBlocks | Hint::CodeLeftOut | Hint::StandardProfile => true,
    }
}

/// How many bytes of a message are there, of which a tag has `count` at a place of `size` bytes, if they aren't all.
fn there_of(size: u64, place: u64, count: u64) -> Option<u64>
    ensures { result ≡ there_of size place count }
{
    let there = size.saturating_sub(place);
    if there < count { Some(there) } else { None }
}

/// Returns a hint on an input of `size` bytes from this source, with what goes with it.
fn advice_on(alloc: Global, source: &Source<'_>, size: u64, hint: Hint) -> Result<Advice, NoMemory>
    requires { IsNear hint }
    ensures { IfOk result (λ advice. advice ≡ advice_on (origin_of source.now) size hint) }
{
    Ok(Advice {
        hint,
        there: there_of(size, hint.place(), hint.length()),
        command: command_of(alloc, source, size, hint)?,
    })
}

/// The same of a hint after `at` bytes of the input, if it is given.
pub(crate) fn advice_of(
    alloc: Global,
    source: &Source<'_>,
    at: u64,
    size: u64,
    hint: Option<Hint>,
) -> Result<Option<Advice>, NoMemory>
    requires { IfSome hint IsNear }
    ensures { IfOk result (λ advice. advice ≡ advice_of (origin_of source.now) at size hint) }
{
    match hint {
        Some(hint) if is_given(at, hint) => Ok(Some(advice_on(alloc, source, size, hint)?)),
        _ => Ok(None),
    }
}

/// Appends how many of `count` bytes are there, if they aren't all.
fn push_there(line: &mut Bytes, count: u64, there: Option<u64>) -> Result<(), NoMemory>
    ensures { OnOk result (line.new ≡ line.old ++ there_text count there) }
{
    match there {
        None => Ok(()),
        Some(there) => {
            push_counted(line, b" ", there)?;
            push_counted(line, b" of ", count)?;
            line.extend(b" bytes are there.")
        }
    }
}

/// Appends the line of a command, if there is one.
fn push_try_line(line: &mut Bytes, command: Option<&Bytes>) -> Result<(), NoMemory>
    ensures { OnOk result (line.new ≡ line.old ++ try_line (option_map (λ command. command.now) command.entry)) }
{
    match command {
        None => Ok(()),
        Some(command) => {
            line.extend(b"try: ")?;
            line.extend(command.as_slice())?;
            line.extend(b"\n")
        }
    }
}

/// Appends the lines of a hint.
fn push_advice(line: &mut Bytes, advice: &Advice) -> Result<(), NoMemory>
    ensures { OnOk result (line.new ≡ line.old ++ hint_line (Some advice.now)) }
{
    let hint = advice.hint;
    line.extend(b"hint: ")?;
    line.extend(hint.sentence().as_slice())?;
    push_there(line, hint.length(), advice.there)?;
    line.extend(b"\n")?;
    push_try_line(line, advice.command.as_ref())
}

/// Appends the line of a hint and that of its command, if there are some.
pub(crate) fn push_hint_line(line: &mut Bytes, advice: Option<&Advice>) -> Result<(), NoMemory>
    ensures { OnOk result (line.new ≡ line.old ++ hint_line (option_map (λ advice. advice.now) advice.entry)) }
{
    match advice {
        Some(advice) => push_advice(line, advice),
        None => Ok(()),
    }
}

/// The name for what surrounds a message on a tag, or is unusual about it.
fn wrapping_name(wrapping: Wrapping) -> &'static [u8]
    ensures { result.now ≡ wrapping_name wrapping }
{
    match wrapping {
        Wrapping::Block => b"tlv",
        Wrapping::Attributes => b"attributes",
        Wrapping::File => b"file",
        Wrapping::Interrupted => b"interrupted",
        Wrapping::Unfinished => b"unfinished",
    }
}

/// The name of a text that spells bytes.
fn dump_name(text: DumpText) -> &'static [u8]
    ensures { result.now ≡ dump_name text }
{
    match text {
        DumpText::Digits => b"digits",
        DumpText::Xxd => b"xxd",
        DumpText::Hexdump => b"hexdump",
        DumpText::Od | DumpText::Suppressed => b"od",
        DumpText::Words => b"words",
        DumpText::Flipper => b"flipper",
        DumpText::Proxmark => b"proxmark",
        DumpText::Base64 => b"base64",
    }
}

/// The kind of a hint, as C has it.
fn hint_name(hint: Hint) -> &'static [u8]
    ensures { result.now ≡ hint_name hint }
{
    match hint {
        Hint::InTag(found) => wrapping_name(found.wrapping),
        Hint::Text(text) => dump_name(text),
        Hint::MessageAt(_) => b"message",
        Hint::AfterBlocks => b"terminator",
        Hint::CodeLeftOut => b"code",
        Hint::StandardProfile => b"standard",
    }
}

/// Appends the member of a command, if there is one.
fn push_command_member(out: &mut Output, command: Option<&Bytes>) -> Result<(), NoMemory>
    ensures { OnOk result (out.new
        ≡ with_pairs out.old (command_pairs (option_map (λ command. command.now) command.entry))) }
{
    match command {
        None => Ok(()),
        Some(command) => out.string_member(b"command", command.as_slice()),
    }
}

/// Appends the member of a number, unless it is 0.
fn push_some_member(out: &mut Output, name: &[u8], number: u64) -> Result<(), NoMemory>
    ensures { OnOk result (out.new ≡ with_pairs out.old (some_pairs name.now number)) }
{
    if number == 0 {
        return Ok(());
    }
    out.number_member(name, number)
}

/// Appends how many bytes are there, if they aren't all.
fn push_there_member(out: &mut Output, there: Option<u64>) -> Result<(), NoMemory>
    ensures { OnOk result (out.new ≡ with_pairs out.old (there_pairs there)) }
{
    match there {
        None => Ok(()),
        Some(there) => out.number_member(b"there", there),
    }
}

/// Appends the object of a hint.
#[tactic(auto, using(crate::proofs::OutputParts::object_parts))]
fn push_hint_object(out: &mut Output, advice: &Advice) -> Result<(), NoMemory>
    ensures { OnOk result (out.new ≡ with_value out.old (hint_object advice.now)) }
{
    let hint = advice.hint;
    out.begin(b"{")?;
    push_command_member(out, advice.command.as_ref())?;
    out.string_member(b"kind", hint_name(hint))?;
    push_some_member(out, b"length", hint.length())?;
    push_some_member(out, b"offset", hint.place())?;
    push_there_member(out, advice.there)?;
    out.end(b"}")
}

/// Appends the array of the sentence of a hint.
#[tactic(auto, using(crate::proofs::OutputParts::array_parts))]
fn push_sentences(out: &mut Output, hint: Hint) -> Result<(), NoMemory>
    ensures { OnOk result (out.new ≡ with_value out.old (array_of (string (hint_text hint) ∷ []))) }
{
    out.begin(b"[")?;
    out.string(hint.sentence().as_slice())?;
    out.end(b"]")
}

/// Appends the members of a hint.
#[tactic(auto, using(crate::proofs::OutputParts::pair_parts))]
fn push_advice_members(out: &mut Output, advice: &Advice) -> Result<(), NoMemory>
    ensures { OnOk result (out.new ≡ with_pairs out.old (hint_pairs (Some advice.now))) }
{
    out.name(b"hint")?;
    push_hint_object(out, advice)?;
    out.name(b"hints")?;
    push_sentences(out, advice.hint)
}

/// Appends the members of a hint, if there is one.
pub(crate) fn push_hint_members(out: &mut Output, advice: Option<&Advice>) -> Result<(), NoMemory>
    ensures { OnOk result (out.new
        ≡ with_pairs out.old (hint_pairs (option_map (λ advice. advice.now) advice.entry))) }
{
    match advice {
        None => Ok(()),
        Some(advice) => push_advice_members(out, advice),
    }
}

/// Returns the warning about a field of this name with these octets, if warnings are printed.
pub(crate) fn said_remark(remarks: bool, name: FieldName, octets: &[u8]) -> Option<Remark>
    ensures { result ≡ said_remark remarks name octets.now }
{
    if remarks {
        field_remark(name, octets)
    } else {
        None
    }
}

/// Appends the line of a remark, if there is one.
pub(crate) fn push_remark_line(line: &mut Bytes, remark: Option<Remark>) -> Result<(), NoMemory>
    ensures { OnOk result (line.new ≡ line.old ++ remark_line remark) }
{
    match remark {
        Some(remark) => {
            line.extend(b"remark: ")?;
            line.extend(remark.sentence().as_slice())?;
            line.extend(b"\n")
        }
        None => Ok(()),
    }
}
