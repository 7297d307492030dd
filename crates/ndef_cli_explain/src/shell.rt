//! Commands for a shell (POSIX, Shell Command Language) that read the message of which a hint speaks.
ghost use Rattle.std.specs.Prelude.{◌≡◌, ◌++◌, IfOk, OnOk, option_map};
ghost use Rattle.std.specs.List.{flat_map, list_all};
ghost use Rattle.ndef_cli_explain.specs.Shell.{command_by, command_of, file_named, file_words, guarded, is_plain, is_plain_word};
ghost use Rattle.ndef_cli_explain.specs.Shell.{IsNear, is_printable, is_typed, limit_words, limits_words, origin_of};
ghost use Rattle.ndef_cli_explain.specs.Shell.{piece_step, profile_words, program, quoted_byte, reader_words, shell_word, spelled_words};
ghost use Rattle.ndef_cli_explain.specs.Shell.{step_of, step_text, tail_words, text_step};

use ndef_cli::push_counted;
use ndef_diagnostics::{DumpText, Hint};
use ndef_value::{Bytes, Limits, NoMemory, Profile};
use std::alloc::Global;

/// The source of an input.
#[derive(Clone, Copy)]
pub(crate) struct Source<'a> {
    /// The name of its file; `-` for standard input.
    pub(crate) name: &'a str,
    /// It is hexadecimal text.
    pub(crate) hex: bool,
    /// The limits with which it is read.
    pub(crate) limits: Limits,
}

/// What reads a message in the bytes of an input.
#[derive(Clone, Copy)]
enum Step {
    /// ndef-explain, of this number of bytes from this one on, counted from 1.
    Piece { from: u64, count: u64 },
    /// The same of all bytes from this one on.
    Rest(u64),
    /// ndef-explain with `--hex`.
    Hexadecimal,
    /// ndef-explain after `base64 -d`.
    Base64,
    /// ndef-explain for the standard profile.
    Standard,
}

/// Whether no shell reads a byte as anything but itself: a letter, a digit, or one of `%+,-./:=@_`.
fn is_plain(byte: u8) -> bool
    ensures { result ≡ is_plain byte }
{
    matches!(byte, 0x2b..=0x3a | 0x40..=0x5a | 0x61..=0x7a | b'%' | b'=' | b'_')
}

/// Whether a byte is printable ASCII.
fn is_printable(byte: u8) -> bool
    ensures { result ≡ is_printable byte }
{
    matches!(byte, 0x20..=0x7e)
}

/// Whether all bytes are plain.
fn are_plain(bytes: &[u8]) -> bool
    ensures { result ≡ list_all is_plain bytes.now }
{
    for byte in bytes {
        if !is_plain(*byte) {
            return false;
        }
    }
    true
}

/// Whether all bytes are printable ASCII.
fn are_printable(bytes: &[u8]) -> bool
    ensures { result ≡ list_all is_printable bytes.now }
{
    for byte in bytes {
        if !is_printable(*byte) {
            return false;
        }
    }
    true
}

/// Whether these are some bytes that no shell reads as anything but themselves.
fn is_plain_word(word: &[u8]) -> bool
    ensures { result ≡ is_plain_word word.now }
{
    !word.is_empty() && are_plain(word)
}

/// Appends a byte between single quotes.
fn push_quoted_byte(line: &mut Bytes, byte: u8) -> Result<(), NoMemory>
    ensures { OnOk result (line.new ≡ line.old ++ quoted_byte byte) }
{
    if byte == b'\'' {
        line.extend(b"'\\''")
    } else {
        line.extend(&[byte])
    }
}

/// Appends bytes between single quotes.
fn push_quoted_bytes(line: &mut Bytes, word: &[u8]) -> Result<(), NoMemory>
    ensures { OnOk result (line.new ≡ line.old ++ flat_map quoted_byte word.now) }
{
    let mut rest = word;
    while let [byte, more @ ..] = rest {
        push_quoted_byte(line, *byte)?;
        rest = more;
    }
    Ok(())
}

/// Appends bytes as one word of a shell.
fn push_shell_word(line: &mut Bytes, word: &[u8]) -> Result<(), NoMemory>
    ensures { OnOk result (line.new ≡ line.old ++ shell_word word.now) }
{
    if is_plain_word(word) {
        return line.extend(word);
    }
    line.extend(b"'")?;
    push_quoted_bytes(line, word)?;
    line.extend(b"'")
}

/// Returns the name of a file that isn't taken for an option.
fn guarded(alloc: Global, name: &[u8]) -> Result<Bytes, NoMemory>
    ensures { IfOk result (λ word. word ≡ guarded name.now) }
{
    let mut word = Bytes::new(alloc);
    if name.starts_with(b"-") {
        word.extend(b"./")?;
    }
    word.extend(name)?;
    Ok(word)
}

/// The name of a file; None for standard input.
fn file_named(name: &str) -> Option<&str>
    ensures { option_map (λ name. name.now) result ≡ file_named name.now }
{
    if name == "-" { None } else { Some(name) }
}

/// Appends a blank and the name of a file; nothing for standard input.
fn push_file(alloc: Global, line: &mut Bytes, file: Option<&str>) -> Result<(), NoMemory>
    ensures { OnOk result (line.new ≡ line.old ++ file_words (option_map (λ name. name.now) file.entry)) }
{
    match file {
        None => Ok(()),
        Some(name) => {
            let word = guarded(alloc, name.as_bytes())?;
            line.extend(b" ")?;
            push_shell_word(line, word.as_slice())
        }
    }
}

/// Whether the name of a file can be typed.
fn is_typed(file: Option<&str>) -> bool
    ensures { result ≡ is_typed (option_map (λ name. name.now) file.entry) }
{
    match file {
        None => true,
        Some(name) => are_printable(name.as_bytes()),
    }
}

/// Appends the option for a limit, unless it is the usual one.
fn push_limit(line: &mut Bytes, option: &[u8], usual: u32, number: u32) -> Result<(), NoMemory>
    ensures { OnOk result (line.new ≡ line.old ++ limit_words option.now usual number) }
{
    if number == usual {
        return Ok(());
    }
    push_counted(line, option, u64::from(number))
}

/// Appends the option for a profile, unless it is the usual one.
fn push_profile(line: &mut Bytes, profile: Profile) -> Result<(), NoMemory>
    ensures { OnOk result (line.new ≡ line.old ++ profile_words profile) }
{
    match profile {
        Profile::Strict => Ok(()),
        Profile::Standard => line.extend(b" --profile standard"),
    }
}

/// Appends the options for limits.
#[tactic(auto, unfolding(crate::specs::Shell::limits_words))]
fn push_limits(line: &mut Bytes, limits: Limits) -> Result<(), NoMemory>
    ensures { OnOk result (line.new ≡ line.old ++ limits_words limits) }
{
    let usual = Limits::usual();
    push_limit(line, b" --payload ", usual.payload(), limits.payload())?;
    push_limit(line, b" --records ", usual.records(), limits.records())?;
    push_limit(line, b" --pieces ", usual.pieces(), limits.pieces())?;
    push_profile(line, limits.profile())
}

/// The bytes of a message on a tag, if there are some and all of them are there.
fn piece_step(size: u64, place: u32, count: u64) -> Option<Step>
    ensures { result ≡ piece_step size place count }
{
    let place = u64::from(place);
    if count == 0 || size.saturating_sub(place) < count {
        return None;
    }
    Some(Step::Piece {
        from: place + 1,
        count,
    })
}

/// What reads a text that spells bytes.
fn text_step(text: DumpText) -> Option<Step>
    ensures { result ≡ text_step text }
{
    match text {
        DumpText::Digits | DumpText::Xxd | DumpText::Hexdump => Some(Step::Hexadecimal),
        DumpText::Od | DumpText::Flipper => Some(Step::Hexadecimal),
        DumpText::Base64 => Some(Step::Base64),
        DumpText::Suppressed | DumpText::Words | DumpText::Proxmark => None,
    }
}

/// What reads the message of a hint, on an input of this size.
fn step_of(size: u64, hint: Hint) -> Option<Step>
    requires { IsNear hint }
    ensures { result ≡ step_of size hint }
{
    match hint {
        Hint::InTag(found) => piece_step(size, found.at, hint.length()),
        Hint::Text(text) => text_step(text),
        Hint::MessageAt(place) => Some(Step::Rest(place + 1)),
        Hint::StandardProfile => Some(Step::Standard),
        Hint::AfterBlocks | Hint::CodeLeftOut => None,
    }
}

/// Appends the name of the program.
#[tactic(auto, unfolding(crate::specs::Shell::program))]
fn push_program(line: &mut Bytes) -> Result<(), NoMemory>
    ensures { OnOk result (line.new ≡ line.old ++ program) }
{
    line.extend(b"ndef-explain")
}

/// Appends the program with these limits, at the end of a pipeline.
fn push_reader(line: &mut Bytes, limits: Limits) -> Result<(), NoMemory>
    ensures { OnOk result (line.new ≡ line.old ++ reader_words limits) }
{
    line.extend(b" | ")?;
    push_program(line)?;
    push_limits(line, limits)
}

/// Appends the words that give the bytes of a file, or of standard input, from one on, counted from 1.
fn push_tail(line: &mut Bytes, from: u64, file: &[u8]) -> Result<(), NoMemory>
    ensures { OnOk result (line.new ≡ line.old ++ tail_words from file.now) }
{
    push_counted(line, b"tail -c +", from)?;
    line.extend(file)
}

/// Appends the command that does this with the bytes of a file, or of standard input.
fn push_step(line: &mut Bytes, file: &[u8], limits: Limits, step: Step) -> Result<(), NoMemory>
    ensures { OnOk result (line.new ≡ line.old ++ step_text file.now limits step) }
{
    match step {
        Step::Piece { from, count } => {
            push_tail(line, from, file)?;
            push_counted(line, b" | head -c ", count)?;
            push_reader(line, limits)
        }
        Step::Rest(from) => {
            push_tail(line, from, file)?;
            push_reader(line, limits)
        }
        Step::Hexadecimal => {
            push_program(line)?;
            line.extend(b" --hex")?;
            push_limits(line, limits)?;
            line.extend(file)
        }
        Step::Base64 => {
            line.extend(b"base64 -d")?;
            line.extend(file)?;
            push_reader(line, limits)
        }
        Step::Standard => {
            push_program(line)?;
            push_limits(line, limits.with(Profile::Standard))?;
            line.extend(file)
        }
    }
}

/// Appends what gives the bytes that hexadecimal text spells, at the head of a pipeline.
fn push_spelled(line: &mut Bytes, file: &[u8]) -> Result<(), NoMemory>
    ensures { OnOk result (line.new ≡ line.old ++ spelled_words file.now) }
{
    push_program(line)?;
    line.extend(b" --hex --raw")?;
    line.extend(file)?;
    line.extend(b" | ")
}

/// Appends the same with the bytes of an input.
fn push_command(
    line: &mut Bytes,
    hex: bool,
    file: &[u8],
    limits: Limits,
    step: Step,
) -> Result<(), NoMemory>
    ensures { OnOk result (line.new ≡ line.old ++ command_by hex file.now limits step) }
{
    if !hex {
        return push_step(line, file, limits, step);
    }
    push_spelled(line, file)?;
    push_step(line, b"", limits, step)
}

/// Returns the command that does this with the bytes of an input.
fn command_by(alloc: Global, source: &Source<'_>, step: Step) -> Result<Bytes, NoMemory>
    ensures { IfOk result (λ line. line ≡ command_by source.now.hex (file_words (origin_of source.now).file)
        source.now.limits step) }
{
    let mut file = Bytes::new(alloc);
    push_file(alloc, &mut file, file_named(source.name))?;
    let mut line = Bytes::new(alloc);
    push_command(&mut line, source.hex, file.as_slice(), source.limits, step)?;
    Ok(line)
}

/// Returns the command that reads the message of a hint, on an input of this size, if there is one.
pub(crate) fn command_of(
    alloc: Global,
    source: &Source<'_>,
    size: u64,
    hint: Hint,
) -> Result<Option<Bytes>, NoMemory>
    requires { IsNear hint }
    ensures { IfOk result (λ command. command ≡ command_of (origin_of source.now) size hint) }
{
    if !is_typed(file_named(source.name)) {
        return Ok(None);
    }
    match step_of(size, hint) {
        None => Ok(None),
        Some(step) => Ok(Some(command_by(alloc, source, step)?)),
    }
}
