//! The words of a command line. On Linux they are bytes; clap takes texts.
ghost use Rattle.std.specs.Prelude.{◌≡◌, IfErr, IfOk, IsUtf8, map, option_map, string_bytes};
ghost use Rattle.std.specs.List.{AllByRecursion};
ghost use Rattle.ndef_message.specs.States.{sink_state};
ghost use Rattle.ndef_cli.specs.Args.{AreNoTexts, IsStrange, TellsWord, TellsWords, word_line};

use crate::Status;
use crate::printing::print;
use crate::quoting::push_quoted;
use ndef_message::Sink;
use ndef_value::{Bytes, NoMemory};
use std::alloc::Global;
use std::env::{Env, FillError};

/// The reason why words aren't taken as texts.
#[derive(Clone, Copy, Debug)]
pub enum ArgsFault<'a> {
    /// This word isn't UTF-8.
    NotText(&'a [u8]),
    /// An allocation failed.
    NoMemory,
}

/// The outcome of reading a word into a buffer.
enum Filled {
    /// Its bytes.
    Word(Bytes),
    /// It is longer than the buffer.
    TooLong,
    /// There is no such word.
    Missing,
}

/// Reads a word into a buffer.
fn read_into<E: Env>(
    alloc: Global,
    env: &E,
    index: usize,
    room: usize,
) -> Result<Filled, NoMemory> {
    let mut buffer = vec![in alloc; 0; room]?;
    match env.arg(index, buffer.as_mut_slice()) {
        Ok(count) => Ok(Filled::Word(Bytes::from_slice(alloc, &buffer.as_slice()[..count])?)),
        Err(FillError::TooLong) => Ok(Filled::TooLong),
        Err(FillError::NotPresent) => Ok(Filled::Missing),
    }
}

/// Reads a word, if there is one.
fn read_word<E: Env>(alloc: Global, env: &E, index: usize) -> Result<Option<Bytes>, NoMemory> {
    let mut room = 256usize;
    for _ in 0..32 {
        match read_into(alloc, env, index, room)? {
            Filled::Word(word) => return Ok(Some(word)),
            Filled::TooLong => room = room.saturating_add(room),
            Filled::Missing => return Ok(None),
        }
    }
    Err(NoMemory)
}

/// The words of the process, each as its bytes. The first is the program's name.
pub fn read_args<E: Env>(alloc: Global, env: &E) -> Result<Vec<Bytes>, NoMemory> {
    let mut args = Vec::new(alloc);
    for index in 0..usize::MAX {
        match read_word(alloc, env, index)? {
            Some(word) => args.push(word)?,
            None => break,
        }
    }
    Ok(args)
}

/// The first of the words that isn't UTF-8.
pub fn non_utf8_arg(args: &[Bytes]) -> Option<&[u8]>
    ensures { IsStrange args.now (option_map (λ word. word.now) result) }
{
    for word in args {
        match str::from_utf8(word.as_slice()) {
            Ok(_) => {}
            Err(_) => return Some(word.as_slice()),
        }
    }
    None
}

/// Copies of the words, which are UTF-8.
fn copies(alloc: Global, args: &[Bytes]) -> Result<Vec<String>, NoMemory>
    requires { AllByRecursion IsUtf8 args.now }
    ensures { IfOk result (λ texts. map string_bytes texts.items ≡ args.now) }
{
    let mut texts = Vec::new(alloc);
    for word in args {
        let Ok(text) = str::from_utf8(word.as_slice()) else {
            unreachable!()
        };
        texts.push(String::from_str(alloc, text)?)?;
    }
    Ok(texts)
}

/// The words as texts. A word that isn't UTF-8 is reported before a lack of memory.
pub fn texts<'a>(alloc: Global, args: &'a [Bytes]) -> Result<Vec<String>, ArgsFault<'a>>
    ensures texts { IfOk result (λ texts. map string_bytes texts.items ≡ args.now) }
    ensures fault { IfErr result (AreNoTexts args.now) }
{
    if let Some(word) = non_utf8_arg(args) {
        return Err(ArgsFault::NotText(word));
    }
    match copies(alloc, args) {
        Ok(texts) => Ok(texts),
        Err(NoMemory) => Err(ArgsFault::NoMemory),
    }
}

/// The line for a word that isn't UTF-8.
pub fn word_line(alloc: Global, word: &[u8]) -> Result<Bytes, NoMemory>
    ensures { IfOk result (λ line. line ≡ word_line word.now) }
{
    let mut line = Bytes::from_slice(alloc, b"usage: the word ")?;
    push_quoted(&mut line, word)?;
    line.extend(b" is not UTF-8\n")?;
    Ok(line)
}

/// Writes the line for a word that isn't UTF-8.
fn tell_word<K: Sink>(alloc: Global, word: &[u8], sink: &mut K) -> Status
    ensures { TellsWord word.now (sink_state K.Sink sink.old) (sink_state K.Sink sink.new) result }
{
    match word_line(alloc, word) {
        Ok(line) => print(line.as_slice(), Status::Usage, sink),
        Err(NoMemory) => Status::Fault,
    }
}

/// Writes why words aren't taken as texts: the line for a word that isn't UTF-8. The status is `Usage`; it is
/// `Fault` if memory runs out or writing fails.
pub fn tell_words<K: Sink>(alloc: Global, fault: ArgsFault<'_>, sink: &mut K) -> Status
    ensures { TellsWords fault.entry (sink_state K.Sink sink.old) (sink_state K.Sink sink.new) result }
{
    match fault {
        ArgsFault::NotText(word) => tell_word(alloc, word, sink),
        ArgsFault::NoMemory => Status::Fault,
    }
}
