//! The messages of an input, handled one after another.
ghost use Rattle.std.specs.Io.KnownBytes.{Keeps};
ghost use Rattle.std.specs.Prelude.{◌≡◌, ◌≤◌, false, true};
ghost use Rattle.ndef_message.specs.Sending.{MarksOf, Sent};
ghost use Rattle.ndef_message.specs.States.{sink_state};
ghost use Rattle.ndef_tool.specs.Blocks.{block_text};
ghost use Rattle.ndef_tool.specs.Chosen.{HasSize};
ghost use Rattle.ndef_tool.specs.Inputs.{HandlesIn, SilencesIn};
ghost use Rattle.ndef_cli.specs.Outcomes.{FitsPlace};
ghost use Rattle.ndef_tool.specs.Rules.{typed_rules};
ghost use Rattle.ndef_tool.specs.Sessions.{Handles, SessionHasTaken, IsSession, PrintsNext, Silences, TakesNext};
ghost use Rattle.ndef_tool.specs.Streams.{streams};

use crate::block::{Block, check_block, encode_block, show_block};
use crate::choice::{Action, Choice};
use crate::hexadecimal::read_hexadecimal;
use crate::reading::{FromBytes, FromSource, MOST, Reading};
use ndef_cli::Outcome;
use ndef_message::{Sink, Source, WriteFault, send};
use ndef_nest::Typed;
use std::alloc::Global;

/// The output for a message.
#[derive(Drop)]
pub(crate) struct Printed {
    block: Block,
    /// The bytes of the message, all of which were taken.
    taken: u64,
}

/// The end of the messages of a source.
#[derive(Clone, Copy, Debug)]
pub struct Session {
    /// The bytes of the messages that were read.
    pub at: u64,
    pub outcome: Outcome,
}

/// The whole output for the next message, after `count` messages of `at` bytes, or how the
/// messages end here.
fn print_next<R: Reading<Typed, S>, S>(
    alloc: Global,
    choice: &Choice,
    count: u64,
    at: u64,
    from: &mut S,
) -> Result<Printed, Outcome>
    requires count { count ≤ MOST }
    requires size { HasSize choice.now.action }
    ensures prints { PrintsNext choice.now count at
        (R.coming from.old) (R.coming from.new) (R.has_failed from.new) result }
    ensures taken { TakesNext (λ printed. printed.taken) (typed_rules choice.now.limits)
        (R.coming from.old) (R.taken from.old) (R.taken from.new) result }
{
    let limits = choice.limits;
    let number = count + 1;
    match choice.action {
        Action::Show => {
            let read = R::read(alloc, limits, count, from)?;
            Ok(Printed {
                block: show_block(alloc, limits.profile(), number, at, &read)?,
                taken: read.taken,
            })
        }
        Action::Check => {
            let checked = R::check(limits, count, from)?;
            Ok(Printed {
                block: check_block(number, at, checked),
                taken: checked.taken,
            })
        }
        Action::Encode(form, size) => {
            let read = R::read(alloc, limits, count, from)?;
            Ok(Printed {
                block: encode_block(alloc, choice.hex, form, size, &read.message)?,
                taken: read.taken,
            })
        }
    }
}

/// Writes the output for a message.
fn send_block<K: Sink>(block: Block, sink: &mut K) -> Result<u64, WriteFault>
    ensures sent { Sent 0 (K.written sink.old) (K.written sink.new) (block_text block) result }
    ensures mark { MarksOf (K.has_failed sink.old) (K.has_failed sink.new) (block_text block) result }
    ensures silent { K.has_failed sink.old ≡ true → Keeps (K.written sink.old) (K.written sink.new) }
{
    send(0, block.as_slice(), sink)
}

/// Reads the messages to their end and writes each one's block before the next is read.
fn handle_messages<R: Reading<Typed, S>, S, K: Sink>(
    alloc: Global,
    choice: &Choice,
    from: &mut S,
    sink: &mut K,
) -> Session
    requires { HasSize choice.now.action }
    ensures handled { K.has_failed sink.old ≡ false
        → Handles (IsSession choice.now (R.coming from.old) (R.coming from.new) (R.has_failed from.new)
        (K.has_failed sink.new)) choice.now (sink_state K.Sink sink.old) (sink_state K.Sink sink.new) result }
    ensures silent { K.has_failed sink.old ≡ true
        → Silences (IsSession choice.now (R.coming from.old) (R.coming from.new) (R.has_failed from.new)
        (K.has_failed sink.new)) choice.now (sink_state K.Sink sink.old) (sink_state K.Sink sink.new) result }
    ensures taken { SessionHasTaken (typed_rules choice.now.limits) result.at (R.coming from.old)
        (R.taken from.old) (R.taken from.new) result.outcome }
    ensures room { FitsPlace result.at result.outcome }
{
    // For the proof alone.
    choice.limits.profile();
    let mut count = 0;
    let mut at = 0;
    loop {
        let printed = match print_next::<R, S>(alloc, choice, count, at, from) {
            Ok(printed) => printed,
            Err(outcome) => return Session { at, outcome },
        };
        count += 1;
        at += printed.taken;
        let Ok(_) = send_block(printed.block, sink) else {
            let outcome = Outcome::Writing;
            return Session { at, outcome };
        };
    }
}

/// Handles the messages of the bytes that the text of the source denotes.
fn handle_text<S: Source, K: Sink>(
    alloc: Global,
    choice: &Choice,
    source: &mut S,
    sink: &mut K,
) -> Session
    requires { HasSize choice.now.action }
    ensures handled { K.has_failed sink.old ≡ false
        → HandlesIn true choice.now (streams S.Source K.Sink source.old sink.old)
        (streams S.Source K.Sink source.new sink.new) result }
    ensures silent { K.has_failed sink.old ≡ true
        → SilencesIn true choice.now (streams S.Source K.Sink source.old sink.old)
        (streams S.Source K.Sink source.new sink.new) result }
    ensures room { FitsPlace result.at result.outcome }
{
    match read_hexadecimal(alloc, source) {
        Ok(bytes) => {
            let mut left = bytes.as_slice();
            handle_messages::<FromBytes, &[u8], K>(alloc, choice, &mut left, sink)
        }
        Err(outcome) => Session { at: 0, outcome },
    }
}

/// Handles the messages of the source as they are chosen to be read.
pub fn handle<S: Source, K: Sink>(
    alloc: Global,
    choice: &Choice,
    source: &mut S,
    sink: &mut K,
) -> Session
    requires { HasSize choice.now.action }
    ensures handled { K.has_failed sink.old ≡ false
        → HandlesIn choice.now.hex choice.now (streams S.Source K.Sink source.old sink.old)
        (streams S.Source K.Sink source.new sink.new) result }
    ensures silent { K.has_failed sink.old ≡ true
        → SilencesIn choice.now.hex choice.now (streams S.Source K.Sink source.old sink.old)
        (streams S.Source K.Sink source.new sink.new) result }
    ensures room { FitsPlace result.at result.outcome }
{
    if choice.hex {
        handle_text::<S, K>(alloc, choice, source, sink)
    } else {
        handle_messages::<FromSource, S, K>(alloc, choice, source, sink)
    }
}
