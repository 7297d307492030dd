//! Messages encoded, and written to a sink that fails.
ghost use Rattle.std.specs.Option.{ForSome};
ghost use Rattle.std.specs.Prelude.{◌≤◌};

use crate::lines::{fields, octets_of};
use crate::samples::{HELLO, read};
use crate::streams::{FullWriter, IdleWriter};
use ndef_message::{
    Encoder, Form, Sink, SinkFault, StdSink, WriteFault, encode, encode_chunked, encoded_length,
    write_message,
};
use ndef_value::{Message, Record, Tnf};
use std::alloc::Global;
use std::test::Fail;

/// Messages and what is written for them: `MESSAGE | FORM | SIZE | WRITTEN`, the form `short` or `long`,
/// the size that of pieces, or `whole`.
const WRITTEN: &str = "
D1 01 08 54 02 65 6E 48 65 6C 6C 6F | short | whole | D1 01 08 54 02 65 6E 48 65 6C 6C 6F
D1 01 08 54 02 65 6E 48 65 6C 6C 6F | long | whole | C1 01 00 00 00 08 54 02 65 6E 48 65 6C 6C 6F
D5 00 00 | short | whole | D5 00 00
D5 00 00 | long | whole | C5 00 00 00 00 00
91 02 0A 48 73 12 D1 02 04 61 63 01 01 30 00 5A 03 01 01 61 2F 62 30 01 | short | whole | 91 02 0A 48 73 12 D1 02 04 61 63 01 01 30 00 5A 03 01 01 61 2F 62 30 01
91 02 0A 48 73 12 D1 02 04 61 63 01 01 30 00 5A 03 01 01 61 2F 62 30 01 | long | whole | 81 02 00 00 00 0A 48 73 12 D1 02 04 61 63 01 01 30 00 4A 03 00 00 00 01 01 61 2F 62 30 01
D1 01 08 54 02 65 6E 48 65 6C 6C 6F | short | 1 | B1 01 01 54 02 36 00 01 65 36 00 01 6E 36 00 01 48 36 00 01 65 36 00 01 6C 36 00 01 6C 56 00 01 6F
D1 01 08 54 02 65 6E 48 65 6C 6C 6F | short | 3 | B1 01 03 54 02 65 6E 36 00 03 48 65 6C 56 00 02 6C 6F
D1 01 08 54 02 65 6E 48 65 6C 6C 6F | short | 8 | D1 01 08 54 02 65 6E 48 65 6C 6C 6F
D1 01 08 54 02 65 6E 48 65 6C 6C 6F | long | 4 | A1 01 00 00 00 04 54 02 65 6E 48 46 00 00 00 00 04 65 6C 6C 6F
D1 01 08 54 02 65 6E 48 65 6C 6C 6F | long | 4294967295 | C1 01 00 00 00 08 54 02 65 6E 48 65 6C 6C 6F
";

/// Returns the bytes that an encoder writes into 100 buffers of 5 bytes, one after another.
fn in_steps(
    alloc: Global,
    message: &Message,
    form: Form,
    size: Option<u32>,
) -> Result<Vec<u8>, Fail>
    requires { ForSome size (λ n. 1 ≤ n) }
{
    let mut encoder = Encoder::new(message, form, size);
    let mut out = Vec::new(alloc);
    let mut buffer = [0; 5];
    for _ in 0..100 {
        let count = encoder.next(&mut buffer);
        out.extend_from_slice(&buffer[..count])?;
    }
    Ok(out)
}

/// Whether the bytes are written for whole records.
fn writes(alloc: Global, message: &Message, form: Form, expected: &[u8]) -> Result<bool, Fail> {
    let bytes = encode(alloc, message, form)?;
    let steps = in_steps(alloc, message, form, None)?;
    Ok(
        bytes.as_slice() == expected
            && steps.as_slice() == expected
            && encoded_length(message, form) == expected.len() as u64,
    )
}

/// Whether all encoders write the bytes for records in pieces.
fn writes_pieces(
    alloc: Global,
    message: &Message,
    form: Form,
    size: u32,
    expected: &[u8],
) -> Result<bool, Fail>
    requires { 1 ≤ size }
{
    let bytes = encode_chunked(alloc, message, form, size)?;
    let mut out = Vec::new(alloc);
    let mut sink = StdSink::new(&mut out);
    let written = write_message(message, form, Some(size), &mut sink)?;
    drop(sink);
    let steps = in_steps(alloc, message, form, Some(size))?;
    let lengths = written == expected.len() as u64;
    Ok(
        bytes.as_slice() == expected
            && out.as_slice() == expected
            && steps.as_slice() == expected
            && lengths,
    )
}

/// Whether the bytes are written for records in pieces of this size, or for whole ones.
fn writes_so(
    alloc: Global,
    message: &Message,
    form: Form,
    size: &str,
    expected: &[u8],
) -> Result<bool, Fail> {
    match size {
        "whole" => writes(alloc, message, form, expected),
        _ => writes_pieces(alloc, message, form, size.parse::<u32>()?.max(1), expected),
    }
}

/// Whether what is written for the message in a line is what the line gives.
fn is_written(alloc: Global, line: &str) -> Result<bool, Fail> {
    let [bytes, form, size, expected, ..] = fields(line);
    let message = read(alloc, octets_of(alloc, bytes)?.as_slice())?;
    let form = match form {
        "long" => Form::Long,
        _ => Form::Short,
    };
    writes_so(
        alloc,
        &message,
        form,
        size,
        octets_of(alloc, expected)?.as_slice(),
    )
}

#[test]
fn encodes_messages(rt: HostRuntime) -> Result<(), Fail> {
    for line in WRITTEN.trim().lines() {
        assert!(rt; is_written(rt.alloc(), line)?, "{line}");
    }
    Ok(())
}

/// A message that is made of its parts.
fn hello(alloc: Global) -> Result<Message, Fail> {
    let mut records = Vec::new(alloc);
    records.push(Record::new(alloc, Tnf::WellKnown, b"T", b"", &HELLO[4..])?)?;
    Ok(Message::new(records)?)
}

/// Returns the result of writing a message, and the output, if the writer takes `room` bytes and then fails for
/// good.
fn written_into(
    alloc: Global,
    message: &Message,
    room: usize,
) -> Result<(Result<u64, WriteFault>, Vec<u8>), Fail> {
    let mut out = Vec::new(alloc);
    let mut sink = StdSink::new(FullWriter {
        out: &mut out,
        room,
    });
    let written = write_message(message, Form::Short, None, &mut sink);
    let fails = sink.write(&HELLO) == Err(SinkFault);
    drop(sink);
    if !fails {
        return Err("the sink takes more".into());
    }
    Ok((written, out))
}

/// Whether exactly the first `room` bytes of the text record go out, and are counted, if the writer takes
/// no more.
fn goes_out(alloc: Global, room: usize) -> Result<bool, Fail> {
    let (answer, out) = written_into(alloc, &hello(alloc)?, room)?;
    let written = room as u64;
    let expected = if room == HELLO.len() {
        Ok(written)
    } else {
        Err(WriteFault { written })
    };
    Ok(answer == expected && out.as_slice() == &HELLO[..room.min(HELLO.len())])
}

#[test]
fn counts_what_went_out(rt: HostRuntime) -> Result<(), Fail> {
    for room in 0..=HELLO.len() {
        assert!(rt; goes_out(rt.alloc(), room)?, "{room}");
    }
    Ok(())
}

// A writer that takes none of the bytes it is offered counts as failed, for good.
#[test]
fn tells_a_writer_that_takes_nothing(rt: HostRuntime) -> Result<(), Fail> {
    let hello = hello(rt.alloc())?;
    let mut sink = StdSink::new(IdleWriter);
    let fault = write_message(&hello, Form::Short, None, &mut sink).err();
    assert!(rt; fault == Some(WriteFault { written: 0 }));
    assert!(rt; sink.write(&HELLO) == Err(SinkFault));
    Ok(())
}
