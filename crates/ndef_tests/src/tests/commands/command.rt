//! The output of the command and its status.
use super::faults::{fails_in_turn, run_from};
use crate::samples::HELLO;
use crate::streams::{FullWriter, SlowReader};
use ndef_message::{Sink, SliceSource, StdSink, StdSource};
use ndef_tool::run;
use std::alloc::Global;
use std::test::Fail;

const USAGE: &str =
    "usage: ndef show|check|encode [--hex] [--payload N] [--records N] [--pieces N] [--form short|long] [--chunk N] [--profile strict|standard]\n";

pub(super) fn words(alloc: Global, texts: &[&str]) -> Result<Vec<String>, Fail> {
    let mut words = Vec::new(alloc);
    for text in texts {
        words.push(String::from_str(alloc, text)?)?;
    }
    Ok(words)
}

/// A program's name, and the words of a line.
pub(super) fn texts_of<'a>(
    alloc: Global,
    program: &'a str,
    line: &'a str,
) -> Result<Vec<&'a str>, Fail> {
    let mut texts = Vec::new(alloc);
    texts.push(program)?;
    for text in line.split_whitespace() {
        texts.push(text)?;
    }
    Ok(texts)
}

/// The length of the longest input for which each read and each write fails in turn.
const MOST_IN_TURN: usize = 64;

// What is written, and the status, for bytes that come in two pieces. Where they are few, each read and
// each write fails in turn too.
pub(super) fn ran(
    alloc: Global,
    texts: &[&str],
    bytes: &[u8],
    cut: usize,
) -> Result<(u8, Vec<u8>), Fail> {
    let words = words(alloc, texts)?;
    let cuts = [cut.min(bytes.len())];
    let mut source = SliceSource::new(bytes, &cuts);
    let mut out = Vec::new(alloc);
    let mut sink = StdSink::new(&mut out);
    let status = run(alloc, words.as_slice(), &mut source, &mut sink);
    drop(sink);
    let status = status as u8;
    if bytes.len() <= MOST_IN_TURN && !fails_in_turn(alloc, texts, bytes, status, out.as_slice())? {
        return Err("a fault leaves something else".into());
    }
    Ok((status, out))
}

// What is written, and the status, for the bytes as hexadecimal text.
fn ran_hex(alloc: Global, texts: &[&str], bytes: &[u8], cut: usize) -> Result<(u8, Vec<u8>), Fail> {
    let mut with_hex = Vec::new(alloc);
    for text in texts {
        with_hex.push(*text)?;
    }
    with_hex.push("--hex")?;
    let digits = hex::encode(alloc, bytes)?;
    ran(alloc, with_hex.as_slice(), digits.as_bytes(), cut)
}

// Whether the lines are the digits of what is written.
fn are_digits(alloc: Global, lines: Vec<u8>, out: &[u8]) -> Result<bool, Fail> {
    let mut digits = lines;
    digits.retain(|byte| *byte != b'\n');
    Ok(digits.as_slice() == hex::encode(alloc, out)?.as_bytes())
}

// What `ran` gives, if the same bytes as hexadecimal text give the same status and the same lines, or with `encode`
// the digits of what is written.
pub(super) fn ran_alike(
    alloc: Global,
    texts: &[&str],
    bytes: &[u8],
    cut: usize,
) -> Result<(u8, Vec<u8>), Fail> {
    let (status, out) = ran(alloc, texts, bytes, cut)?;
    let (same_status, lines) = ran_hex(alloc, texts, bytes, cut)?;
    let alike = if texts.iter().any(|text| *text == "encode") {
        are_digits(alloc, lines, out.as_slice())?
    } else {
        lines == out
    };
    if same_status != status || !alike {
        return Err("hexadecimal text is answered otherwise".into());
    }
    Ok((status, out))
}

#[test]
fn checks_with_each_cut(rt: HostRuntime) -> Result<(), Fail> {
    for cut in 0..HELLO.len() {
        let (status, out) = ran(rt.alloc(), &["ndef", "check"], &HELLO, cut)?;
        assert!(rt;
            status == 0 && out.as_slice() == b"message 1 at 0: records 1, bytes 12\n".as_slice()
        );
    }
    Ok(())
}

// `count` copies of the shortest message, and the output of `check` for them.
fn least_messages(alloc: Global, count: u16) -> Result<(Vec<u8>, String), Fail> {
    let mut bytes = Vec::new(alloc);
    let mut text = String::new(alloc);
    for index in 0..count {
        bytes.extend_from_slice(&[0xD0, 0x00, 0x00])?;
        let number = u64::from(index) + 1;
        let at = u64::from(index) * 3;
        let line = format!(in alloc; "message {number} at {at}: records 1, bytes 3\n")?;
        text.push_str(line.as_str())?;
    }
    Ok((bytes, text))
}

fn followed(alloc: Global, text: &str, line: &str) -> Result<String, Fail> {
    let mut all = String::from_str(alloc, text)?;
    all.push_str(line)?;
    Ok(all)
}

/// The status, and the output, where a slow reader gives the bytes and then fails.
fn ran_slowly(
    alloc: Global,
    texts: &[&str],
    bytes: &[u8],
    most: usize,
) -> Result<(u8, Vec<u8>), Fail> {
    let mut source = StdSource::new(SlowReader {
        bytes,
        most,
        fails: true,
    });
    run_from(alloc, texts, &mut source)
}

/// Whether `check`, on a reader that gives the bytes and then fails, prints the text and then the line of the fault.
fn tells_the_fault_after(alloc: Global, bytes: &[u8], text: &str) -> Result<bool, Fail> {
    let (status, out) = ran_slowly(alloc, &["ndef", "check"], bytes, 7)?;
    let faulty = followed(alloc, text, "fault: reading\n")?;
    Ok(status == 3 && out.as_slice() == faulty.as_bytes())
}

/// Whether runs on these messages and one more, which is one more than a run handles, end with status 3 after these.
fn ends_after(alloc: Global, bytes: &[u8], text: &str) -> Result<bool, Fail> {
    let mut more = Vec::new(alloc);
    more.extend_from_slice(bytes)?;
    more.extend_from_slice(&[0xD0, 0x00, 0x00])?;
    let (checked, out) = ran_alike(alloc, &["ndef", "check"], more.as_slice(), 7)?;
    let faulty = followed(alloc, text, "fault: more than 10000 messages\n")?;
    let (encoded, written) = ran_alike(alloc, &["ndef", "encode"], more.as_slice(), 7)?;
    Ok(
        checked == 3
            && out.as_slice() == faulty.as_bytes()
            && encoded == 3
            && written.as_slice() == bytes,
    )
}

#[test]
fn handles_10000_messages(rt: HostRuntime) -> Result<(), Fail> {
    let alloc = rt.alloc();
    let (bytes, text) = least_messages(alloc, 10000)?;
    let (status, out) = ran_alike(alloc, &["ndef", "check"], bytes.as_slice(), 7)?;
    assert!(rt; status == 0 && out.as_slice() == text.as_bytes());
    assert!(rt; tells_the_fault_after(alloc, bytes.as_slice(), text.as_str())?);
    assert!(rt; ends_after(alloc, bytes.as_slice(), text.as_str())?);
    Ok(())
}

/// Words that don't parse; each line follows the program's name.
const NO_WORDS: &str = "
decode
--help
help
check --help
check extra
check --payload 0
check --payload 4294967296
check --payload many
check --records 0
encode --records 65536
check --pieces 65536
check --profile loose
check --form short
encode --form middle
encode --chunk 0
encode --chunk
";

/// Whether the usage line is printed for these words.
fn is_unparsed(alloc: Global, texts: &[&str]) -> Result<bool, Fail> {
    let (status, out) = ran(alloc, texts, &HELLO, 0)?;
    Ok(status == 2 && out.as_slice() == USAGE.as_bytes())
}

/// The same for the words of a line.
fn is_line_unparsed(alloc: Global, line: &str) -> Result<bool, Fail> {
    is_unparsed(alloc, texts_of(alloc, "ndef", line)?.as_slice())
}

#[test]
fn prints_usage(rt: HostRuntime) -> Result<(), Fail> {
    assert!(rt; is_unparsed(rt.alloc(), &[])?);
    for line in NO_WORDS.lines() {
        assert!(rt; is_line_unparsed(rt.alloc(), line)?, "{line}");
    }
    Ok(())
}

/// Whether a run on this text ends with the status and has written the lines.
fn tells(
    alloc: Global,
    texts: &[&str],
    text: &[u8],
    cut: usize,
    answer: (u8, &str),
) -> Result<bool, Fail> {
    let (status, out) = ran(alloc, texts, text, cut)?;
    Ok((status, out.as_slice()) == (answer.0, answer.1.as_bytes()))
}

/// Hexadecimal text, the status, and the output of `check`.
const CHECKED: [(&str, u8, &str); 10] = [
    (
        "d00000 D00000\n",
        0,
        "message 1 at 0: records 1, bytes 3\nmessage 2 at 3: records 1, bytes 3\n",
    ),
    (
        "\t d\r\n0 0000\n",
        0,
        "message 1 at 0: records 1, bytes 3\n",
    ),
    ("", 0, ""),
    (" \n", 0, ""),
    ("d000001", 1, "hex: odd number of digits\n"),
    ("d0g", 1, "hex: odd number of digits\n"),
    ("d0g0", 1, "hex: bad digit at 2\n"),
    (" d 0\n0 g", 1, "hex: bad digit at 3\n"),
    ("d00000\x0b\x0b", 1, "hex: bad digit at 6\n"),
    (
        "d0000051",
        1,
        "message 1 at 0: records 1, bytes 3\nrefused at 3: 2 BeginMissing\n",
    ),
];

#[test]
fn checks_hexadecimal_text(rt: HostRuntime) -> Result<(), Fail> {
    let texts = ["ndef", "check", "--hex"];
    for (text, status, lines) in CHECKED {
        assert!(rt;
            tells(rt.alloc(), &texts, text.as_bytes(), 3, (status, lines))?,
            "{text}"
        );
    }
    Ok(())
}

/// Words, hexadecimal text, the status, and what `encode` writes.
const ENCODED: [(&str, &str, u8, &str); 6] = [
    ("encode --hex", "c50000000000", 0, "d50000\n"),
    ("encode --hex", "d00000d50000", 0, "d00000\nd50000\n"),
    ("encode --form long --hex", "d50000", 0, "c50000000000\n"),
    (
        "encode --chunk 3 --hex",
        "D10108 5402656E 48656C6C6F",
        0,
        "b101035402656e36000348656c5600026c6f\n",
    ),
    ("encode --hex", "d0g0", 1, ""),
    ("encode --hex", "d0000051", 1, "d00000\n"),
];

#[test]
fn encodes_hexadecimal_text(rt: HostRuntime) -> Result<(), Fail> {
    let alloc = rt.alloc();
    for (words, text, status, lines) in ENCODED {
        let texts = texts_of(alloc, "ndef", words)?;
        assert!(rt;
            tells(alloc, texts.as_slice(), text.as_bytes(), 5, (status, lines))?,
            "{text}"
        );
    }
    Ok(())
}

#[test]
fn reads_16777216_bytes_of_text(rt: HostRuntime) -> Result<(), Fail> {
    let alloc = rt.alloc();
    let table = [
        (16777216, 1, "hex: bad digit at 0\n"),
        (16777217, 3, "fault: hexadecimal input too long\n"),
    ];
    for (count, expected, lines) in table {
        let text = vec![in alloc; b'g'; count]?;
        assert!(rt;
            tells(
                alloc,
                &["ndef", "check", "--hex"],
                text.as_slice(),
                9,
                (expected, lines)
            )?
        );
    }
    Ok(())
}

// A message with a payload of 2000000 bytes.
fn large_message(alloc: Global) -> Result<Vec<u8>, Fail> {
    let payload = vec![in alloc; 0x5A; 2000000]?;
    let mut bytes = Vec::new(alloc);
    bytes.extend_from_slice(&[0xC5, 0x00, 0x00, 0x1E, 0x84, 0x80])?;
    bytes.extend_from_slice(payload.as_slice())?;
    Ok(bytes)
}

// Whether a run that reads the bytes through a `StdSource` writes the wanted ones.
fn passes(alloc: Global, action: &str, bytes: &[u8], expected: &[u8]) -> Result<bool, Fail> {
    let texts = ["ndef", action, "--payload", "2000000"];
    let mut source = StdSource::new(bytes);
    let (status, out) = run_from(alloc, &texts, &mut source)?;
    Ok(status == 0 && out.as_slice() == expected)
}

// What comes and goes in many parts is neither cut nor changed.
#[test]
fn passes_2_megabytes(rt: HostRuntime) -> Result<(), Fail> {
    let alloc = rt.alloc();
    let bytes = large_message(alloc)?;
    let bytes = bytes.as_slice();
    let line = b"message 1 at 0: records 1, bytes 2000006\n";
    assert!(rt; passes(alloc, "check", bytes, line)?);
    assert!(rt; passes(alloc, "encode", bytes, bytes)?);
    Ok(())
}

#[test]
fn tells_a_reading_fault(rt: HostRuntime) -> Result<(), Fail> {
    let table: [(&[&str], &[u8], &str); 3] = [
        (&["ndef", "check"], &HELLO[..5], "fault: reading\n"),
        (&["ndef", "encode"], &HELLO[..5], ""),
        (&["ndef", "check", "--hex"], b"d00000", "fault: reading\n"),
    ];
    for (texts, bytes, text) in table {
        let (status, out) = ran_slowly(rt.alloc(), texts, bytes, 4)?;
        assert!(rt; status == 3 && out.as_slice() == text.as_bytes(), "{text}");
    }
    Ok(())
}

/// Returns the status and the output, if the writer takes `room` bytes and then fails for good.
fn ran_into(alloc: Global, action: &str, bytes: &[u8], room: usize) -> Result<(u8, Vec<u8>), Fail> {
    let words = words(alloc, &["ndef", action])?;
    let mut source = SliceSource::new(bytes, &[]);
    let mut out = Vec::new(alloc);
    let mut sink = StdSink::new(FullWriter {
        out: &mut out,
        room,
    });
    let status = run(alloc, words.as_slice(), &mut source, &mut sink);
    let fails = sink.write(b"more").is_err();
    drop(sink);
    if !fails {
        return Err("the sink takes more".into());
    }
    Ok((status as u8, out))
}

#[test]
fn tells_a_writing_fault(rt: HostRuntime) -> Result<(), Fail> {
    let two = [HELLO, HELLO];
    for room in 0..24 {
        let (status, out) = ran_into(rt.alloc(), "encode", two.as_flattened(), room)?;
        assert!(rt;
            status == 3 && out.as_slice() == &two.as_flattened()[..room],
            "{room}"
        );
    }
    Ok(())
}

// The line of the ending is cut where the writer fails in it.
#[test]
fn tells_a_writing_fault_at_the_end(rt: HostRuntime) -> Result<(), Fail> {
    let (status, out) = ran_into(rt.alloc(), "check", &[0xF5], 7)?;
    assert!(rt; status == 3 && out.as_slice() == b"refused".as_slice());
    Ok(())
}
