//! The output of the program `ndef-make`, and the output of `show` for it.
ghost use Rattle.std.specs.Prelude.{⊤};

use super::command::{ran, texts_of, words};
use crate::lines::octets_of;
use ndef_cli::Inputs;
use ndef_cli_make::{read_input, run};
use ndef_message::{InputError, SliceSource, StdSink};
use std::alloc::Global;
use std::test::Fail;

/// Standard input, which holds these bytes, and no file.
#[derive(Drop)]
pub(super) struct StandardInput<'a> {
    pub(super) bytes: &'a [u8],
}

impl<'a> Inputs for StandardInput<'a> {
    ghost gives = { λ _ _ _ _. ⊤ };

    fn read(&mut self, alloc: Global, name: &str) -> Result<Vec<u8>, InputError> {
        if name == "-" {
            read_input(alloc, &mut SliceSource::whole(self.bytes))
        } else {
            Err(InputError::ReadFault)
        }
    }
}

/// The outcome of a run: its status, what was written, and what was reported.
#[derive(Drop)]
struct Outcome {
    status: u8,
    bytes: Vec<u8>,
    lines: Vec<u8>,
}

/// Runs the program on an input, and writes to a terminal or not.
fn run_on(alloc: Global, texts: &[&str], terminal: bool, input: &[u8]) -> Result<Outcome, Fail> {
    let words = words(alloc, texts)?;
    let mut inputs = StandardInput { bytes: input };
    let mut bytes = Vec::new(alloc);
    let mut lines = Vec::new(alloc);
    let mut sink = StdSink::new(&mut bytes);
    let mut reported = StdSink::new(&mut lines);
    let status = run(
        alloc,
        words.as_slice(),
        terminal,
        &mut inputs,
        &mut sink,
        &mut reported,
    );
    drop(sink);
    drop(reported);
    Ok(Outcome {
        status: status as u8,
        bytes,
        lines,
    })
}

/// The same for the words of a line.
fn run_line(alloc: Global, line: &str, input: &[u8]) -> Result<Outcome, Fail> {
    run_on(
        alloc,
        texts_of(alloc, "ndef-make", line)?.as_slice(),
        false,
        input,
    )
}

/// Whether a run ends with the status, has written nothing and has reported the text.
fn tells(alloc: Global, line: &str, input: &[u8], status: u8, text: &str) -> Result<bool, Fail> {
    let none = run_line(alloc, line, input)?;
    let same = none.lines.as_slice() == text.as_bytes();
    Ok(none.status == status && none.bytes.is_empty() && same)
}

/// The words, the input, the digits that are written with `--hex`, and the output of `show` for the bytes.
const WRITTEN: [(&str, &[u8], &str, &str); 23] = [
    (
        "text Hello",
        b"",
        "d101085402656e48656c6c6f",
        "message 1 at 0: records 1, bytes 12\n 1 tnf 1 type \"T\" id \"\" payload 8 text utf-8 \"en\" \"Hello\"\n",
    ),
    (
        "text --language de-AT Servus",
        b"",
        "d1010c540564652d4154536572767573",
        "message 1 at 0: records 1, bytes 16\n 1 tnf 1 type \"T\" id \"\" payload 12 text utf-8 \"de-AT\" \"Servus\"\n",
    ),
    (
        "text --utf16 a",
        b"",
        "d101075482656efeff0061",
        "message 1 at 0: records 1, bytes 11\n 1 tnf 1 type \"T\" id \"\" payload 7 text utf-16 \"en\" \"a\"\n",
    ),
    (
        "text --unchecked --language= -- --hex",
        b"",
        "d1010654002d2d686578",
        "message 1 at 0: records 1, bytes 10\n 1 tnf 1 type \"T\" id \"\" payload 6 text utf-8 \"\" \"--hex\"\n",
    ),
    (
        "uri http://www.example.com",
        b"",
        "d1010c55016578616d706c652e636f6d",
        "message 1 at 0: records 1, bytes 16\n 1 tnf 1 type \"U\" id \"\" payload 12 uri \"http://www.example.com\"\n",
    ),
    (
        "uri urn:epc:id:1",
        b"",
        "d10102551e31",
        "message 1 at 0: records 1, bytes 6\n 1 tnf 1 type \"U\" id \"\" payload 2 uri \"urn:epc:id:1\"\n",
    ),
    (
        "record --tnf 2 --type a/b --id x",
        b"123",
        "da030301612f6278313233",
        "message 1 at 0: records 1, bytes 11\n 1 tnf 2 type \"a/b\" id \"x\" payload 3 other\n",
    ),
    (
        "record --tnf 0",
        b"",
        "d00000",
        "message 1 at 0: records 1, bytes 3\n 1 tnf 0 type \"\" id \"\" payload 0 other\n",
    ),
    (
        "record --tnf 5",
        b"1",
        "d5000131",
        "message 1 at 0: records 1, bytes 4\n 1 tnf 5 type \"\" id \"\" payload 1 other\n",
    ),
    (
        "record --tnf 1 --type U",
        b"\x02a",
        "d10102550261",
        "message 1 at 0: records 1, bytes 6\n 1 tnf 1 type \"U\" id \"\" payload 2 uri \"https://www.a\"\n",
    ),
    (
        "record --tnf 1 --type Hs",
        b"\x12",
        "d10201487312",
        "message 1 at 0: records 1, bytes 6\n 1 tnf 1 type \"Hs\" id \"\" payload 1 select version 1.2 carriers 0\n",
    ),
    (
        "record --tnf 1 --type act",
        b"\xff\xff",
        "d10302616374ffff",
        "message 1 at 0: records 1, bytes 8\n 1 tnf 1 type \"act\" id \"\" payload 2 other\n",
    ),
    (
        "carrier --format 2 --type a/b --id 0",
        b"12",
        "d90207014863300203612f623132",
        "message 1 at 0: records 1, bytes 14\n 1 tnf 1 type \"Hc\" id \"0\" payload 7 carrier format 2 type \"a/b\" data 2\n",
    ),
    (
        "carrier --format 7 --type= --and uri a",
        b"",
        "91020248630700510102550061",
        "message 1 at 0: records 2, bytes 13\n 1 tnf 1 type \"Hc\" id \"\" payload 2 carrier format 7 type \"\" data 0\n 2 tnf 1 type \"U\" id \"\" payload 2 uri \"a\"\n",
    ),
    (
        "uri a --and uri tel:1",
        b"",
        "910102550061510102550531",
        "message 1 at 0: records 2, bytes 12\n 1 tnf 1 type \"U\" id \"\" payload 2 uri \"a\"\n 2 tnf 1 type \"U\" id \"\" payload 2 uri \"tel:1\"\n",
    ),
    (
        "uri a --and record --tnf 4 --type x --and text b",
        b"1",
        "91010255006114010178315101045402656e62",
        "message 1 at 0: records 3, bytes 19\n 1 tnf 1 type \"U\" id \"\" payload 2 uri \"a\"\n 2 tnf 4 type \"x\" id \"\" payload 1 other\n 3 tnf 1 type \"T\" id \"\" payload 4 text utf-8 \"en\" \"b\"\n",
    ),
    (
        "poster http://www.a --media text/plain --size 258 --title en=A --action save --title de=B=C",
        b"",
        "d1023553709101025501611101045402656e4111010654026465423d4311030161637401110104730000010251010a74746578742f706c61696e",
        "message 1 at 0: records 1, bytes 58\n 1 tnf 1 type \"Sp\" id \"\" payload 53 poster records 6 uri \"http://www.a\" titles 2 action save size 258 media \"text/plain\"\n",
    ),
    (
        "poster a --action do --size 0",
        b"",
        "d102155370910102550061110301616374005101047300000000",
        "message 1 at 0: records 1, bytes 26\n 1 tnf 1 type \"Sp\" id \"\" payload 21 poster records 3 uri \"a\" titles 0 action do size 0 media none\n",
    ),
    (
        "poster a --action open --size 4294967295",
        b"",
        "d1021553709101025500611103016163740251010473ffffffff",
        "message 1 at 0: records 1, bytes 26\n 1 tnf 1 type \"Sp\" id \"\" payload 21 poster records 3 uri \"a\" titles 0 action open size 4294967295 media none\n",
    ),
    (
        "poster a",
        b"",
        "d102065370d10102550061",
        "message 1 at 0: records 1, bytes 11\n 1 tnf 1 type \"Sp\" id \"\" payload 6 poster records 1 uri \"a\" titles 0 action none size none media none\n",
    ),
    (
        "handover select --carrier active=0 --and record --tnf 2 --type a/b --id 0",
        b"12",
        "91020a487312d102046163010130005a030201612f62303132",
        "message 1 at 0: records 2, bytes 25\n 1 tnf 1 type \"Hs\" id \"\" payload 10 select version 1.2 carriers 1\n 2 tnf 2 type \"a/b\" id \"0\" payload 2 other\n carrier 1 power active reference \"0\" record 2\n",
    ),
    (
        "handover request --carrier unknown=0,0 --version 1.3 --collision 258 --and carrier --format 2 --type a/b --id 0",
        b"12",
        "910213487213910202637201025102066163030130010130590207014863300203612f623132",
        "message 1 at 0: records 2, bytes 38\n 1 tnf 1 type \"Hr\" id \"\" payload 19 request version 1.3 carriers 1\n 2 tnf 1 type \"Hc\" id \"0\" payload 7 carrier format 2 type \"a/b\" data 2\n carrier 1 power unknown reference \"0\" record 2\n",
    ),
    (
        "handover select --error 2:00000100 --version 1.15",
        b"",
        "d1020c48731fd103056572720200000100",
        "message 1 at 0: records 1, bytes 17\n 1 tnf 1 type \"Hs\" id \"\" payload 12 select version 1.15 carriers 0\n",
    ),
];

/// Whether a run writes these bytes and reports nothing.
fn writes(alloc: Global, line: &str, input: &[u8], bytes: &[u8]) -> Result<bool, Fail> {
    let plain = run_line(alloc, line, input)?;
    Ok(plain.status == 0 && plain.bytes.as_slice() == bytes && plain.lines.is_empty())
}

/// Whether `show` prints this of the bytes.
fn shows(alloc: Global, bytes: &[u8], shown: &str) -> Result<bool, Fail> {
    let (status, lines) = ran(alloc, &["ndef", "show"], bytes, 5)?;
    Ok(status == 0 && lines.as_slice() == shown.as_bytes())
}

#[test]
fn makes_what_is_shown(rt: HostRuntime) -> Result<(), Fail> {
    let alloc = rt.alloc();
    for (line, input, digits, shown) in WRITTEN {
        let bytes = octets_of(alloc, digits)?;
        assert!(rt; writes(alloc, line, input, bytes.as_slice())?, "{line}");
        assert!(rt; shows(alloc, bytes.as_slice(), shown)?, "{line}");
    }
    Ok(())
}

// The flag may occur in any of the parts.
#[test]
fn makes_hexadecimal_text(rt: HostRuntime) -> Result<(), Fail> {
    for line in [
        "text --hex Hello --and uri a",
        "text Hello --and uri --hex a",
        "text Hello --hex --and uri a --hex",
    ] {
        let text = b"9101085402656e48656c6c6f510102550061\n";
        assert!(rt; writes(rt.alloc(), line, b"", text)?, "{line}");
    }
    Ok(())
}

/// The note that explains why digits are written to a terminal.
const NOTE: &str =
    "standard output is a terminal: writing hexadecimal digits; --raw writes the bytes\n";

/// Words, what a run with them writes to a terminal, and what it reports.
const ON_A_TERMINAL: [(&str, &[u8], &str); 4] = [
    ("uri a", b"d10102550061\n", NOTE),
    ("uri a --hex", b"d10102550061\n", ""),
    ("uri a --raw", b"\xd1\x01\x02U\0a", ""),
    ("uri a --hex --raw", b"d10102550061\n", ""),
];

#[test]
fn writes_digits_to_a_terminal(rt: HostRuntime) -> Result<(), Fail> {
    let alloc = rt.alloc();
    for (line, text, note) in ON_A_TERMINAL {
        let words = texts_of(alloc, "ndef-make", line)?;
        let outcome = run_on(alloc, words.as_slice(), true, b"")?;
        let reported = outcome.lines.as_slice() == note.as_bytes();
        assert!(rt;
            outcome.status == 0 && outcome.bytes.as_slice() == text && reported,
            "{line}"
        );
    }
    Ok(())
}

#[test]
fn prints_pages(rt: HostRuntime) -> Result<(), Fail> {
    let alloc = rt.alloc();
    assert!(rt; writes(alloc, "--version", b"", b"ndef-make 1.1.0.dev\n")?);
    let help = run_line(alloc, "--help", b"")?;
    let begins = help
        .bytes
        .as_slice()
        .starts_with(b"ndef-make writes a message");
    assert!(rt; help.status == 0 && help.lines.is_empty() && begins);
    Ok(())
}

/// Words that don't parse.
const NO_WORDS: &str = "

--hex
help
--version --hex
show
text
text a b
text --utf16=1 a
text --language
uri
uri --language de a
poster
poster a --title x
poster a --action dance
poster a --size x
poster a --size 4294967296
poster a --media x --media y
record
record --tnf 6
record --tnf 7
record --tnf x
record --type x
record --tnf 5 payload
text a --and
--and text a
text a --and --and text b
record --tnf 5 --and record --tnf 5
record --tnf 5 --and carrier --format 2 --type x
handover
handover offer
handover request
handover request --collision 65536
handover request --collision 1 --error 1:00
handover select --collision 1
handover select --version 1.16
handover select --version 2.0
handover select --carrier on=0
handover select --carrier 0
handover select --error 256:00
handover select --error 1:0
handover select --error 1
carrier --format 8 --type x
carrier --format 2
carrier --type x
media png
external a
record --tnf 5 --payload 0
record --tnf 5 --payload 00 --file a
poster a --icon-type a/b
text --language= a
poster a --title en=b --title en=c
handover request --collision 1
";

#[test]
fn tells_usage(rt: HostRuntime) -> Result<(), Fail> {
    for line in NO_WORDS.lines() {
        let none = run_line(rt.alloc(), line, b"")?;
        let reported = none.lines.as_slice().starts_with(b"usage: ");
        assert!(rt;
            none.status == 2 && none.bytes.is_empty() && reported,
            "{line}"
        );
    }
    Ok(())
}

/// Words that ask for what can't be made, the input, and the line that is reported.
const REFUSED: [(&str, &[u8], &str); 20] = [
    (
        "text --language \u{e9} a",
        b"",
        "refused: a language code that is not ASCII\n",
    ),
    (
        "text --language 0123456789012345678901234567890123456789012345678901234567890123 a",
        b"",
        "refused: a language code of more than 63 bytes\n",
    ),
    (
        "poster a --title \u{e9}=x",
        b"",
        "refused: a language code that is not ASCII\n",
    ),
    (
        "uri a --and record --tnf 0",
        b"1",
        "refused: parts that do not go with the type name format\n",
    ),
    (
        "record --tnf 5 --type x",
        b"",
        "refused: parts that do not go with the type name format\n",
    ),
    (
        "record --tnf 1",
        b"",
        "refused: parts that do not go with the type name format\n",
    ),
    (
        "record --tnf 1 --type U",
        b"",
        "refused: payload at 0: 23 DoesNotFit\n",
    ),
    (
        "text a --and record --tnf 1 --type U --hex",
        b"\xff\xff",
        "refused: payload at 0: 19 UriCode\n",
    ),
    (
        "record --tnf 1 --type U",
        b"\x01a\xff",
        "refused: payload at 2: 17 Utf8\n",
    ),
    (
        "record --tnf 1 --type T",
        b"\xff\xff",
        "refused: payload at 0: 15 TextBit\n",
    ),
    (
        "record --tnf 1 --type Sp",
        b"\xff\xff",
        "refused: payload at 0: 23 DoesNotFit\n",
    ),
    (
        "record --tnf 1 --type Sp",
        b"\xd1\x01\x04Taaaa",
        "refused: payload at 3: 20 UriMissing\n",
    ),
    (
        "record --tnf 1 --type Hr",
        b"\xff\xff",
        "refused: payload at 0: 23 DoesNotFit\n",
    ),
    (
        "record --tnf 1 --type Hs",
        b"\xff",
        "refused: payload at 0: 22 Version\n",
    ),
    (
        "record --tnf 1 --type Hc",
        b"\xff\xff",
        "refused: payload at 1: 23 DoesNotFit\n",
    ),
    (
        "handover select --error 1:0000",
        b"",
        "refused: data that do not go with the reason of an error\n",
    ),
    (
        "handover select --carrier active=0 --carrier inactive=1 --and record --tnf 5 --id 0",
        b"",
        "refused: no record has the id \"1\"\n",
    ),
    (
        "record --tnf 5 --id a --and handover request --collision 0 --carrier active=a,b",
        b"",
        "refused: no record has the id \"b\"\n",
    ),
    (
        "handover select --carrier active=",
        b"",
        "refused: no record has the id \"\"\n",
    ),
    (
        "handover select --carrier active=0,,1 --and record --tnf 5 --id 0",
        b"",
        "refused: no record has the id \"\"\n",
    ),
];

/// Words that ask for a record whose payload isn't one of its type, the input, and the bytes that are written.
const UNCHECKED: [(&str, &[u8], &[u8]); 3] = [
    ("record --tnf 1 --type U --unchecked", b"", b"\xd1\x01\0U"),
    (
        "record --unchecked --tnf 1 --type Hc --id 0",
        b"\xff\xff",
        b"\xd9\x02\x02\x01Hc0\xff\xff",
    ),
    (
        "uri a --and record --tnf 1 --type T --unchecked",
        b"\xff",
        b"\x91\x01\x02U\0aQ\x01\x01T\xff",
    ),
];

#[test]
fn writes_what_is_not_checked(rt: HostRuntime) -> Result<(), Fail> {
    let alloc = rt.alloc();
    for (line, input, bytes) in UNCHECKED {
        assert!(rt; writes(alloc, line, input, bytes)?, "{line}");
        let (status, _) = ran(alloc, &["ndef", "show"], bytes, 5)?;
        assert!(rt; status == 1, "{line}");
    }
    Ok(())
}

#[test]
fn tells_what_is_refused(rt: HostRuntime) -> Result<(), Fail> {
    for (line, input, text) in REFUSED {
        assert!(rt; tells(rt.alloc(), line, input, 1, text)?, "{line}");
    }
    Ok(())
}
