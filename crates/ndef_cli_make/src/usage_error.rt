//! The usage errors of the words of a record.
ghost use Rattle.std.specs.Prelude.{◌≡◌, ◌≤◌, ◌+◌, ◌++◌, length};
ghost use Rattle.ndef_cli_make.specs.UsageErrors.{usage_error_text, usage_error_words, usage_at, usage_line};

use ndef_cli::Line;

/// A fault of the words of a record.
#[derive(Clone, Copy, Debug, PartialEq, Eq)]
pub enum UsageError {
    /// They are none of the program's words, or one is missing.
    Words,
    /// There is no such tag.
    Tag,
    /// Two payloads, or one and the message that is edited, are standard input.
    TwoReaders,
    /// A payload is given twice.
    TwoPayloads,
    /// The payload isn't in hexadecimal digits.
    Digits,
    /// There is no such type name format of a record (NDEF 1.0, TNF).
    Tnf,
    /// A media type has no slash, or nothing before it or after it (RFC 2046).
    MediaType,
    /// An external type has no colon after its domain, or nothing before it or after it (NDEF 1.0, TNF 4).
    ExternalType,
    /// A package has no name.
    Package,
    /// There is no such carrier type format (Connection Handover 1.2, Handover Carrier record).
    Format,
    /// A title has no language (RTD Smart Poster 1.0).
    Title,
    /// There is no such action (RTD Smart Poster 1.0).
    Action,
    /// A size is no number below 2^32 (RTD Smart Poster 1.0).
    Size,
    /// An icon has no type, or a type has no icon (RTD Smart Poster 1.0).
    Icon,
    /// The type of an icon is no media type (RFC 2046).
    IconType,
    /// The kind, the version and the options of a handover don't go together (Connection Handover 1.2).
    Handover,
    /// The word of a carrier names no power state or no reference, or has another key (Connection Handover 1.2).
    Carrier,
    /// A URI has a character from 0 to 31, so that readers discard it (RTD URI 1.0, URI field).
    Control,
    /// A language code is empty (RTD Text 1.0).
    NoLanguage,
    /// Two titles are in one language (RTD Smart Poster 1.0).
    TwoTitles,
    /// A request has no alternative carrier (Connection Handover 1.2).
    NoCarrier,
    /// The random number isn't below 2^16 (Connection Handover 1.2).
    Collision,
    /// There is no such reason of an error, or its data aren't in hexadecimal digits (Connection Handover 1.2).
    Reason,
    /// The file of the message that is edited has no name.
    From,
    /// An edit has no number, or words after it that are none.
    Edit,
    /// The message that is edited has no record of the number of an edit; its last record has the other number.
    NoSuchRecord(u32, u64),
    /// Two edits have the same number.
    Twice,
}

impl UsageError {
    /// Returns the fault in words; a number follows those about a record that there isn't.
    fn text(self) -> &'static [u8]
        ensures value { result.now ≡ usage_error_words self }
        ensures room { length result.now ≤ 100 }
    {
        match self {
            UsageError::Words => b"words that do not parse",
            UsageError::Tag => b"--tag: ntag213, ntag215, ntag216 or a number of bytes",
            UsageError::TwoReaders => b"standard input is one payload, or the message of --from",
            UsageError::TwoPayloads => b"--payload and --file: a record has one payload",
            UsageError::Digits => b"--payload: an even number of hexadecimal digits",
            UsageError::Tnf => b"--tnf: a number from 0 to 5",
            UsageError::MediaType => b"TYPE: a type, a slash and a subtype, as image/png",
            UsageError::ExternalType => b"TYPE: a domain, a colon and a name, as example.com:a",
            UsageError::Package => b"PACKAGE: the name of a package, as com.example",
            UsageError::Format => b"--format: a number from 0 to 7",
            UsageError::Title =>
                b"--title: a language code, an equals sign and a text, as en=Hello",
            UsageError::Action => b"--action: do, save or open",
            UsageError::Size => b"--size: a number from 0 to 4294967295",
            UsageError::Icon => b"--icon and --icon-type: both or neither",
            UsageError::IconType => b"--icon-type: a type, a slash and a subtype, as image/png",
            UsageError::Handover => {
                b"a request has a --collision and no --error, a select no --collision; versions are 1.0 to 1.15"
            }
            UsageError::Carrier => {
                b"--carrier: as active=a,b or as power=active,ref=a,aux=b; inactive, active, activating or unknown"
            }
            UsageError::Control => b"URI: no character from 0 to 31; --unchecked writes it",
            UsageError::NoLanguage => b"an empty language code; --unchecked writes it",
            UsageError::TwoTitles => b"--title: one for each language; --unchecked writes more",
            UsageError::NoCarrier => b"a request has a --carrier; --unchecked writes it without",
            UsageError::Collision => b"--collision: a number from 0 to 65535",
            UsageError::Reason => {
                b"--error: a number from 0 to 255, a colon and hexadecimal digits, as 1:05"
            }
            UsageError::From => b"--from: the name of a file; - is standard input",
            UsageError::Edit => {
                b"--drop N, or --replace N and a record: N is the number of a record of --from"
            }
            UsageError::NoSuchRecord(_, _) => b"the message of --from has no record ",
            UsageError::Twice => b"a record of --from is dropped or replaced once at most",
        }
    }
}

/// Appends what is wrong, in words.
fn push_usage_error(line: &mut Line, usage_error: UsageError)
    requires { length line.old ≤ 60 }
    ensures text { line.new ≡ line.old ++ usage_error_text usage_error }
    ensures room { length line.new ≤ length line.old + 160 }
{
    line.push(usage_error.text());
    if let UsageError::NoSuchRecord(number, last) = usage_error {
        line.push_number(u64::from(number));
        line.push(b": its last is ");
        line.push_number(last);
    }
}

/// Returns the output for words that are wrong.
pub(crate) fn usage_line(usage_error: UsageError) -> Line
    ensures { result ≡ usage_line usage_error }
{
    let mut line = Line::new();
    line.push(b"usage: ");
    push_usage_error(&mut line, usage_error);
    line.push(b"\n");
    line
}

/// Returns the output for words of the record or edit of this number that are wrong.
pub(crate) fn usage_at(part: &[u8], number: u64, usage_error: UsageError) -> Line
    requires { length part.now ≤ 20 }
    ensures { result ≡ usage_at part.now number usage_error }
{
    let mut line = Line::new();
    line.push(b"usage: ");
    line.push(part);
    line.push_number(number);
    line.push(b": ");
    push_usage_error(&mut line, usage_error);
    line.push(b"\n");
    line
}
