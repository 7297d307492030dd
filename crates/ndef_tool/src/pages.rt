//! The pages about the program itself.
use ndef_cli::Page;

/// The text of a page.
pub(crate) fn page_text(page: Page) -> &'static [u8] {
    match page {
        Page::Help => HELP,
        Page::Version => b"ndef 1.1.0.dev\n",
    }
}

/// The description of the program, its words, and examples.
const HELP: &[u8] = b"\
ndef shows, checks and rewrites messages of the NFC Data Exchange Format.

Usage: ndef show [OPTION].. [FILE]..
       ndef check [OPTION].. [FILE]..
       ndef encode [OPTION].. [FILE]..

Without a FILE, and for the FILE -, it reads standard input.

  show                print each message, its records and its carriers
  check               print the length of each message, or the first error
  encode              write each message again in its shortest form

  --hex               the input is hexadecimal text
  --payload N         the most bytes of a payload, 1 to 4294967295; by default 1048576
  --records N         the most records of a message, 1 to 65535; by default 1024
  --pieces N          the most chunks of a record, 1 to 65535; by default 4096
  --chunks N          another name of --pieces
  --profile P         strict, the default, refuses reserved values;
                      standard reads them as the standard says
  --form F            of encode: short, the default, or long lengths of payloads
  --chunk N           of encode: cut payloads into chunks of N bytes

An input has at most 10000 messages.

Alone:

  --help              print this page on standard error; so does -h
  --version           print the name and the version; so does -V

Examples:

  ndef show tag.bin
  ndef check *.bin
  echo d101085402656e48656c6c6f | ndef show --hex
";
