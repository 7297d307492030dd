//! The pages about the program itself.
ghost use Rattle.std.specs.Prelude.{◌≡◌};
ghost use Rattle.ndef_cli_explain.specs.Pages.{page_text};

use ndef_cli::Page;

/// The text of a page.
pub(crate) fn page_text(page: Page) -> &'static [u8]
    ensures { result.now ≡ page_text page }
{
    match page {
        Page::Help => HELP,
        Page::Version => VERSION,
    }
}

/// The name and the version.
pub(crate) const VERSION: &[u8] = b"ndef-explain 1.1.0.dev\n";

/// The description of the program, its words, and examples.
pub(crate) const HELP: &[u8] = b"\
ndef-explain prints each byte of messages of the NFC Data Exchange Format, with the
field to which it belongs and what the field says.

Usage: ndef-explain [OPTION].. [FILE]..

Without a FILE, and for the FILE -, it reads standard input.

  --hex               the input is hexadecimal text
  --payload N         the most bytes of a payload, 1 to 4294967295; by default 1048576
  --records N         the most records of a message, 1 to 65535; by default 1024
  --pieces N          the most chunks of a record, 1 to 65535; by default 4096
  --chunks N          another name of --pieces
  --profile P         strict, the default, refuses reserved values;
                      standard reads them as the standard says
  --color WHEN        always, never, or auto, the default: in colour where output is a
                      terminal and NO_COLOR isn't set
  --json              print an object in JSON in a line for each message
  --utf8              print printable UTF-8 as itself, and not as \\xHH
  --characters        print the bytes as characters too, a dot for one that isn't
                      printable ASCII
  --raw               write the bytes of the input as they are; with --hex those
                      that its text spells
  --record N          with --raw, write only the payload of record N of the input,
                      1 to 4294967295

Alone:

  --help              print this page
  --version           print the name and the version

Examples:

  ndef-explain tag.bin
  ndef-make text Hello | ndef-explain
  echo d101085402656e48656c6c6f | ndef-explain --hex
  ndef-explain --raw --record 1 tag.bin >payload.bin
";
