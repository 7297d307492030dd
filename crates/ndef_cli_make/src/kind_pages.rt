//! The pages about the kinds of records.
ghost use Rattle.std.specs.Prelude.{◌≡◌};
ghost use Rattle.ndef_cli_make.specs.Pages.{kind_page};

use crate::options::Subject;

/// The page of a kind of record: its words, their ranges, and what holds without them.
pub(crate) fn kind_page(kind: Subject) -> &'static [u8]
    ensures { result.now ≡ kind_page kind }
{
    let page = match kind {
        Subject::Text => TEXT,
        Subject::Uri => URI,
        Subject::Poster => POSTER,
        Subject::Handover => HANDOVER,
        Subject::Record => RECORD,
        Subject::Media => MEDIA,
        Subject::External => EXTERNAL,
        Subject::App => APP,
        Subject::Carrier => CARRIER,
    };
    page.as_bytes()
}

/// A page: its front, the options of a payload where the record is made of one, those of every record, and an example.
macro_rules! page {
    ($front:literal, payload, $example:literal) => {
        page!(
            $front,
            "\
  --file FILE         the file that holds the payload, at most 1048576 bytes;
                      without it, or for -: standard input
  --payload DIGITS    the payload in hexadecimal digits, instead of a file
",
            $example
        )
    };
    ($front:literal, $example:literal) => {
        page!($front, "", $example)
    };
    ($front:literal, $payload:literal, $example:literal) => {
        concat!(
            $front,
            $payload,
            "
Options of every RECORD:

  --id I              the id of the record, at most 255 bytes; without it: none
  --unchecked         write what readers refuse or a standard forbids, too
  --hex               write hexadecimal digits and a newline; without --hex and
                      --raw: to a terminal only
  --raw               write bytes; without it: to all but a terminal

Example:

",
            $example,
            "
Other RECORDs, and the options around them: ndef-make --help
"
        )
    };
}

/// The page about a text.
const TEXT: &str = page!(
    "\
A text record (RTD Text 1.0).

Usage: ndef-make text [OPTION].. TEXT

  TEXT                the text
  --language L        the code of its language, 1 to 63 bytes of ASCII; without
                      it: en
  --utf16             encode it in UTF-16; without it: UTF-8
",
    "  ndef-make text --language de Hallo > tag.bin\n"
);

/// The page about a URI.
const URI: &str = page!(
    "\
A URI record, abbreviated by the longest prefix that begins it (RTD URI 1.0).

Usage: ndef-make uri [OPTION].. URI

  URI                 the URI, without characters from 0 to 31
",
    "  ndef-make uri http://www.example.com > tag.bin\n"
);

/// The page about a smart poster.
const POSTER: &str = page!(
    "\
A smart poster of a URI (RTD Smart Poster 1.0).

Usage: ndef-make poster [OPTION].. URI

  URI                 the URI, without characters from 0 to 31
  --title L=TEXT      a title in the language with the code L, 1 to 63 bytes of
                      ASCII; may be repeated in other languages; without it:
                      none
  --action A          what to do with the URI: do, save or open; without it:
                      none is said
  --size N            the size in bytes of what the URI leads to, 0 to
                      4294967295; without it: none is said
  --media TYPE        the media type of what the URI leads to; without it: none
                      is said
  --icon FILE         the file of an icon, at most 1048576 bytes, or - for
                      standard input; without it: none
  --icon-type TYPE    the media type of the icon, at most 255 bytes, which has
                      to be given with --icon
",
    "  ndef-make poster http://www.example.com --title en=Example > tag.bin\n"
);

/// The page about a handover.
const HANDOVER: &str = page!(
    "\
A handover request or select (Connection Handover 1.2). The record of each of
its carriers is a RECORD of its own, with the id to which the carrier refers.

Usage: ndef-make handover request --collision N --carrier P=I,.. [OPTION]..
       ndef-make handover select [OPTION]..

  --version 1.M       the version, 1.0 to 1.15; without it: 1.2
  --collision N       of a request, which needs it: its random number, 0 to
                      65535
  --carrier P=I,..    a carrier: its power (inactive, active, activating,
                      unknown), the id of its record and those of at most 255
                      auxiliary records; may be repeated; a request has one or
                      more, a select may have none
  --carrier power=P,ref=I,aux=I,..
                      the same by keys, in any order
  --error R:DATA      of a select: the reason of an error, 0 to 255, and its
                      data in hexadecimal digits; without it: none
",
    "  ndef-make handover select --carrier active=0 --and app a --id 0 > tag.bin\n"
);

/// The page about a record of given parts.
const RECORD: &str = page!(
    "\
A record of any type (NDEF 1.0).

Usage: ndef-make record --tnf N [OPTION]..

  --tnf N             the type name format: 0 empty, 1 of the NFC Forum, 2 of a
                      media type, 3 a URI, 4 external, 5 unknown
  --type T            the type, at most 255 bytes; without it: none
",
    payload,
    "  printf 123 | ndef-make record --tnf 2 --type a/b --id x > tag.bin\n"
);

/// The page about a record of a media type.
const MEDIA: &str = page!(
    "\
A record of a media type (NDEF 1.0, TNF 2).

Usage: ndef-make media [OPTION].. TYPE

  TYPE                the media type, which has a slash, at most 255 bytes
",
    payload,
    "  printf 123 | ndef-make media text/plain > tag.bin\n"
);

/// The page about a record of an external type.
const EXTERNAL: &str = page!(
    "\
A record of an external type (NDEF 1.0, TNF 4).

Usage: ndef-make external [OPTION].. DOMAIN:NAME

  DOMAIN:NAME         the type: a domain, a colon and a name, at most 255 bytes
",
    payload,
    "  ndef-make external example.com:a --payload 313233 > tag.bin\n"
);

/// The page about an application record.
const APP: &str = page!(
    "\
An Android application record: the external type android.com:pkg, whose payload
is the name of a package.

Usage: ndef-make app [OPTION].. PACKAGE

  PACKAGE             the name of the package
",
    "  ndef-make uri http://www.example.com --and app com.example > tag.bin\n"
);

/// The page about a handover carrier.
const CARRIER: &str = page!(
    "\
A handover carrier (Connection Handover 1.2). Its data is its payload.

Usage: ndef-make carrier --format N --type T [OPTION]..

  --format N          the carrier type format, 0 to 7
  --type T            the carrier type, at most 255 bytes
",
    payload,
    "  ndef-make carrier --format 2 --type a/b --payload 3132 > tag.bin\n"
);
