//! The pages about the program itself.
ghost use Rattle.std.specs.Prelude.{◌≡◌, map, option_map, string_bytes};
ghost use Rattle.ndef_cli_make.specs.Editing.{edit_map, origin_words};
ghost use Rattle.ndef_cli_make.specs.Pages.{asks_help, edit_page, help_page, help_part, help_word, make_page_asked};
ghost use Rattle.ndef_cli_make.specs.Pages.{ndef_make_page, page_named, page_of, program_page};

use crate::editing::{Edit, Origin, edit_in, origin_in};
use crate::kind_pages::kind_page;
use crate::options::{Subject, subject_named};
use crate::parts::{has_word, record_words, words_after};
use ndef_cli::{Page, page_asked};

/// A page for which words may ask.
#[derive(Clone, Copy)]
pub(crate) enum AskedPage {
    /// The description of the program, its words, and examples.
    Help,
    /// Its name and version.
    Version,
    /// The words of a kind of record.
    Kind(Subject),
}

/// The text of a page.
pub(crate) fn ndef_make_page(page: AskedPage) -> &'static [u8]
    ensures { result.now ≡ ndef_make_page page }
{
    match page {
        AskedPage::Help => HELP,
        AskedPage::Version => VERSION,
        AskedPage::Kind(kind) => kind_page(kind),
    }
}

/// Returns whether a word requests help, or ends options; None if it does neither.
fn help_word(word: &str) -> Option<bool>
    ensures { result ≡ help_word word.now }
{
    match word {
        "--" => Some(false),
        "--help" => Some(true),
        _ => None,
    }
}

/// Whether the words ask for help, before a word that ends options.
fn asks_help(words: &[String]) -> bool
    ensures { result ≡ asks_help (map string_bytes words.now) }
{
    let mut rest = words;
    while let [word, others @ ..] = rest {
        match help_word(word.as_str()) {
            Some(asks) => return asks,
            None => rest = others,
        }
    }
    false
}

/// The first part with the word for help.
fn help_part(words: &[String]) -> Option<&[String]>
    ensures { option_map (λ part. map string_bytes part.now) result ≡ help_part (map string_bytes words.now) }
{
    words
        .split(|word| word.as_str() == "--and")
        .find(|part| has_word(part, "--help"))
}

/// The page of the kind of record that a word names, or that of all.
fn page_named(name: &str) -> AskedPage
    ensures { result ≡ page_named name.now }
{
    match subject_named(name) {
        Some(kind) => AskedPage::Kind(kind),
        None => AskedPage::Help,
    }
}

/// The page for which the words of a record ask.
fn page_of(words: &[String]) -> AskedPage
    ensures { result ≡ page_of (map string_bytes words.now) }
{
    match words {
        [name, ..] => page_named(name.as_str()),
        [] => AskedPage::Help,
    }
}

/// Returns the page that an edit requests.
fn edit_page(edit: Option<Edit<&[String]>>) -> AskedPage
    ensures { result ≡ edit_page (option_map (edit_map (λ words. map string_bytes words.now)) edit.entry) }
{
    match edit {
        Some(Edit::Replaces(_, words)) => page_of(words),
        Some(Edit::Adds(words)) => page_of(words),
        Some(Edit::Keeps(_) | Edit::Drops(_, _)) | None => AskedPage::Help,
    }
}

/// Returns the page that the first part with the word for help requests.
fn help_page(origin: Option<Origin<'_>>) -> AskedPage
    ensures { result ≡ help_page (option_map origin_words origin.entry) }
{
    let Some(origin) = origin else {
        return AskedPage::Help;
    };
    match help_part(origin.parts) {
        Some(part) => edit_page(edit_in(origin.file, part)),
        None => AskedPage::Help,
    }
}

/// A page about the program, as a page of this one.
fn program_page(page: Page) -> AskedPage
    ensures { result ≡ program_page page }
{
    match page {
        Page::Help => AskedPage::Help,
        Page::Version => AskedPage::Version,
    }
}

/// The page for which the words ask, of which the first is the program's name.
pub(crate) fn make_page_asked(words: &[String]) -> Option<AskedPage>
    ensures { result ≡ make_page_asked (map string_bytes words.now) }
{
    if !asks_help(words_after(words)) {
        return Some(program_page(page_asked(words)?));
    }
    Some(help_page(origin_in(record_words(words))))
}

/// The name and the version.
const VERSION: &[u8] = b"ndef-make 1.1.0.dev\n";

/// The description of the program, its words, and examples.
const HELP: &[u8] = b"\
ndef-make writes a message of the NFC Data Exchange Format.

Usage: ndef-make [--size | --tag TAG] RECORD [--and RECORD]..
       ndef-make [--size | --tag TAG] --from FILE [EDIT [--and EDIT]..]

Each RECORD is a subcommand with its options. Separate records with --and.

  text TEXT           a text
    --language L      the code of its language; without it: en
    --utf16           encode it in UTF-16 instead of UTF-8
  uri URI             a URI
  poster URI          a smart poster of a URI
    --title L=TEXT    a title in the language with the code L; may be repeated
    --action A        what to do with the URI: do, save or open
    --size N          the size in bytes of what the URI leads to
    --media TYPE      the media type of what the URI leads to
    --icon FILE       the file of an icon, with --icon-type
    --icon-type TYPE  the media type of the icon
  handover request    a handover request; the records of its carriers are further parts
  handover select     a handover select, likewise
    --version 1.M     the version, 1.0 to 1.15; without it: 1.2
    --collision N     of a request: its random number, 0 to 65535
    --carrier P=I,..  a carrier: its power (inactive, active, activating, unknown),
                      the id of its record and those of auxiliary records; may be
                      repeated; the same as power=P,ref=I,aux=I,..
    --error R:DATA    of a select: the reason of an error, 0 to 255, and its data in
                      hexadecimal digits
  record              a record of any type
    --tnf N           the type name format, 0 to 5
    --type T          the type
  media TYPE          a record of a media type, such as image/png
  external TYPE       a record of an external type, such as example.com:a
  app PACKAGE         an Android application record
  carrier             a handover carrier; its data is its payload
    --format N        the carrier type format, 0 to 7
    --type T          the carrier type

The payload of a record, media, external or carrier is standard input, or

    --file FILE       what a file holds; - is standard input
    --payload DIGITS  the bytes that hexadecimal digits spell

Options of every RECORD:

  --id I              the id of the record
  --unchecked         write what a strict reader refuses or a standard forbids, too
  --hex               write hexadecimal digits and a newline, the default on a terminal
  --raw               write bytes, to a terminal too

Before the first RECORD:

  --size              print the number of the message's bytes, and not the message
  --tag TAG           write it only if it fits on the tag: ntag213, ntag215, ntag216, or
                      a number of bytes; counted with 3 bytes around it, or 5 around
                      255 and more
  --from FILE         edit the message in a file; - is standard input

With --from, each EDIT is

  --drop N            its record N, counted from 1, is dropped
  --replace N RECORD  the RECORD replaces its record N
  RECORD              the RECORD comes after all its records
  --hex, --raw        all its records stay; they may stand beside --drop N, too

Instead of a message:

  --help              print this page; after the name of a RECORD, the page of
                      that; it may come anywhere before the argument --
  --version           print the name and the version; it is the only argument then

Examples:

  ndef-make text Hello --and uri http://www.example.com > tag.bin
  ndef-make --from tag.bin --drop 1 --and uri http://www.example.org > new.bin
  ndef-make poster http://www.example.com --title en=Example --action save > tag.bin
  printf 123 | ndef-make record --hex --tnf 2 --type a/b --id x
  ndef-make handover select --carrier active=0 --and media a/b --id 0 --file data > tag.bin
";
