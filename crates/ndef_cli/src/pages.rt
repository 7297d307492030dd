//! The pages about a program itself, for which its words may ask.
ghost use Rattle.std.specs.Prelude.{◌≡◌, map, string_bytes};
ghost use Rattle.ndef_cli.specs.Pages.{page_asked, page_named};

/// A page about a program.
#[derive(Clone, Copy, Debug, PartialEq, Eq)]
pub enum Page {
    /// The description of the program, its words, and examples.
    Help,
    /// Its name and version.
    Version,
}

/// The page of this name.
fn page_named(name: &str) -> Option<Page>
    ensures { result ≡ page_named name.now }
{
    match name {
        "--help" | "-h" => Some(Page::Help),
        "--version" | "-V" => Some(Page::Version),
        _ => None,
    }
}

/// The page for which the words ask, of which the first is the program's name.
pub fn page_asked(args: &[String]) -> Option<Page>
    ensures { result ≡ page_asked (map string_bytes args.now) }
{
    match args {
        [_, name] => page_named(name.as_str()),
        _ => None,
    }
}
