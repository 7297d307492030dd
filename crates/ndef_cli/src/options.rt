//! The values of the options of a command line, from the matches of `clap`.
ghost use Rattle.std.specs.Prelude.{◌≡◌, option_map};
ghost use Rattle.clap.specs.Words.{first_of, found_of, rows_of};
ghost use Rattle.ndef_cli.specs.Options.{flag_of, hex_of};

use clap::ArgMatches;

/// The text of an option, where it is given.
pub fn option_text<'a>(matches: &ArgMatches<'a>, id: &str) -> Option<&'a str>
    ensures { option_map (λ s. s.now) result ≡ first_of id.now (rows_of (found_of matches.now)) }
{
    matches.get_str(id)
}

/// Whether a flag is given.
pub fn flag_given(matches: &ArgMatches<'_>, id: &str) -> bool
    ensures { result ≡ flag_of id.now (rows_of (found_of matches.now)) }
{
    match option_text(matches, id) {
        Some(text) => text == "true",
        None => false,
    }
}

/// Whether `--hex` is given.
pub fn hex_given(matches: &ArgMatches<'_>) -> bool
    ensures { result ≡ hex_of (rows_of (found_of matches.now)) }
{
    flag_given(matches, "hex")
}
