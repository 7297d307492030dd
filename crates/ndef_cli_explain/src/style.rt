//! The form of the output.
ghost use Rattle.std.specs.Prelude.{◌≡◌};
ghost use Rattle.ndef_cli_explain.specs.Forms.{shown_by, style_form};

use crate::shell::Source;

/// What lines print of the octets of fields.
#[derive(Clone, Copy)]
pub(crate) struct Shown {
    /// Printable characters of UTF-8 are printed as themselves.
    pub(crate) utf8: bool,
    /// A column has the octets as characters.
    pub(crate) characters: bool,
}

/// The form of the output.
#[derive(Clone, Copy)]
pub(crate) enum Style<'a> {
    /// Lines, at least one for each field.
    Lines(Shown),
    /// An object in JSON in a line for each message, with the name of the input where inputs are named.
    Objects(Option<&'a str>),
}

/// How an input is explained.
#[derive(Clone, Copy)]
pub(crate) struct Look<'a> {
    pub(crate) style: Style<'a>,
    /// Lines are in colour.
    pub(crate) in_color: bool,
    pub(crate) source: Source<'a>,
}

/// What is printed of octets: in objects neither.
pub(crate) fn shown_by(style: Style<'_>) -> Shown
    ensures { result ≡ shown_by (style_form style.entry) }
{
    match style {
        Style::Lines(shown) => shown,
        Style::Objects(_) => Shown {
            utf8: false,
            characters: false,
        },
    }
}
