//! Texts, cut at a byte.
ghost use Rattle.std.specs.Prelude.{◌≡◌, ◌∷◌, ◌==◌, ◌<◌, [], length, position, IfSome};
ghost use Rattle.std.specs.List.{before_first, slice_split};
ghost use Rattle.std.specs.Option.{option_map_or};

/// The place of the first such byte.
fn place_of(text: &[u8], byte: u8) -> Option<usize>
    ensures { result ≡ position (λ x. x == byte) text.now }
{
    text.iter().position(|other| *other == byte)
}

/// Returns the text before the first such byte, and the text after it, if there is one.
pub fn cut_at(text: &[u8], byte: u8) -> (&[u8], Option<&[u8]>)
    ensures before { result.0.now ≡ before_first (λ x. x == byte) text.now }
    ensures split { slice_split (λ x. x == byte) text.now
        ≡ result.0.now ∷ option_map_or (λ rest. slice_split (λ x. x == byte) rest.now) result.1 [] }
    ensures shorter { IfSome result.1 (λ rest. length rest.now < length text.now) }
{
    match place_of(text, byte) {
        Some(place) => (&text[..place], Some(&text[place + 1..])),
        None => (text, None),
    }
}
