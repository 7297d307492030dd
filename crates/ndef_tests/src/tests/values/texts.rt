//! Language codes of texts that are made.
use ndef_types::{Encoding, Text, TextError};
use std::test::Fail;

#[test]
fn language_codes_are_short_and_ascii(rt: HostRuntime) -> Result<(), Fail> {
    let alloc = rt.alloc();
    let letters = "abcdefghijklmnopqrstuvwxyzabcdefghijklmnopqrstuvwxyzabcdefghijk";
    let longest = Text::new(alloc, Encoding::Utf8, letters, "")?;
    assert!(rt; letters.len() == 63 && longest.encode(alloc)?.as_slice().len() == 64);
    let more = "abcdefghijklmnopqrstuvwxyzabcdefghijklmnopqrstuvwxyzabcdefghijkl";
    let wide = "\u{e9}bcdefghijklmnopqrstuvwxyzabcdefghijklmnopqrstuvwxyzabcdefghijk";
    let rows = [
        ("\u{e9}", TextError::NotAscii),
        (more, TextError::TooLong),
        (wide, TextError::TooLong),
    ];
    for (language, error) in rows {
        let made = Text::new(alloc, Encoding::Utf16, language, "a");
        assert!(rt; made.err() == Some(error), "{language}");
    }
    Ok(())
}
