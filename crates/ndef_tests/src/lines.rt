//! Lines of text, their fields with `|` between, and octets in hexadecimal.
use std::alloc::{AllocError, Global};
use std::test::Fail;

/// The most fields of a line.
const MOST_FIELDS: usize = 11;

/// The first field of a line, and those after it.
pub fn field(line: &str) -> (&str, &str) {
    match line.split_once('|') {
        Some((first, rest)) => (first.trim(), rest),
        None => (line.trim(), ""),
    }
}

/// The first fields of a line; those that it hasn't are empty.
pub fn fields(line: &str) -> [&str; MOST_FIELDS] {
    let mut fields = [""; MOST_FIELDS];
    for (index, text) in line.split('|').enumerate() {
        if index < MOST_FIELDS {
            fields[index] = text.trim();
        }
    }
    fields
}

/// The bytes of hexadecimal digits, with spaces between some; `-` is none.
pub fn bytes_of(alloc: Global, text: &str) -> Option<Vec<u8>> {
    let mut bytes = Vec::new(alloc);
    if text == "-" {
        return Some(bytes);
    }
    for digits in text.split_whitespace() {
        let part = hex::decode(alloc, digits).ok()?;
        bytes.extend_from_slice(part.as_slice()).ok()?;
    }
    Some(bytes)
}

/// The same for a test, which fails where they are no such digits.
pub fn octets_of(alloc: Global, text: &str) -> Result<Vec<u8>, Fail> {
    Ok(bytes_of(alloc, text).ok_or("no bytes")?)
}

/// Octets in hexadecimal, or `-` where there are none.
pub fn digits(alloc: Global, octets: &[u8]) -> Result<String, AllocError> {
    if octets.is_empty() {
        return String::from_str(alloc, "-");
    }
    hex::encode_upper(alloc, octets)
}
