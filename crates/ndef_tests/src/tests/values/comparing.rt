//! Values that are compared and hashed, and iteration over lists of them.
use crate::comparing::are_reported_apart;
use crate::samples::{HELLO, SELECT, read};
use ndef_types::{Encoding, Links, SmartPoster, Text, Texts, Uri, carriers};
use std::alloc::Global;
use std::test::Fail;

fn texts_are_compared(alloc: Global) -> Result<bool, Fail> {
    let text = Text::new(alloc, Encoding::Utf8, "en", "Hello")?;
    let same = Text::decode(alloc, b"\x02enHello")?;
    let rows = [
        (Encoding::Utf16, "en", "Hello"),
        (Encoding::Utf8, "de", "Hello"),
        (Encoding::Utf8, "en", "Hallo"),
    ];
    for (encoding, language, words) in rows {
        let other = Text::new(alloc, encoding, language, words)?;
        if !are_reported_apart(&text, &same, &other) {
            return Ok(false);
        }
    }
    Ok(true)
}

fn uris_are_compared(alloc: Global) -> Result<bool, Fail> {
    let uri = Uri::new(alloc, "http://a")?;
    let same = Uri::decode(alloc, b"\x03a")?;
    Ok(are_reported_apart(&uri, &same, &Uri::new(alloc, "http://b")?))
}

#[test]
fn texts_and_uris_are_compared(rt: HostRuntime) -> Result<(), Fail> {
    assert!(rt; texts_are_compared(rt.alloc())?, "texts");
    assert!(rt; uris_are_compared(rt.alloc())?, "URIs");
    Ok(())
}

/// Whether iterating gives these texts.
fn are_texts(titles: &Texts, words: &[&str]) -> bool {
    for (title, words) in titles.into_iter().zip(words.iter()) {
        if title.text() != *words {
            return false;
        }
    }
    !titles.is_empty() && titles.iter().count() == words.len()
}

/// Whether iterating gives one link, to the record at this index.
fn is_link(links: &Links, index: usize) -> bool {
    for link in links {
        if link.index != Some(index) {
            return false;
        }
    }
    !links.is_empty() && links.iter().count() == 1
}

#[test]
fn lists_are_gone_over(rt: HostRuntime) -> Result<(), Fail> {
    let alloc = rt.alloc();
    let payload = b"\x91\x01\x02T\x00a\x11\x01\x02T\x00b\x51\x01\x01U\x00";
    let titles = SmartPoster::decode(alloc, payload)?.titles(alloc)?;
    assert!(rt; are_texts(&titles, &["a", "b"]));
    Ok(())
}

#[test]
fn links_are_gone_over(rt: HostRuntime) -> Result<(), Fail> {
    let alloc = rt.alloc();
    assert!(rt; is_link(&carriers(alloc, &read(alloc, &SELECT)?)?, 1));
    assert!(rt; carriers(alloc, &read(alloc, &HELLO)?)?.is_empty());
    Ok(())
}
