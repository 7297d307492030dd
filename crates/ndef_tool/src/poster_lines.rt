//! The output for smart posters.
ghost use Rattle.std.specs.Prelude.{◌≡◌, ◌<◌, ◌++◌, length, option_map, slice_index, IfSome, OnOk};
ghost use Rattle.std.specs.Int.{w32, from_be_bytes};
ghost use Rattle.ndef_value.specs.declared.limits.TheConstants.{MOST_RECORDS};
ghost use Rattle.ndef_format.specs.Octets.{AreOctetsOf};
ghost use Rattle.ndef_format.specs.declared.kind.Kind.TheVariants as kinds;
ghost use Rattle.ndef_format.specs.Nested.{IsNest};
ghost use Rattle.ndef_format.specs.declared.table.Table.TheVariants as tables;
ghost use Rattle.ndef_types.specs.Posters.{action_of};
ghost use Rattle.ndef_tool.specs.Showing.{Adds, PrintsValue, action_name, media_name, poster_back, poster_front, size_name};

use crate::nested::{count_of, first_of, members_of};
use crate::quoting::push_named;
use ndef_cli::{push_counted, push_number, push_quoted};
use ndef_lang::Kind;
use ndef_types::UriParts;
use ndef_value::{Bytes, NoMemory, Profile};
use std::alloc::Global;

/// Appends the name of a recommended action, by the payload of its record, or `none`.
fn push_action(line: &mut Bytes, action: Option<&[u8]>) -> Result<(), NoMemory>
    requires { IfSome action (λ s. 0 < length s.now) }
    ensures { OnOk result (line.new ≡ line.old
        ++ action_name (option_map (λ s. action_of (slice_index s.now 0)) action.entry)) }
{
    let Some(octets) = action else {
        return line.extend(b"none");
    };
    match octets[0] {
        0 => line.extend(b"do"),
        1 => line.extend(b"save"),
        2 => line.extend(b"open"),
        octet => {
            line.extend(b"other ")?;
            push_number(line, u64::from(octet))
        }
    }
}

/// Appends a size in bytes, by the payload of its record, or `none`.
fn push_size(line: &mut Bytes, size: Option<&[u8]>) -> Result<(), NoMemory>
    requires { IfSome size (λ s. AreOctetsOf 4 s.now) }
    ensures { OnOk result (line.new ≡ line.old ++ size_name (option_map (λ s. from_be_bytes w32 s.now) size.entry)) }
{
    match size {
        None => line.extend(b"none"),
        Some([a, b, c, d]) => push_number(line, u64::from(u32::from_be_bytes([*a, *b, *c, *d]))),
        Some(_) => unreachable!(),
    }
}

/// Appends a media type, or `none`.
fn push_media(line: &mut Bytes, media: Option<&[u8]>) -> Result<(), NoMemory>
    ensures { OnOk result (line.new ≡ line.old ++ media_name (option_map (λ s. s.now) media.entry)) }
{
    match media {
        None => line.extend(b"none"),
        Some(media) => push_quoted(line, media),
    }
}

/// Appends the number of records of a poster, its URI, and its number of titles.
fn push_front(line: &mut Bytes, records: u64, uri: &[u8], titles: u64) -> Result<(), NoMemory>
    ensures { OnOk result (line.new ≡ line.old ++ poster_front records uri.now titles) }
{
    push_counted(line, b" poster records ", records)?;
    push_named(line, b" uri ", uri)?;
    push_counted(line, b" titles ", titles)
}

/// Appends what a poster recommends, and the size and the media type of what it refers to, by the payloads of their
/// records.
fn push_back(
    line: &mut Bytes,
    action: Option<&[u8]>,
    size: Option<&[u8]>,
    media: Option<&[u8]>,
) -> Result<(), NoMemory>
    requires action { IfSome action (λ s. 0 < length s.now) }
    requires size { IfSome size (λ s. AreOctetsOf 4 s.now) }
    ensures { OnOk result (line.new ≡ line.old
        ++ poster_back (option_map (λ s. action_of (slice_index s.now 0)) action.entry)
        (option_map (λ s. from_be_bytes w32 s.now) size.entry) (option_map (λ s. s.now) media.entry)) }
{
    line.extend(b" action ")?;
    push_action(line, action)?;
    line.extend(b" size ")?;
    push_size(line, size)?;
    line.extend(b" media ")?;
    push_media(line, media)
}

/// Appends the output for the payload of a smart poster record.
pub fn push_poster(
    alloc: Global,
    line: &mut Bytes,
    profile: Profile,
    payload: &[u8],
) -> Result<(), NoMemory>
    requires { IsNest tables.SmartPoster MOST_RECORDS profile payload.now }
    ensures { OnOk result (Adds line.old line.new (PrintsValue kinds.SmartPoster profile payload.now)) }
{
    let members = members_of(alloc, Kind::SmartPoster, payload)?;
    let Some(uri) = first_of(&members, Kind::Uri) else {
        unreachable!()
    };
    let uri = UriParts::new(uri).to_value(alloc)?;
    let titles = count_of(&members, Kind::Text);
    push_front(line, members.len() as u64, uri.text().as_bytes(), titles)?;
    let action = first_of(&members, Kind::Action);
    let size = first_of(&members, Kind::Size);
    push_back(line, action, size, first_of(&members, Kind::MediaType))
}
