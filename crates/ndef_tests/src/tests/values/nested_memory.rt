//! Smart posters, handovers and links where memory is used up.
use super::typed_memory::{decodes, encodes};
use crate::memory::{spare_blocks, use_up};
use crate::samples::{SELECT, read};
use ndef_lang::Opaque;
use ndef_message::view;
use ndef_types::{
    DecodeError, LinkError, Links, Request, Select, SmartPoster, carriers, carriers_view,
};
use ndef_value::{Limits, Message, NoMemory, Profile};
use std::alloc::Global;
use std::test::Fail;

/// A call that takes memory.
#[derive(Clone, Copy, Debug, PartialEq, Eq)]
enum Call {
    DecodePoster,
    ReadPoster,
    EncodePoster,
    Uri,
    Titles,
    Media,
    DecodeRequest,
    EncodeRequest,
    DecodeSelect,
    EncodeSelect,
    EncodeVersion,
    Carriers,
    CarriersOfView,
}

const CALLS: [Call; 13] = [
    Call::DecodePoster,
    Call::ReadPoster,
    Call::EncodePoster,
    Call::Uri,
    Call::Titles,
    Call::Media,
    Call::DecodeRequest,
    Call::EncodeRequest,
    Call::DecodeSelect,
    Call::EncodeSelect,
    Call::EncodeVersion,
    Call::Carriers,
    Call::CarriersOfView,
];

/// A URI, a title and a media type.
const POSTER: &[u8] = b"\x91\x01\x02U\x00a\x11\x01\x02T\x00a\x51\x01\x03ta/b";

/// A reserved code.
const RESERVED: &[u8] = b"\xd1\x01\x02U\xffa";

const REQUEST: &[u8] = b"\x12\xd1\x02\x02cr\x01\x02";

/// Values, made while there is memory.
#[derive(Drop)]
struct Values {
    poster: SmartPoster,
    request: Request,
    select: Select,
    version: Select,
    message: Message,
}

/// A select of one carrier, and one that is its version alone.
fn made_selects(alloc: Global) -> Result<(Select, Select), DecodeError> {
    let select = Select::decode(alloc, &SELECT[5..15])?;
    Ok((select, Select::decode(alloc, b"\x12")?))
}

fn made_values(alloc: Global) -> Result<Values, Fail> {
    let (select, version) = made_selects(alloc)?;
    Ok(Values {
        poster: SmartPoster::decode(alloc, POSTER)?,
        request: Request::decode(alloc, REQUEST)?,
        select,
        version,
        message: read(alloc, &SELECT)?,
    })
}

/// The links of the message, viewed where it lies.
fn viewed_links(alloc: Global) -> Result<Links, LinkError> {
    match view::<Opaque>(&SELECT, Limits::usual()) {
        Ok(view) => carriers_view(alloc, &view),
        Err(refusal) => Err(LinkError::Refused(refusal)),
    }
}

/// Whether the links are those of the message; an error where there was no memory.
fn is_linked(links: Result<Links, LinkError>) -> Result<bool, NoMemory> {
    match links {
        Ok(links) => Ok(links.len() == 1),
        Err(LinkError::NoMemory) => Err(NoMemory),
        Err(LinkError::Refused(_)) => Ok(false),
    }
}

/// Whether the call gives the expected answer; an error where there was no memory.
fn answers(alloc: Global, call: Call, values: &Values) -> Result<bool, NoMemory> {
    match call {
        Call::DecodePoster => decodes(SmartPoster::decode(alloc, POSTER)),
        Call::ReadPoster => decodes(SmartPoster::decode_as(alloc, RESERVED, Profile::Standard)),
        Call::EncodePoster => encodes(values.poster.encode(alloc), POSTER),
        Call::Uri => values.poster.uri(alloc).map(|uri| uri.text() == "a"),
        Call::Titles => values.poster.titles(alloc).map(|titles| titles.len() == 1),
        Call::Media => values.poster.media(alloc).map(|media| media.is_some()),
        Call::DecodeRequest => decodes(Request::decode(alloc, REQUEST)),
        Call::EncodeRequest => encodes(values.request.encode(alloc), REQUEST),
        Call::DecodeSelect => decodes(Select::decode(alloc, &SELECT[5..15])),
        Call::EncodeSelect => encodes(values.select.encode(alloc), &SELECT[5..15]),
        Call::EncodeVersion => encodes(values.version.encode(alloc), b"\x12"),
        Call::Carriers => is_linked(carriers(alloc, &values.message)),
        Call::CarriersOfView => is_linked(viewed_links(alloc)),
    }
}

/// Frees blocks until the call answers; until then each answer is that there is no memory.
fn answers_at_last(alloc: Global, call: Call, values: &Values, spare: &mut Vec<Vec<u8>>) -> bool {
    for _ in 0..13u8 {
        match answers(alloc, call, values) {
            Ok(right) => return right,
            Err(NoMemory) => {
                let _ = spare.pop();
            }
        }
    }
    false
}

/// The first call that answers something else, if one does.
fn wrong_call(alloc: Global, values: &Values) -> Option<Call> {
    for call in &CALLS {
        if answers(alloc, *call, values) != Ok(true) {
            return Some(*call);
        }
    }
    None
}

#[test]
fn nested_calls_answer_where_there_is_memory(rt: HostRuntime) -> Result<(), Fail> {
    let values = made_values(rt.alloc())?;
    let wrong = wrong_call(rt.alloc(), &values);
    drop(values);
    assert!(rt; wrong.is_none(), "{wrong:?}");
    Ok(())
}

/// Whether memory was used up, whether the call was refused then, and whether it answered at last.
fn refused_call(alloc: Global, call: Call, values: &Values) -> Result<[bool; 3], Fail> {
    let mut spare = spare_blocks(alloc)?;
    let mut held = Vec::with_capacity(alloc, 65536)?;
    let used_up = use_up(alloc, &mut held);
    let refused = answers(alloc, call, values) == Err(NoMemory);
    let right = answers_at_last(alloc, call, values, &mut spare);
    drop(held);
    Ok([used_up, refused, right])
}

/// The first call, except for the last, that isn't refused and then answered, if there is one, and what was seen of it.
fn unrefused_call(alloc: Global, values: &Values) -> Result<Option<(Call, [bool; 3])>, Fail> {
    for call in &CALLS[..12] {
        let seen = refused_call(alloc, *call, values)?;
        if seen != [true; 3] {
            return Ok(Some((*call, seen)));
        }
    }
    Ok(None)
}

#[test]
fn refuses_each_growth_of_a_nested_value(rt: HostRuntime) -> Result<(), Fail> {
    let values = made_values(rt.alloc())?;
    let wrong = unrefused_call(rt.alloc(), &values)?;
    drop(values);
    assert!(rt; wrong.is_none(), "{wrong:?}");
    Ok(())
}

/// Right after `carriers` this call would find the blocks that `carriers` has freed, which are just what it needs.
#[test]
fn refuses_each_growth_of_links_of_a_view(rt: HostRuntime) -> Result<(), Fail> {
    let values = made_values(rt.alloc())?;
    let seen = refused_call(rt.alloc(), Call::CarriersOfView, &values)?;
    drop(values);
    assert!(rt; seen == [true; 3], "{seen:?}");
    Ok(())
}
