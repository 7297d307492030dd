//! Typed values where memory is used up.
use crate::memory::{spare_blocks, use_up};
use ndef_types::{
    Ac, Carrier, DecodeError, DetailError, EncodeError, Encoding, HandoverError, Text, TextError,
    Uri,
};
use ndef_value::{Bytes, NoMemory};
use std::alloc::Global;
use std::test::Fail;

/// A call that takes memory.
#[derive(Clone, Copy, Debug, PartialEq, Eq)]
enum Call {
    NewText,
    DecodeText,
    EncodeText,
    NewUri,
    DecodeUri,
    EncodeUri,
    DecodeAc,
    EncodeAc,
    NewError,
    DecodeError,
    EncodeError,
    DecodeCarrier,
    EncodeCarrier,
}

const CALLS: [Call; 13] = [
    Call::NewText,
    Call::DecodeText,
    Call::EncodeText,
    Call::NewUri,
    Call::DecodeUri,
    Call::EncodeUri,
    Call::DecodeAc,
    Call::EncodeAc,
    Call::NewError,
    Call::DecodeError,
    Call::EncodeError,
    Call::DecodeCarrier,
    Call::EncodeCarrier,
];

const TEXT: &[u8] = b"\x82en\xfe\xff\x00A\xd8\x3d\xde\x00";

const URI: &[u8] = b"\x01example.com";

/// References of 40 bytes, which aren't kept inline.
const AC: &[u8] =
    b"\x01\x280123456789012345678901234567890123456789\x01\x289876543210987654321098765432109876543210r";

const ERROR: &[u8] = b"\x02\x00\x00\x01\x00";

/// A type of 40 bytes, which isn't kept inline.
const CARRIER: &[u8] = b"\x01\x280123456789012345678901234567890123456789\x05";

/// Values, made while there is memory.
#[derive(Drop)]
struct Values {
    text: Text,
    uri: Uri,
    ac: Ac,
    error: HandoverError,
    carrier: Carrier,
}

fn made_values(alloc: Global) -> Result<Values, DecodeError> {
    Ok(Values {
        text: Text::decode(alloc, TEXT)?,
        uri: Uri::decode(alloc, URI)?,
        ac: Ac::decode(alloc, AC)?,
        error: HandoverError::decode(alloc, ERROR)?,
        carrier: Carrier::decode(alloc, CARRIER)?,
    })
}

/// Whether a value was decoded; an error where there was no memory.
pub(super) fn decodes<T: Drop>(decoded: Result<T, DecodeError>) -> Result<bool, NoMemory> {
    match decoded {
        Ok(_) => Ok(true),
        Err(DecodeError::NoMemory) => Err(NoMemory),
        Err(DecodeError::Refused(_)) => Ok(false),
    }
}

/// Whether the payload was written; an error where there was no memory.
pub(super) fn encodes(
    encoded: Result<Bytes, EncodeError>,
    payload: &[u8],
) -> Result<bool, NoMemory> {
    match encoded {
        Ok(bytes) => Ok(bytes.as_slice() == payload),
        Err(EncodeError::NoMemory) => Err(NoMemory),
        Err(EncodeError::TooLong) => Ok(false),
    }
}

fn new_text(alloc: Global) -> Result<bool, NoMemory> {
    match Text::new(alloc, Encoding::Utf16, "en", "A\u{1f600}") {
        Ok(_) => Ok(true),
        Err(TextError::NoMemory) => Err(NoMemory),
        Err(_) => Ok(false),
    }
}

fn new_error(alloc: Global) -> Result<bool, NoMemory> {
    match HandoverError::new(alloc, 2, &ERROR[1..]) {
        Ok(_) => Ok(true),
        Err(DetailError::NoMemory) => Err(NoMemory),
        Err(DetailError::BadShape) => Ok(false),
    }
}

/// Whether the call gives the expected answer; an error where there was no memory.
fn answers(alloc: Global, call: Call, values: &Values) -> Result<bool, NoMemory> {
    match call {
        Call::NewText => new_text(alloc),
        Call::DecodeText => decodes(Text::decode(alloc, TEXT)),
        Call::EncodeText => encodes(values.text.encode(alloc), TEXT),
        Call::NewUri => Uri::new(alloc, "http://www.example.com").map(|_| true),
        Call::DecodeUri => decodes(Uri::decode(alloc, URI)),
        Call::EncodeUri => encodes(values.uri.encode(alloc), URI),
        Call::DecodeAc => decodes(Ac::decode(alloc, AC)),
        Call::EncodeAc => encodes(values.ac.encode(alloc), AC),
        Call::NewError => new_error(alloc),
        Call::DecodeError => decodes(HandoverError::decode(alloc, ERROR)),
        Call::EncodeError => encodes(values.error.encode(alloc), ERROR),
        Call::DecodeCarrier => decodes(Carrier::decode(alloc, CARRIER)),
        Call::EncodeCarrier => encodes(values.carrier.encode(alloc), CARRIER),
    }
}

/// Frees blocks until the call answers; until then each answer is that there is no memory.
fn answers_at_last(alloc: Global, call: Call, values: &Values, spare: &mut Vec<Vec<u8>>) -> bool {
    for _ in 0..13u8 {
        match answers(alloc, call, values) {
            Ok(right) => return right,
            Err(NoMemory) => {
                let _ = spare.pop();
            }
        }
    }
    false
}

/// The first call that answers something else, if one does.
fn wrong_call(alloc: Global, values: &Values) -> Option<Call> {
    for call in &CALLS {
        if answers(alloc, *call, values) != Ok(true) {
            return Some(*call);
        }
    }
    None
}

#[test]
fn calls_answer_where_there_is_memory(rt: HostRuntime) -> Result<(), Fail> {
    let values = made_values(rt.alloc())?;
    let wrong = wrong_call(rt.alloc(), &values);
    drop(values);
    assert!(rt; wrong.is_none(), "{wrong:?}");
    Ok(())
}

/// Whether memory was used up, whether the call was refused then, and whether it answered at last.
fn refused_call(alloc: Global, call: Call, values: &Values) -> Result<[bool; 3], Fail> {
    let mut spare = spare_blocks(alloc)?;
    let mut held = Vec::with_capacity(alloc, 65536)?;
    let used_up = use_up(alloc, &mut held);
    let refused = answers(alloc, call, values) == Err(NoMemory);
    let right = answers_at_last(alloc, call, values, &mut spare);
    drop(held);
    Ok([used_up, refused, right])
}

/// The first call that isn't refused and then answered, if there is one, and what was seen of it.
fn unrefused_call(alloc: Global, values: &Values) -> Result<Option<(Call, [bool; 3])>, Fail> {
    for call in &CALLS {
        let seen = refused_call(alloc, *call, values)?;
        if seen != [true; 3] {
            return Ok(Some((*call, seen)));
        }
    }
    Ok(None)
}

#[test]
fn refuses_each_growth_of_a_typed_value(rt: HostRuntime) -> Result<(), Fail> {
    let values = made_values(rt.alloc())?;
    let wrong = unrefused_call(rt.alloc(), &values)?;
    drop(values);
    assert!(rt; wrong.is_none(), "{wrong:?}");
    Ok(())
}
