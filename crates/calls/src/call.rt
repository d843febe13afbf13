use access::{Grant, Kind};
use cli::{full, half, registers};
use session::{Deed, Request};
use std::alloc::{AllocError, Global};
use text::hex_byte;

// The number of a bay; one that is past all bays is as good as another.
fn bay(word: &[u8]) -> Option<u8> {
    Some(u8::try_from(full(word)?).unwrap_or(u8::MAX))
}

fn grant(word: &[u8], first: &[u8], last: &[u8]) -> Option<Deed> {
    Some(Deed::Grant(Grant {
        kind: Kind::try_from(word).ok()?,
        first: half(first)?,
        last: half(last)?,
    }))
}

fn copy(address: &[u8], length: &[u8]) -> Option<Deed> {
    let length = usize::try_from(full(length)?).ok()?;
    Some(Deed::Copy(half(address)?, length))
}

fn digits(pair: &[u8]) -> Option<u8> {
    match pair {
        [high, low] => hex_byte(*high, *low),
        _ => None,
    }
}

// Bytes of two hexadecimal digits each, or a hyphen where there is none.
fn bytes(alloc: Global, word: &[u8]) -> Result<Option<Vec<u8>>, AllocError> {
    match word {
        b"-" => Ok(Some(Vec::new(alloc))),
        _ => pairs(alloc, word),
    }
}

fn pairs(alloc: Global, word: &[u8]) -> Result<Option<Vec<u8>>, AllocError> {
    let mut bytes = Vec::new(alloc);
    for pair in word.chunks(2) {
        let Some(byte) = digits(pair) else {
            return Ok(None);
        };
        bytes.push(byte)?;
    }
    Ok(Some(bytes))
}

fn load(alloc: Global, address: &[u8], word: &[u8]) -> Result<Option<Deed>, AllocError> {
    let bytes = bytes(alloc, word)?;
    Ok(
        half(address)
            .zip(bytes)
            .map(|(address, bytes)| Deed::Load(address, bytes)),
    )
}

// What the words after the bay ask, by the first word of the line.
fn deed(alloc: Global, call: &[u8], words: &[&[u8]]) -> Result<Option<Deed>, AllocError> {
    Ok(match (call, words) {
        (b"open", []) => Some(Deed::Open),
        (b"grant", [word, first, last]) => grant(word, first, last),
        (b"load", [address, bytes]) => load(alloc, address, bytes)?,
        (b"set", values) => registers(values).map(Deed::Set),
        (b"seal", []) => Some(Deed::Seal),
        (b"turn", [budget]) => half(budget).map(Deed::Turn),
        (b"look", []) => Some(Deed::Look),
        (b"copy", [address, length]) => copy(address, length),
        (b"close", []) => Some(Deed::Close),
        _ => None,
    })
}

// The call of a line, if it is one.
pub fn read_call(alloc: Global, line: &[u8]) -> Result<Option<Request>, AllocError> {
    let words: Vec<&[u8]> = line
        .split(|byte| *byte == b' ')
        .filter(|word| !word.is_empty())
        .collect(alloc)?;
    let [call, number, words @ ..] = words.as_slice() else {
        return Ok(None);
    };
    let deed = deed(alloc, call, words)?;
    Ok(
        bay(number)
            .zip(deed)
            .map(|(bay, deed)| Request { bay, deed }),
    )
}
