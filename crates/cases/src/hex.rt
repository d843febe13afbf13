use crate::unread::Unread;
use std::alloc::Global;
use text::hex_word;

// Digits are in upper case alone.
fn is_upper(digits: &[u8]) -> bool {
    !digits.iter().any(u8::is_ascii_lowercase)
}

// Two hexadecimal digits.
pub fn hex_byte(pair: &[u8]) -> Result<u8, Unread> {
    match pair {
        [high, low] if is_upper(pair) => text::hex_byte(*high, *low).ok_or(Unread::NoCase),
        _ => Err(Unread::NoCase),
    }
}

// Four hexadecimal digits.
pub fn hex_half(word: &[u8]) -> Result<u16, Unread> {
    hex_word(word)
        .filter(|_| is_upper(word))
        .ok_or(Unread::NoCase)
}

// Bytes of two digits each, or a hyphen where there is none.
pub fn hex_bytes(alloc: Global, word: &[u8]) -> Result<Vec<u8>, Unread> {
    match word {
        b"-" => Ok(Vec::new(alloc)),
        _ => word.chunks(2).map(hex_byte).try_collect(alloc),
    }
}
