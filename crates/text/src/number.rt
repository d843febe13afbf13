ghost use Rattle.std.specs.Prelude.{◌≡◌, ◌<◌, ◌≤◌, IfSome};
ghost use Rattle.text.specs.Numbers.{number_of};

use hex::FromHex;

// No digit at all, or a zero in front of another digit.
fn no_number(s: &[u8]) -> bool
    ensures { result ≡ Rattle.text.specs.Numbers.no_number s.now }
{
    matches!(s, [] | [b'0', _, ..])
}

/// The number from low to high that the digits spell, of whatever length, with no leading zero and no sign.
pub fn decimal(s: &[u8], low: u32, high: u32) -> Option<u32>
    ensures is { result ≡ number_of low high s.now }
    ensures within { IfSome result (λ k. (low ≤ k) × (k ≤ high)) }
{
    if no_number(s) {
        return None;
    }
    let mut n: u64 = 0;
    for d in s {
        match *d {
            b'0'..=b'9' => n = n * 10 + u64::from(*d - b'0'),
            _ => return None,
        }
        if n > u64::from(high) {
            return None;
        }
    }
    (u64::from(low) <= n).then_some(n as u32)
}

/// The byte of two hexadecimal digits, in either case.
#[tactic(auto, using(crate::proofs::Hex::byte_there))]
pub fn hex_byte(high: u8, low: u8) -> Option<u8>
    ensures { result ≡ Rattle.text.specs.Numbers.hex_byte high low }
{
    match <[u8; 1] as FromHex>::from_hex([high, low].as_slice()) {
        Ok(bytes) => Some(bytes[0]),
        Err(_) => None,
    }
}

/// The word that just four hexadecimal digits spell.
pub fn hex_word(s: &[u8]) -> Option<u16>
    ensures { result ≡ Rattle.text.specs.Numbers.hex_word s.now }
{
    match <[u8; 2] as FromHex>::from_hex(s) {
        Ok(bytes) => Some(u16::from_be_bytes(bytes)),
        Err(_) => None,
    }
}
