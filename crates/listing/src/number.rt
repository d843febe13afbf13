ghost use Rattle.std.specs.Prelude.{◌≡◌, ◌≤ℤ◌, neg_ℤ, pos, IfSome};
ghost use Rattle.listing.specs.Numbers.{signed_of, half_of, address_of};

use text::decimal;

// A number from -least to 65,535, in base ten.
fn integer(s: &[u8], least: u16) -> Option<i32>
    ensures is { result ≡ Rattle.listing.specs.Numbers.integer least s.now }
    ensures within { IfSome result (λ n. (neg_ℤ (pos least) ≤ℤ n) × (n ≤ℤ pos 65535)) }
{
    match s.strip_prefix(b"-") {
        Some(digits) => decimal(digits, 0, u32::from(least)).map(|n| -(n as i32)),
        None => decimal(s, 0, 65535).map(|n| n as i32),
    }
}

/// A number from -65,535 to 65,535, in base ten.
pub fn signed(s: &[u8]) -> Option<i32>
    ensures { result ≡ signed_of s.now }
{
    integer(s, 65535)
}

/// The halfword of a number from -32,768 to 65,535, in base ten; a negative one in two's complement.
pub fn half(s: &[u8]) -> Option<u16>
    ensures { result ≡ half_of s.now }
{
    Some(integer(s, 32768)?.rem_euclid(65536) as u16)
}

/// An even number from 0 to 65,535.
pub fn address(s: &[u8]) -> Option<u16>
    ensures { result ≡ address_of s.now }
{
    decimal(s, 0, 65535)
        .filter(|n| n.is_multiple_of(2))
        .map(|n| n as u16)
}
