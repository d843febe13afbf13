ghost use Rattle.word.specs.Bytes.{half, full};
ghost use Rattle.std.specs.Prelude.{◌≡◌};

// A halfword of two bytes, the most significant first.
pub fn half_of(high: u8, low: u8) -> u16
    ensures { result ≡ half high low }
{
    u16::from_be_bytes([high, low])
}

// A fullword of two halfwords, the most significant first.
pub fn full_of(high: u16, low: u16) -> u32
    ensures { result ≡ full high low }
{
    u32::from(high) << 16 | u32::from(low)
}
