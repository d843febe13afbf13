ghost use Rattle.std.specs.Prelude.{◌≡◌, ◌<◌, ◌==◌, length, position, IfSome};
ghost use Rattle.text.specs.Search.{cut_at, pair};

/// The place of the first such byte.
pub fn find(bytes: &[u8], byte: u8) -> Option<usize>
    ensures is { result ≡ position (λ x. x == byte) bytes.now }
    ensures within { IfSome result (λ p. p < length bytes.now) }
{
    bytes.iter().position(|x| *x == byte)
}

/// What stands before the first such byte, and after it.
pub fn cut(bytes: &[u8], byte: u8) -> Option<(&[u8], &[u8])>
    ensures { pair result ≡ cut_at byte bytes.now }
{
    let p = find(bytes, byte)?;
    Some((&bytes[..p], &bytes[p + 1..]))
}
