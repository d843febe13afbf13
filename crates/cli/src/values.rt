ghost use Rattle.std.specs.Prelude.{◌≡◌, ◌≤◌, IfSome};
ghost use Rattle.text.specs.Numbers.{number_of};

use machine::Registers;
use text::decimal;

// A number from 0 to 65,535.
pub fn half(word: &[u8]) -> Option<u16>
    ensures { result ≡ number_of 0 65535 word.now }
{
    decimal(word, 0, 65535).map(|number| number as u16)
}

// A number from 0 to 4,294,967,295.
pub fn full(word: &[u8]) -> Option<u32>
    ensures { result ≡ number_of 0 4294967295 word.now }
{
    decimal(word, 0, u32::MAX)
}

// 0 or 1.
fn marker(word: &[u8]) -> Option<bool> {
    Some(decimal(word, 0, 1)? == 1)
}

// A, B, X, Y, Z, S, L, and the markers.
pub fn registers(words: &[&[u8]]) -> Option<Registers> {
    let [a, b, x, y, z, s, l, fm, n, zr, of, ca] = words else {
        return None;
    };
    Some(Registers {
        a: full(a)?,
        b: full(b)?,
        x: half(x)?,
        y: half(y)?,
        z: half(z)?,
        s: half(s)?,
        l: half(l)?,
        fm: marker(fm)?,
        n: marker(n)?,
        zr: marker(zr)?,
        of: marker(of)?,
        ca: marker(ca)?,
    })
}
