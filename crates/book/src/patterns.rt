ghost use Rattle.std.specs.Prelude.{◌≡◌, ◌<◌, ◌≤◌, IfSome};
ghost use Rattle.book.specs.Patterns.{place_of, length_at, pattern_of, begins, meets, clashes, every};

use isa::Format;

/// The place of an A format's pattern among the five. Below, a pattern goes by its place and not by its format: `clash` goes through the
/// five places of a book, and would have to turn each into a format first.
pub fn pattern_place(format: Format) -> Option<usize>
    ensures is { result ≡ place_of format }
    ensures within { IfSome result (λ i. i < 5) }
{
    match format {
        Format::A1 => Some(0),
        Format::A2 => Some(1),
        Format::A3 => Some(2),
        Format::A4 => Some(3),
        Format::A5 => Some(4),
        Format::L | Format::B => None,
    }
}

pub fn pattern_length(place: usize) -> u8
    ensures is { result ≡ length_at place }
    ensures within { result ≤ 4 }
{
    match place {
        0 => 2,
        1 => 1,
        3 => 3,
        _ => 4,
    }
}

/// The value of a pattern of so many of the characters 0 and 1.
pub fn pattern(text: &[u8], len: u8) -> Option<u8>
    requires { len ≤ 4 }
    ensures { result ≡ pattern_of len text.now }
{
    if text.len() != usize::from(len) {
        return None;
    }
    let mut n = 0;
    for d in text {
        match *d {
            b'0' => n = n * 2,
            b'1' => n = n * 2 + 1,
            _ => return None,
        }
    }
    Some(n)
}

// Whether the pattern v of place f begins the pattern u of place g.
fn begin(f: usize, v: u8, g: usize, u: u8) -> bool
    ensures { result ≡ begins f v g u }
{
    let m = pattern_length(f);
    let n = pattern_length(g);
    m <= n && u >> (n - m) == v
}

// Whether the pattern v of place f cannot stand beside what place g has.
fn meet(f: usize, v: u8, g: usize, p: Option<u8>) -> bool
    ensures { result ≡ meets f v g p }
{
    p.is_some_and(|u| f == g || begin(f, v, g, u) || begin(g, u, f, v))
}

/// Whether the pattern v of place f cannot stand beside the patterns, since its place is taken or one begins the other.
pub fn clash(f: usize, v: u8, patterns: &[Option<u8>]) -> bool
    ensures { result ≡ clashes f v 0 patterns.now }
{
    patterns.iter().enumerate().any(|(g, p)| meet(f, v, g, *p))
}

pub fn complete(patterns: &[Option<u8>]) -> bool
    ensures { result ≡ every patterns.now }
{
    patterns.iter().all(|p| p.is_some())
}
