ghost use Rattle.std.specs.Prelude.{◌≡◌, ◌+◌, ◌-◌, ◌*◌, ◌/◌, ◌%◌, ◌^◌, ◌<◌, ◌≤◌, IfSome};
ghost use Rattle.word.specs.Fields.{as_signed, unsigned_in, signed_in};

// Each count below 16 is asked for and not a type of its own: a caller passes a literal, where the bound computes, or
// hands on one that it was given and asks for the same.

// So many ones.
fn mask(count: u16) -> u16
    requires { count < 16 }
    ensures { result ≡ 2 ^ count - 1 }
{
    (1 << count) - 1
}

// A field with so many bits below it.
fn raised(field: u16, count: u16) -> u16
    requires { (count < 16) × (field * 2 ^ count < 65536) }
    ensures { result ≡ field * 2 ^ count }
{
    field << count
}

// The lowest bits of a word, so many.
pub fn low(word: u16, count: u16) -> u16
    requires { count < 16 }
    ensures { result ≡ word % 2 ^ count }
{
    word & mask(count)
}

// So many bits of a word, with `from` bits below them.
pub fn middle(word: u16, from: u16, count: u16) -> u16
    requires { (from < 16) × (count < 16) }
    ensures { result ≡ word / 2 ^ from % 2 ^ count }
{
    low(word >> from, count)
}

// What a field means in two's complement; its values from `half` on are negative.
pub fn signed(field: u16, half: u16) -> i16
    requires { (half ≤ 512) × (field < 2 * half) }
    ensures { result ≡ as_signed half field }
{
    if field < half {
        field as i16
    } else {
        field as i16 - 2 * half as i16
    }
}

// The field that holds a number from 0 to below `limit`.
pub fn unsigned_field(number: i32, limit: u16) -> Option<u16>
    ensures is { result ≡ unsigned_in limit number }
    ensures within { IfSome result (λ x. x < limit) }
{
    u16::try_from(number).ok().filter(|field| *field < limit)
}

// The field that holds a number from -half to below `half`, in two's complement. Compared by hand: half is 128 or 512, and the library has
// no number of ten bits to try.
pub fn signed_field(number: i32, half: u16) -> Option<u16>
    requires { half ≤ 512 }
    ensures is { result ≡ signed_in half number }
    ensures within { IfSome result (λ x. x < 2 * half) }
{
    let h = i32::from(half);
    if 0 <= number && number < h {
        Some(number as u16)
    } else if -h <= number && number < 0 {
        Some((number + 2 * h) as u16)
    } else {
        None
    }
}

// The field `high` and, in the `count` bits below it, the field `below`.
pub fn join(high: u16, count: u16, below: u16) -> u16
    requires { (count < 16) × ((below < 2 ^ count) × (high * 2 ^ count + below < 65536)) }
    ensures { result ≡ high * 2 ^ count + below }
{
    raised(high, count) | below
}
