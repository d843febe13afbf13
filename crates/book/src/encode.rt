ghost use Rattle.std.specs.Prelude.{◌≡◌, ◌+◌, ◌*◌, ◌^◌, ◌<◌, ◌≤◌, length, IfSome};
ghost use Rattle.std.specs.Option.{ForSome};
ghost use Rattle.book.specs.Encode as spec;
ghost use Rattle.book.specs.Encode.{number_in, pattern_values, pattern_at, encoding};
ghost use Rattle.book.specs.Laws.{ReadsBack};
ghost use Rattle.book.specs.Wholes.{word_of};

use crate::book::Book;
use crate::encode_error::EncodeError;
use crate::patterns::pattern_place;
use crate::rows::place_of;
use crate::whole::{is_branch, word_of_name};
use isa::{Format, Name};
use word::{join, signed_field, unsigned_field};

fn number_of(table: &[Option<Name>], name: Name) -> Option<u16>
    requires { length table.now ≤ 64 }
    ensures is { result ≡ number_in name 0 table.now }
    ensures within { IfSome result (λ k. k < 64) }
{
    let place = place_of(table, name)?;
    Some(place as u16)
}

fn m_values(format: Format) -> u16
    ensures { result ≡ spec.m_values format }
{
    match format {
        Format::A2 | Format::A4 | Format::A5 => 4,
        _ => 1,
    }
}

fn d_values(format: Format) -> u16
    ensures { result ≡ spec.d_values format }
{
    match format {
        Format::A1 => 256,
        Format::A2 => 128,
        Format::A3 => 64,
        Format::A4 => 32,
        Format::A5 => 16,
        Format::L | Format::B => 1,
    }
}

// The number, the pattern, M and D side by side.
fn a_word(format: Format, number: u16, pattern: u16, m: u16, d: u16) -> u16
    requires number_fits { number < 64 }
    requires pattern_fits { pattern < pattern_values format }
    requires m_fits { m < spec.m_values format }
    requires d_fits { d < spec.d_values format }
    ensures { result ≡ spec.a_word format number pattern m d }
{
    match format {
        Format::A1 => join(join(number, 2, pattern), 8, d),
        Format::A2 => join(join(join(number, 1, pattern), 2, m), 7, d),
        Format::A3 => join(join(number, 4, pattern), 6, d),
        Format::A4 => join(join(join(number, 3, pattern), 2, m), 5, d),
        Format::A5 => join(join(join(number, 4, pattern), 2, m), 4, d),
        Format::L | Format::B => 0,
    }
}

// A field below the number, with no M.
fn word_without_m(number: u16, count: u16, m: i32, field: Option<u16>) -> Result<u16, EncodeError>
    requires count_fits { count < 16 }
    requires number_fits { number * 2 ^ count + 2 ^ count ≤ 65536 }
    requires field_fits { ForSome field (λ x. x < 2 ^ count) }
    ensures { result ≡ spec.word_without_m (number * 2 ^ count) m field }
{
    match field {
        Some(field) if m == 0 => Ok(join(number, count, field)),
        _ => Err(EncodeError::Unfit),
    }
}

// Name, format, M and D stay apart, though a reading keeps them together: M and D are any numbers here, and only those that fit make a word.
impl Book {
    fn pattern_of(&self, format: Format) -> Option<u8>
        ensures { result ≡ pattern_at self.now.tables format }
    {
        let place = pattern_place(format)?;
        self.tables.patterns[place]
    }

    fn encode_a(&self, name: Name, format: Format, m: i32, d: i32) -> Result<u16, EncodeError>
        ensures { result ≡ spec.encode_a self.now.tables name format m d }
    {
        let number = number_of(&self.tables.a, name).ok_or(EncodeError::Unavailable)?;
        let pattern = self.pattern_of(format).ok_or(EncodeError::Unavailable)?;
        let m = unsigned_field(m, m_values(format)).ok_or(EncodeError::Unfit)?;
        let d = unsigned_field(d, d_values(format)).ok_or(EncodeError::Unfit)?;
        Ok(a_word(format, number, u16::from(pattern), m, d))
    }

    fn encode_b(&self, name: Name, m: i32, d: i32) -> Result<u16, EncodeError>
        ensures { result ≡ spec.encode_b self.now.tables name m d }
    {
        let number = number_of(&self.tables.b, name).ok_or(EncodeError::Unavailable)?;
        word_without_m(number, 10, m, signed_field(d, 512))
    }

    fn encode_l(&self, name: Name, m: i32, d: i32) -> Result<u16, EncodeError>
        ensures { result ≡ spec.encode_l (word_of name) self.now.tables name m d }
    {
        if let Some(word) = word_of_name(name) {
            return if m == 0 && d == 0 {
                Ok(word)
            } else {
                Err(EncodeError::Unfit)
            };
        }
        if let Name::Bitl = name {
            return word_without_m(22, 8, m, unsigned_field(d, 256));
        }
        let number = number_of(&self.tables.l, name).ok_or(EncodeError::Unavailable)?;
        let field = if is_branch(name) {
            signed_field(d, 128)
        } else {
            unsigned_field(d, 256)
        };
        word_without_m(number, 8, m, field)
    }

    fn encode_format(&self, name: Name, format: Format, m: i32, d: i32) -> Result<u16, EncodeError>
        ensures { result ≡ encoding self.now.tables name format m d }
    {
        match format {
            Format::A1 | Format::A2 | Format::A3 | Format::A4 | Format::A5 => self.encode_a(
                name, format, m, d,
            ),
            Format::L => self.encode_l(name, m, d),
            Format::B => self.encode_b(name, m, d),
        }
    }

    /// The word that this book reads as the name, the format, M and D.
    pub fn encode(&self, name: Name, format: Format, m: i32, d: i32) -> Result<u16, EncodeError>
        ensures is { result ≡ spec.encode self.now.tables name format m d }
        ensures reads_back { ReadsBack self.now.tables name format m d result }
    {
        self.encode_format(name, format, m, d)
    }
}
