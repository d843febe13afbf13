ghost use Rattle.std.specs.Prelude.{◌≡◌, ◌/◌, ◌%◌, ◌<◌};
ghost use Rattle.book.specs.Readings as spec;
ghost use Rattle.book.specs.Readings.{l_reading, a_reading, reading};
ghost use Rattle.book.specs.Laws.{IsLayout, IsSoleLayout, EncodesBack};
ghost use Rattle.isa.specs.declared.reading.Reading.TheVariants.{Defined};

use crate::book::Book;
use crate::tables::Tables;
use crate::whole::{is_branch, whole_word};
use isa::{Format, Name, Reading};
use word::{low, middle, signed};

#[inline(always)]
fn is_pattern(pattern: Option<u8>, bits: u16) -> bool
    ensures { result ≡ spec.is_pattern pattern bits }
{
    pattern.is_some_and(|v| u16::from(v) == bits)
}

// The format whose pattern begins the four bits. A test for each, since each pattern has its own number of bits.
#[inline(always)]
fn format_at(patterns: &[Option<u8>; 5], bits: u16) -> Option<Format>
    ensures { result ≡ spec.format_at patterns.now bits }
{
    if is_pattern(patterns[0], bits >> 2) {
        Some(Format::A1)
    } else if is_pattern(patterns[1], bits >> 3) {
        Some(Format::A2)
    } else if is_pattern(patterns[2], bits) {
        Some(Format::A3)
    } else if is_pattern(patterns[3], bits >> 1) {
        Some(Format::A4)
    } else if is_pattern(patterns[4], bits) {
        Some(Format::A5)
    } else {
        None
    }
}

#[inline(always)]
fn m_field(format: Format, word: u16) -> u8
    ensures { result ≡ spec.m_field format word }
{
    match format {
        Format::A2 => middle(word, 7, 2) as u8,
        Format::A4 => middle(word, 5, 2) as u8,
        Format::A5 => middle(word, 4, 2) as u8,
        _ => 0,
    }
}

#[inline(always)]
fn d_field(format: Format, word: u16) -> u8
    ensures { result ≡ spec.d_field format word }
{
    match format {
        Format::A1 => low(word, 8) as u8,
        Format::A2 => low(word, 7) as u8,
        Format::A3 => low(word, 6) as u8,
        Format::A4 => low(word, 5) as u8,
        Format::A5 => low(word, 4) as u8,
        Format::L | Format::B => 0,
    }
}

#[inline(always)]
fn read_a(tables: &Tables, word: u16) -> Reading
    ensures { result ≡ a_reading tables.now word }
{
    let Some(format) = format_at(&tables.patterns, middle(word, 6, 4)) else {
        return Reading::NoPattern;
    };
    match tables.a[usize::from(word >> 10)] {
        None => Reading::Undefined,
        Some(name) => Reading::Defined {
            name,
            format,
            m: m_field(format, word),
            d: i16::from(d_field(format, word)),
        },
    }
}

// The reading of a word that has neither a pattern nor M.
#[inline(always)]
fn plain(name: Name, format: Format, d: i16) -> Reading
    ensures { result ≡ Defined name format 0 d }
{
    Reading::Defined {
        name,
        format,
        m: 0,
        d,
    }
}

#[inline(always)]
fn read_l(tables: &Tables, word: u16) -> Reading
    requires { word < 16384 }
    ensures { result ≡ l_reading tables.now word }
{
    if let Some(name) = whole_word(word) {
        return plain(name, Format::L, 0);
    }
    let number = word >> 8;
    let d = low(word, 8);
    if number == 22 {
        return plain(Name::Bitl, Format::L, d as i16);
    }
    // Bound first: the check covers no match with a guard on an array's element.
    let entry = tables.l[usize::from(number)];
    match entry {
        None => Reading::Undefined,
        Some(name) if is_branch(name) => plain(name, Format::L, signed(d, 128)),
        Some(name) => plain(name, Format::L, d as i16),
    }
}

#[inline(always)]
#[tactic(auto, unfolding(crate::specs::Readings::reading))]
pub(crate) fn read_word(tables: &Tables, word: u16) -> Reading
    ensures { result ≡ reading tables.now word }
{
    match word {
        0..=0x03ff => Reading::Undefined,
        0x0400..=0x0fff => match tables.b[usize::from(word >> 10)] {
            None => Reading::Undefined,
            Some(name) => plain(name, Format::B, signed(low(word, 10), 512)),
        },
        0x1000..=0x3fff => read_l(tables, word),
        0x4000..=0xffff => read_a(tables, word),
    }
}

impl Book {
    #[inline(always)]
    fn look_up(&self, word: u16) -> Reading
        ensures { result ≡ reading self.now.tables word }
    {
        match &self.readings {
            Some(readings) => readings.at(word),
            None => read_word(&self.tables, word),
        }
    }

    /// What a word means under this book: its one layout, if it has any.
    #[inline(always)]
    pub fn reading(&self, word: u16) -> Reading
        ensures is { result ≡ reading self.now.tables word }
        ensures layout { IsLayout self.now.tables word result }
        ensures sole { IsSoleLayout self.now.tables word result }
        ensures encodes_back { EncodesBack self.now.tables word result }
    {
        self.look_up(word)
    }
}
