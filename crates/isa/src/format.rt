ghost use Rattle.std.specs.Prelude.{◌≡◌, Some};
ghost use Rattle.isa.specs.Formats.{spelled, format_read};

use std::fmt;
use text::{Spelled, first_spelled};
use thiserror::Error;

/// How the fields of an instruction word lie: five ways for the A instructions, and one each for L and B.
#[derive(Clone, Copy, PartialEq, Eq, Debug)]
pub enum Format {
    A1,
    A2,
    A3,
    A4,
    A5,
    L,
    B,
}

/// A text that spells no format.
#[derive(Clone, Copy, PartialEq, Eq, Debug, Error)]
#[error("no such format (A1, A2, A3, A4, A5, L, B)")]
pub struct UnknownFormat;

const FORMATS: [Format; 7] = [
    Format::A1,
    Format::A2,
    Format::A3,
    Format::A4,
    Format::A5,
    Format::L,
    Format::B,
];

impl Spelled for Format {
    ghost spelled = { spelled };

    fn spelling(self) -> &'static str {
        match self {
            Format::A1 => "A1",
            Format::A2 => "A2",
            Format::A3 => "A3",
            Format::A4 => "A4",
            Format::A5 => "A5",
            Format::L => "L",
            Format::B => "B",
        }
    }
}

impl fmt::Display for Format {
    ghost output = { λ format. Some (spelled format) };

    fn fmt<W: fmt::Write>(&self, f: &mut fmt::Formatter<W>) -> fmt::Result {
        f.write_str(self.spelling())
    }
}

impl TryFrom<&[u8]> for Format {
    type Error = UnknownFormat;

    ghost try_from_gives = { λ text result. result ≡ format_read text.now };

    #[tactic(auto, unfolding(crate::specs::Formats::format_of))]
    fn try_from(text: &[u8]) -> Result<Format, UnknownFormat> {
        first_spelled(&FORMATS, text).ok_or(UnknownFormat)
    }
}
