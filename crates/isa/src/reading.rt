ghost use Rattle.std.specs.Prelude.{Some};
ghost use Rattle.isa.specs.Readings.{reading_text};

use crate::format::Format;
use crate::name::Name;
use std::fmt;

/// What a word means under a code book; a defined one has its name, its format, M and D. To be undefined is a reading too, which
/// programs print and a step obeys, and no failure to read: so it is no Result.
#[derive(Clone, Copy, PartialEq, Eq, Debug)]
pub enum Reading {
    Undefined,
    NoPattern,
    Defined {
        name: Name,
        format: Format,
        m: u8,
        d: i16,
    },
}

impl fmt::Display for Reading {
    ghost output = { λ reading. Some (reading_text reading) };

    fn fmt<W: fmt::Write>(&self, f: &mut fmt::Formatter<W>) -> fmt::Result {
        match *self {
            Reading::Undefined => f.write_str("undefined"),
            Reading::NoPattern => f.write_str("no pattern"),
            Reading::Defined { name, format, m, d } => write!(f, "{name} {format} {m} {d}"),
        }
    }
}
