ghost use Rattle.std.specs.Prelude.{◌≡◌};
ghost use Rattle.book.specs.Faults.{fault_number};
ghost use Rattle.book.specs.declared.fault.Fault.TheVariants.{Name};

use isa::UnknownFormat;
use text::AtLine;
use thiserror::Error;

/// What is wrong with a text that should be a code book.
#[derive(Clone, Copy, PartialEq, Eq, Debug, Error)]
pub enum Fault {
    #[error("the code book is refused with 11: not just three fields parted by tabs, or no line feed")]
    Fields = 11,
    #[error("the code book is refused with 12: no such letter, or no such name of the letter")]
    Name = 12,
    #[error("the code book is refused with 13: the value is not of its kind (form, range, excluded number, length of pattern)")]
    Value = 13,
    #[error("the code book is refused with 14: it repeats a name or a value of its letter, or one pattern begins the other")]
    Repeated = 14,
    #[error("the code book is refused with 15: a format is missing")]
    Missing = 15,
}

/// The first fault of a text, with the number of its line.
pub type Refused = AtLine<Fault>;

impl Fault {
    pub fn number(self) -> u8
        ensures { result ≡ fault_number self }
    {
        self as u8
    }
}

impl From<UnknownFormat> for Fault {
    ghost from_gives = { λ _ fault. fault ≡ Name };

    fn from(_format: UnknownFormat) -> Fault {
        Fault::Name
    }
}

#[cfg(test)]
mod tests {
    use super::*;
    use crate::book::Book;
    use std::process::Abort;
    use std::test::Fail;

    fn refused(rt: &impl Abort, text: &[u8]) -> Refused {
        let Err(refused) = Book::new().read(text) else {
            panic!(rt; "a text that is refused");
        };
        refused
    }

    #[test]
    fn a_refusal_says_line_number_and_words(rt: HostRuntime) -> Result<(), Fail> {
        let told = refused(&rt, b"A\tLD\t17\nA\tAD\t17\n").to_string(rt.alloc())?;
        assert_eq!(rt;
            told.as_str(),
            "line 2: the code book is refused with 14: it repeats a name or a value of its letter, or one pattern begins the other"
        );
        Ok(())
    }

    #[test]
    fn a_format_that_is_missing_is_told_after_the_last_line(rt: HostRuntime) -> Result<(), Fail> {
        let told = refused(&rt, b"A\tLD\t17\n").to_string(rt.alloc())?;
        assert_eq!(rt;
            told.as_str(),
            "line 2: the code book is refused with 15: a format is missing"
        );
        Ok(())
    }
}
