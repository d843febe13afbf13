ghost use Rattle.std.specs.Prelude.{◌≡◌};
ghost use Rattle.listing.specs.declared.fault.Fault.TheVariants.{Unended as NoLineFeed, Name, Format, Encode};

use book::EncodeError;
use isa::{UnknownFormat, UnknownName};
use text::{AtLine, Unended};
use thiserror::Error;

/// What is wrong with a line of a listing.
#[derive(Clone, Copy, PartialEq, Eq, Debug, Error)]
pub enum Fault {
    #[error("the line lacks its line feed")]
    Unended,
    #[error("the address is no even number from 0 to 65535; spaces part the words of a line")]
    Address,
    #[error("the address lies below the end of the line before")]
    Below,
    #[error("a halfword lies past 65535")]
    Past,
    #[error("not the words of such a line (NAME FORMAT M D, word HHHH, halfwords N ..)")]
    Words,
    #[error("refused with 21: no such name")]
    Name,
    #[error("refused with 21: no such format (A1, A2, A3, A4, A5, L, B)")]
    Format,
    #[error("not a number, or out of range")]
    Number,
    #[error("{0}")]
    Encode(EncodeError),
}

/// The first fault of a listing, with the number of its line.
pub type Refused = AtLine<Fault>;

impl From<Unended> for Fault {
    ghost from_gives = { λ _ fault. fault ≡ NoLineFeed };

    fn from(_line: Unended) -> Fault {
        Fault::Unended
    }
}

impl From<UnknownName> for Fault {
    ghost from_gives = { λ _ fault. fault ≡ Name };

    fn from(_name: UnknownName) -> Fault {
        Fault::Name
    }
}

impl From<UnknownFormat> for Fault {
    ghost from_gives = { λ _ fault. fault ≡ Format };

    fn from(_format: UnknownFormat) -> Fault {
        Fault::Format
    }
}

impl From<EncodeError> for Fault {
    ghost from_gives = { λ error fault. fault ≡ Encode error };

    fn from(error: EncodeError) -> Fault {
        Fault::Encode(error)
    }
}
