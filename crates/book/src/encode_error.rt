ghost use Rattle.std.specs.Prelude.{◌≡◌};
ghost use Rattle.book.specs.Encode.{encode_error_number};

use thiserror::Error;

/// Why no word can be encoded: the book has no such instruction, or M or D does not fit.
#[derive(Clone, Copy, PartialEq, Eq, Debug, Error)]
pub enum EncodeError {
    #[error("refused with 21: the code book has no such instruction")]
    Unavailable = 21,
    #[error("refused with 22: M or D does not fit")]
    Unfit = 22,
}

impl EncodeError {
    pub fn number(self) -> u8
        ensures { result ≡ encode_error_number self }
    {
        self as u8
    }
}
