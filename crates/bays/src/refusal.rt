ghost use Rattle.bays.specs.Refusals;
ghost use Rattle.std.specs.Prelude.{◌≡◌};

use thiserror::Error;

/// Why a call is refused; a refused call alters nothing.
#[derive(Clone, Copy, Debug, PartialEq, Eq, Error)]
pub enum Refusal {
    #[error("no bay has this number")]
    NoSuchBay = 1,
    #[error("the bay is not at the handle's stage")]
    OtherStage = 2,
    #[error("the bay is taken")]
    Taken = 3,
    #[error("the last address is below the first")]
    Reversed = 4,
    #[error("the bay has six grants")]
    Full = 5,
    #[error("the range clashes with a grant")]
    Clash = 6,
    #[error("a byte lies outside the bay's grants")]
    Ungranted = 7,
}

impl Refusal {
    pub fn number(self) -> u8
        ensures { result ≡ Refusals.number self }
    {
        self as u8
    }
}
