ghost use Rattle.access.specs.Kinds.{access_of, kind_read, permits, spelled};
ghost use Rattle.std.specs.Prelude.{◌≡◌, Some};

use crate::stop::Access;
use std::fmt;
use text::{Spelled, first_spelled};
use thiserror::Error;

/// What is done with a byte of the store, as grants are asked for it: a program fetches, reads and writes; from outside bytes are loaded
/// and copied; a close clears.
#[derive(Clone, Copy, Debug, PartialEq, Eq)]
pub enum Use {
    Fetch,
    Read,
    Write,
    Load,
    Copy,
    Clear,
}

impl Use {
    /// What a stop tells of it.
    #[inline(always)]
    pub fn access(self) -> Access
        ensures { result ≡ access_of self }
    {
        match self {
            Use::Fetch | Use::Read | Use::Copy => Access::Read,
            Use::Write | Use::Load | Use::Clear => Access::Write,
        }
    }
}

/// The kind of a grant.
#[derive(Clone, Copy, Debug, PartialEq, Eq)]
pub enum Kind {
    Read,
    Write,
}

/// A text that spells no kind.
#[derive(Clone, Copy, Debug, PartialEq, Eq, Error)]
#[error("no such kind (read, write)")]
pub struct UnknownKind;

const KINDS: [Kind; 2] = [Kind::Read, Kind::Write];

impl Kind {
    /// Whether a grant of this kind lets that be done with its bytes: the one table of kinds and uses.
    #[inline(always)]
    pub fn permits(self, purpose: Use) -> bool
        ensures { result ≡ permits self purpose }
    {
        match (self, purpose) {
            (Kind::Read, Use::Fetch | Use::Read | Use::Copy) => true,
            (Kind::Read, Use::Write | Use::Load | Use::Clear) => false,
            (
                Kind::Write,
                Use::Fetch | Use::Read | Use::Write | Use::Load | Use::Copy | Use::Clear,
            ) => true,
        }
    }
}

impl Spelled for Kind {
    ghost spelled = { spelled };

    fn spelling(self) -> &'static str {
        match self {
            Kind::Read => "read",
            Kind::Write => "write",
        }
    }
}

impl fmt::Display for Kind {
    ghost output = { λ kind. Some (spelled kind) };

    fn fmt<W: fmt::Write>(&self, f: &mut fmt::Formatter<W>) -> fmt::Result {
        f.write_str(self.spelling())
    }
}

impl TryFrom<&[u8]> for Kind {
    type Error = UnknownKind;

    ghost try_from_gives = { λ text result. result ≡ kind_read text.now };

    #[tactic(auto, unfolding(crate::specs::Kinds::kind_of))]
    fn try_from(text: &[u8]) -> Result<Kind, UnknownKind> {
        first_spelled(&KINDS, text).ok_or(UnknownKind)
    }
}
