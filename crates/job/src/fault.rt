ghost use Rattle.std.specs.Prelude.{◌≡◌};
ghost use Rattle.job.specs.Faults.{grant_fault};
ghost use Rattle.job.specs.declared.fault.Fault.TheVariants.{Kind as OfKind};

use crate::entry::Entry;
use access::UnknownKind;
use bays::Refusal;
use text::AtLine;
use thiserror::Error;

/// What is wrong with a line of a job, or with the whole of it.
#[derive(Clone, Copy, PartialEq, Eq, Debug, Error)]
pub enum Fault {
    #[error("the line lacks its line feed")]
    Unended,
    #[error("no such entry (bay, grant, registers, input, output, turns, records, results); tabs part an entry and its values")]
    Unknown,
    #[error("another number of fields than this entry has")]
    Fields,
    #[error("not a number, or out of range")]
    Number,
    #[error("a grant of another kind than read or write")]
    Kind,
    #[error("a file name that is empty or not UTF-8")]
    Text,
    #[error("the entry {0} stands twice")]
    Repeated(Entry),
    #[error("grant refused with 4: last is below first")]
    Reversed,
    #[error("grant refused with 5: a bay has six at most")]
    SeventhGrant,
    #[error("grant refused with 6: it shares a byte with another, and one of them is a write grant")]
    Clash,
    #[error("the halfwords do not lie in the store whole")]
    Outside,
    #[error("the job has no entry {0}")]
    Missing(Entry),
    #[error("refused with 7: not all bytes lie in the grants that it needs: {0}")]
    Denied(Entry),
}

/// The first fault of a job, with the number of its line; past the last line where something is missing.
pub type Refused = AtLine<Fault>;

impl From<UnknownKind> for Fault {
    ghost from_gives = { λ _ fault. fault ≡ OfKind };

    fn from(_kind: UnknownKind) -> Fault {
        Fault::Kind
    }
}

// A grant is refused for one of three reasons.
impl From<Refusal> for Fault {
    ghost from_gives = { λ refusal fault. fault ≡ grant_fault refusal };

    fn from(refusal: Refusal) -> Fault {
        match refusal {
            Refusal::Reversed => Fault::Reversed,
            Refusal::Full => Fault::SeventhGrant,
            _ => Fault::Clash,
        }
    }
}
