ghost use Rattle.std.specs.Prelude.{◌≡◌};
ghost use Rattle.cases.specs.declared.unread.Unread.TheVariants.{OutOfMemory};

use cli::Failure;
use std::alloc::AllocError;

// Why a line gives no case to answer.
#[derive(Debug, Drop)]
pub enum Unread {
    NoCase,
    OutOfMemory(AllocError),
}

impl Unread {
    // What the program says of it, with the number of the line.
    pub fn at(self, line: usize) -> Failure {
        match self {
            Unread::NoCase => Failure::NoCase { line },
            Unread::OutOfMemory(e) => Failure::Memory(e),
        }
    }
}

impl From<AllocError> for Unread {
    ghost from_gives = { λ e unread. unread ≡ OutOfMemory e };

    fn from(e: AllocError) -> Unread {
        Unread::OutOfMemory(e)
    }
}
