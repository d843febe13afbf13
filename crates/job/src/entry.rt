ghost use Rattle.std.specs.Prelude.{◌≡◌, Some};
ghost use Rattle.job.specs.Entries.{spelled, entry_read};

use crate::fault::Fault;
use std::fmt;
use text::{Spelled, first_spelled};

/// What a line of a job is about, by its first field.
#[derive(Clone, Copy, PartialEq, Eq, Debug)]
pub enum Entry {
    Bay,
    Grant,
    Registers,
    Input,
    Output,
    Turns,
    Records,
    Results,
}

const ENTRIES: [Entry; 8] = [
    Entry::Bay,
    Entry::Grant,
    Entry::Registers,
    Entry::Input,
    Entry::Output,
    Entry::Turns,
    Entry::Records,
    Entry::Results,
];

impl Spelled for Entry {
    ghost spelled = { spelled };

    fn spelling(self) -> &'static str {
        match self {
            Entry::Bay => "bay",
            Entry::Grant => "grant",
            Entry::Registers => "registers",
            Entry::Input => "input",
            Entry::Output => "output",
            Entry::Turns => "turns",
            Entry::Records => "records",
            Entry::Results => "results",
        }
    }
}

impl fmt::Display for Entry {
    ghost output = { λ entry. Some (spelled entry) };

    fn fmt<W: fmt::Write>(&self, f: &mut fmt::Formatter<W>) -> fmt::Result {
        f.write_str(self.spelling())
    }
}

impl TryFrom<&[u8]> for Entry {
    type Error = Fault;

    ghost try_from_gives = { λ word result. result ≡ entry_read word.now };

    #[tactic(auto, unfolding(crate::specs::Entries::entry_of))]
    fn try_from(word: &[u8]) -> Result<Entry, Fault> {
        first_spelled(&ENTRIES, word).ok_or(Fault::Unknown)
    }
}
