ghost use Rattle.std.specs.Prelude.{◌≡◌, true, ⊤};
ghost use Rattle.std.specs.Option.{ForSome};
ghost use Rattle.book.specs.Readings.{readings_from};
ghost use Rattle.book.specs.Sound.{sound};

use crate::readings::Readings;
use crate::tables::Tables;
use std::alloc::{AllocError, Global};

/// A code book: which names have which numbers, and how the formats are told apart.
// It has no model: seen as its tables alone it would hide from proofs that they are sound.
#[derive(Drop)]
pub struct Book {
    pub tables: Tables,
    pub(crate) readings: Option<Readings>,
    ghost sound: { sound tables ≡ true },
    ghost tabled: { ForSome readings (λ r. r.held.items ≡ readings_from tables 0 65536) },
}

// Without the table of readings, and so with no memory asked for; it answers the same.
impl Clone for Book {
    ghost is_clone = { λ book clone. clone.tables ≡ book.tables };

    ghost is_infallible = { λ _. ⊤ };

    fn clone(&self) -> Result<Book, AllocError> {
        Ok(Book {
            tables: self.tables,
            readings: None,
        })
    }
}

impl Book {
    /// From here on a word is looked up, in 384 KiB, and not read anew. Nothing else changes; where there is no memory for it, not even that.
    pub fn tabulate(&mut self, alloc: Global)
        ensures { self.new.tables ≡ self.old.tables }
    {
        self.readings = Readings::of(&self.tables, alloc).ok();
    }
}
