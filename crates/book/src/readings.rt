ghost use Rattle.book.specs.Readings.{reading, readings_from};
ghost use Rattle.isa.specs.declared.reading.Reading.TheVariants.{Undefined};
ghost use Rattle.std.specs.Prelude.{◌≡◌, IfOk, length, slice_index_or, vec_len};

use crate::reading::read_word;
use crate::tables::Tables;
use isa::Reading;
use std::alloc::{AllocError, Global};

/// The reading of each word, so that a step looks it up.
#[derive(Drop)]
pub struct Readings {
    held: Vec<Reading>,
    ghost full: { vec_len held ≡ 65536 },
}

// The readings of successive words, from 0 on.
#[tactic(auto, unfolding(crate::specs::Readings::readings_from))]
fn fill(readings: &mut [Reading], tables: &Tables)
    ensures { readings.new ≡ readings_from tables.now 0 (length readings.old) }
{
    let mut word = 0;
    for reading in readings.iter_mut() {
        *reading = read_word(tables, word);
        word = word.wrapping_add(1);
    }
}

impl Readings {
    pub(crate) fn of(tables: &Tables, alloc: Global) -> Result<Readings, AllocError>
        ensures { IfOk result (λ made. made.held.items ≡ readings_from tables.now 0 65536) }
    {
        let mut held = vec![in alloc; Reading::Undefined; 65536]?;
        fill(&mut held, tables);
        Ok(Readings { held })
    }

    #[inline(always)]
    pub(crate) fn at(&self, word: u16) -> Reading
        ensures { result ≡ slice_index_or self.now.held.items word Undefined }
    {
        self.held[usize::from(word)]
    }
}
