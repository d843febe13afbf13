ghost use Rattle.book.specs.Readings.{reading};
ghost use Rattle.turns.specs.Laws.{MovesBytes, MovesHalfwords, Split};
ghost use Rattle.turns.specs.Turn.{all_spent, met_after, run, run_end, stopped_after, turned_by};
ghost use Rattle.std.specs.Prelude.{◌≡◌};

use crate::stepping::obey_next;
use access::{Reach, Rights, Stop};
use book::Book;
use machine::Registers;
use store::Store;

/// The steps that a turn completed, and the stop that it met; without one its budget is spent.
#[derive(Clone, Copy, Debug, PartialEq, Eq)]
pub struct Turned {
    pub steps: u16,
    pub stop: Option<Stop>,
}

impl Turned {
    fn spent(budget: u16) -> Turned
        ensures { result ≡ all_spent budget }
    {
        Turned {
            steps: budget,
            stop: None,
        }
    }

    fn stopped(completed: u16, stop: Stop) -> Turned
        ensures { result ≡ stopped_after completed stop }
    {
        Turned {
            steps: completed,
            stop: Some(stop),
        }
    }
}

// A stop goes up with the steps before it.
#[inline(always)]
fn after_steps<T>(completed: u16, res: Result<T, Stop>) -> Result<T, Turned>
    ensures { result ≡ met_after completed res }
{
    res.map_err(|stop| Turned::stopped(completed, stop))
}

// Steps up to the budget, or the answer of a turn that meets a stop.
#[inline(always)]
fn run_steps<S: Store>(
    book: &Book,
    registers: &mut Registers,
    store: &mut S,
    reach: &Reach,
    budget: u16,
) -> Result<(), Turned>
    ensures is { run_end registers.new (S.Store.bytes store.new) (turned_by budget result)
        ≡ run (reading book.now.tables) reach.now budget 0 registers.old (S.Store.bytes store.old) }
    ensures footing { S.Store.footing store.new ≡ S.Store.footing store.old }
{
    for steps in 0..budget {
        after_steps(steps, obey_next(book, registers, store, reach))?;
    }
    Ok(())
}

/// Steps up to the budget, or up to a stop.
#[tactic(auto, using(crate::proofs::Split::split, crate::proofs::Moving::moves_bytes, crate::proofs::Moving::moves_halfwords))]
pub fn turn<S: Store>(
    book: &Book,
    registers: &mut Registers,
    store: &mut S,
    rights: &Rights,
    budget: u16,
) -> Turned
    ensures is { run_end registers.new (S.Store.bytes store.new) result
        ≡ run (reading book.now.tables) rights.now budget 0 registers.old (S.Store.bytes store.old) }
    ensures footing { S.Store.footing store.new ≡ S.Store.footing store.old }

    // The laws of turns.
    ensures turns_join { Split }
    ensures moves_byte_strings { MovesBytes }
    ensures moves_halfword_strings { MovesHalfwords }
{
    match run_steps(book, registers, store, &Reach::new(rights), budget) {
        Ok(()) => Turned::spent(budget),
        Err(turned) => turned,
    }
}
