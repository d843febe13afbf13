ghost use Rattle.std.specs.Prelude.{◌≡◌, ◌*◌, ◌≤◌};
ghost use Rattle.book.specs.Readings.{reading};
ghost use Rattle.job.specs.Ran.{end_of, recorded, turns_run};
ghost use Rattle.turns.specs.Turn.{run};

use crate::job::Job;
use access::Stop;
use book::Book;
use machine::Registers;
use store::{Store, write_all};
use turns::turn;

/// How the run of a record ended: its steps, the registers, and the stop, or none where its turns were spent.
#[derive(Clone, Copy, Debug, PartialEq, Eq)]
pub struct Ran {
    pub steps: u32,
    pub registers: Registers,
    pub stop: Option<Stop>,
}

// Turns of one budget from the job's registers, or those up to a stop.
fn run_some<S: Store>(book: &Book, job: &Job, store: &mut S, count: u16, budget: u16) -> Ran
    ensures is { end_of result (S.Store.bytes store.new)
        ≡ run (reading book.now.tables) job.now.rights (count * budget) 0 job.now.registers (S.Store.bytes store.old) }
    ensures few { result.steps ≤ 65535 * count }
{
    let mut ran = Ran {
        steps: 0,
        registers: job.registers,
        stop: None,
    };
    // Turns are counted, and nothing is indexed.
    for _k in 0..count {
        let turned = turn(book, &mut ran.registers, store, &job.rights, budget);
        ran.steps += u32::from(turned.steps);
        if turned.stop.is_some() {
            ran.stop = turned.stop;
            return ran;
        }
    }
    ran
}

// The job's turns from its registers, or those up to a stop.
fn run_turns<S: Store>(book: &Book, job: &Job, store: &mut S) -> Ran
    ensures { end_of result (S.Store.bytes store.new)
        ≡ turns_run (reading book.now.tables) job.now (S.Store.bytes store.old) }
{
    // A turn of some steps and one after it are a turn of both, so all are taken as the longest turns that there are.
    let steps = u32::from(job.turns.count) * u32::from(job.turns.budget);
    let mut ran = run_some(book, job, store, (steps / 65535) as u16, 65535);
    if ran.stop.is_some() {
        return ran;
    }
    let last = turn(
        book,
        &mut ran.registers,
        store,
        &job.rights,
        (steps % 65535) as u16,
    );
    ran.steps += u32::from(last.steps);
    ran.stop = last.stop;
    ran
}

/// The record goes to the job's input, and the program runs from the job's registers.
pub fn run_record<S: Store>(book: &Book, job: &Job, store: &mut S, counts: &[u8]) -> Ran
    ensures { end_of result (S.Store.bytes store.new)
        ≡ recorded (reading book.now.tables) job.now (S.Store.bytes store.old) counts.now }
{
    write_all(store, job.input.address, counts);
    run_turns(book, job, store)
}
