use crate::institute::{Institute, record};
use crate::record::run_record;
use cli::Failure;
use session::Session;
use store::Store;

// About a second's work.
const STEPS_BETWEEN_NOTES: u64 = 20_000_000;

// How far the work has come, and how far it had when that was told last.
#[derive(Clone, Copy, Debug, PartialEq, Eq)]
struct Progress {
    records: u64,
    steps: u64,
    noted: u64,
}

impl Progress {
    fn count(&mut self, rt: &HostRuntime, steps: u32) -> Result<(), Failure> {
        self.records = self.records.saturating_add(1);
        self.steps = self.steps.saturating_add(u64::from(steps));
        if self.steps.saturating_sub(self.noted) >= STEPS_BETWEEN_NOTES {
            self.noted = self.steps;
            eprintln!(rt; "{} records", self.records)?;
        }
        Ok(())
    }
}

// The record of a number of one job, if it has so many.
fn run_one<S: Store + Drop>(
    rt: &HostRuntime,
    session: &mut Session<S>,
    institute: &mut Institute,
    number: usize,
    progress: &mut Progress,
) -> Result<(), Failure> {
    let Institute {
        name,
        job,
        records,
        tally,
        results,
    } = institute;
    if let Some(counts) = record(records, job.input.bytes(), number) {
        let ran = run_record(rt.alloc(), session, job, counts, results)?;
        tally.count(rt, name, ran)?;
        progress.count(rt, ran.steps)?;
    }
    Ok(())
}

// The first record of each job, then the second of each, and so on.
pub fn run_all<S: Store + Drop>(
    rt: &HostRuntime,
    session: &mut Session<S>,
    institutes: &mut [Institute],
) -> Result<(), Failure> {
    let mut progress = Progress {
        records: 0,
        steps: 0,
        noted: 0,
    };
    let most = institutes.iter().map(Institute::count).max().unwrap_or(0);
    for number in 0..most {
        for institute in institutes.iter_mut() {
            run_one(rt, session, institute, number, &mut progress)?;
        }
    }
    Ok(())
}
