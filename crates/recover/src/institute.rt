use crate::report::Tally;
use cli::{Failure, parse_job, read_records, refuse_existing};
use job::Job;

// One institute's job, with its records, and what came of them so far.
#[derive(Drop)]
pub struct Institute<'a> {
    pub name: &'a str,
    pub job: Job<'a>,
    pub records: Vec<u8>,
    pub tally: Tally,
    pub results: Vec<u8>,
}

impl<'a> Institute<'a> {
    // By the text of its job; a results file that is there already is refused.
    pub fn read(rt: &HostRuntime, name: &'a str, text: &'a [u8]) -> Result<Institute<'a>, Failure> {
        let job = parse_job(rt, name, text)?;
        refuse_existing(rt, job.results, "the results file").map_err(|e| e.about(
            rt.alloc(),
            job.results,
        ))?;
        let records = read_records(rt, &job)?;
        Ok(Institute {
            name,
            tally: Tally::new(job.registers),
            job,
            records,
            results: Vec::new(rt.alloc()),
        })
    }

    // How many records there are.
    pub fn count(&self) -> usize {
        self.records.len() / self.job.input.bytes().max(1)
    }
}

// The record of a number, from 0, among records of so many bytes each.
pub fn record(records: &[u8], size: usize, number: usize) -> Option<&[u8]> {
    records.get(number.checked_mul(size)?..)?.get(..size)
}
