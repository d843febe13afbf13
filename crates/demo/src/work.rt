use crate::compare::{differing, float_differing, in_common};
use book::Book;
use cli::{
    Failure, Fault, assembled, halted, parse_job, read_book, read_file, read_records,
    refuse_partial, run_records, words,
};
use job::Job;
use std::alloc::Global;
use store::Owned;

// The results of a job on its records, which must all halt.
fn results(
    alloc: Global,
    book: &Book,
    name: &str,
    job: &Job,
    store: &mut Owned,
    records: &[u8],
) -> Result<Vec<u8>, Failure> {
    let mut record = 0u64;
    run_records(alloc, book, job, store, records, |ran| {
        record = record.saturating_add(1);
        if halted(ran) {
            Ok(())
        } else {
            Err(Failure::of_file(alloc, name, Fault::Unhalted { record }))
        }
    })
}

pub fn demonstrate(rt: &HostRuntime) -> Result<(), Failure> {
    let words = words(rt)?;
    let [book, listing, calibrate, undo, ..] = words.as_slice() else {
        return Err(Failure::Usage("demo BOOK LISTING CALIBRATE UNDO"));
    };
    let book = read_book(rt, book.as_str())?;
    let text = read_file(rt, listing.as_str())?;
    let mut store = assembled(rt.alloc(), &book, listing.as_str(), &text)?;
    let text = read_file(rt, calibrate.as_str())?;
    let job = parse_job(rt, calibrate.as_str(), &text)?;
    let counts = read_records(rt, &job)?;
    let heights = results(
        rt.alloc(),
        &book,
        calibrate.as_str(),
        &job,
        &mut store,
        &counts,
    )?;
    let text = read_file(rt, undo.as_str())?;
    let job = parse_job(rt, undo.as_str(), &text)?;
    refuse_partial(rt.alloc(), &job, undo.as_str(), &heights)?;
    let recovered = results(rt.alloc(), &book, undo.as_str(), &job, &mut store, &heights)?;
    let all = in_common(&counts, &recovered);
    let differ = differing(&counts, &recovered);
    println!(rt; "counts recovered by the shore program: {all}, of which differ: {differ}")?;
    let wrong = float_differing(&counts, &heights);
    println!(rt; "a float division with rounding gets wrong: {wrong}")?;
    Ok(())
}

#[cfg(test)]
mod tests {
    use super::*;
    use cli::zeroed;
    use job::read_job;
    use std::test::Fail;

    // A record is the instruction that is run.
    const JOB: &[u8] =
        b"bay\t1\ngrant\twrite\t0\t1\nregisters\t0\t0\t0\t0\t0\t0\t0\ninput\t0\t1\noutput\t0\t1\nturns\t1\t1\nrecords\ta\nresults\tb\n";

    const HRK: [u8; 2] = [0x12, 0x01];

    // Undefined under every book.
    const NONE: [u8; 2] = [0, 0];

    #[test]
    fn the_record_whose_run_did_not_halt_is_told(rt: HostRuntime) -> Result<(), Fail> {
        let Ok(job) = read_job(JOB) else {
            panic!(rt; "a job");
        };
        let mut store = Owned::new(zeroed(rt.alloc(), 65536)?);
        let records = [HRK, NONE, HRK];
        let Err(failure) = results(
            rt.alloc(),
            &Book::new(),
            "a.job",
            &job,
            &mut store,
            records.as_flattened(),
        ) else {
            panic!(rt; "a run that does not halt");
        };
        let told = failure.to_string(rt.alloc())?;
        assert_eq!(rt; told.as_str(), "a.job: the run of record 2 did not halt");
        Ok(())
    }
}
