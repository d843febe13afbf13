ghost use Rattle.std.specs.List.{FoldsTo, flat_map};
ghost use Rattle.std.specs.Prelude.{◌≡◌, ◌++◌, IfOk, OnOk, map};
ghost use Rattle.book.specs.Readings.{reading};
ghost use Rattle.cli.specs.Halted.{halt_ended};
ghost use Rattle.cli.specs.Runs.{all_runs, bytes_left, output_in, output_of, ran_of};

use access::Cause;
use book::Book;
use job::{Job, Ran, run_record};
use std::alloc::{AllocError, Global};
use store::{Owned, append_all};

// Whether the run ended with the program's HRK.
pub fn halted(ran: Ran) -> bool
    ensures { result ≡ halt_ended ran.stop }
{
    ran.stop
        .is_some_and(|stop| matches!(stop.cause, Cause::Halt))
}

// What lies in the job's output, at the end of `results`.
fn append_output(job: &Job, store: &Owned, results: &mut Vec<u8>) -> Result<(), AllocError>
    ensures { OnOk result
        (results.new.items ≡ results.old.items ++ output_in job.now store.now.held.items) }
{
    append_all(store, job.output.address, job.output.bytes(), results)
}

// Runs the job on each record, and gives the results one after the other. Each run is told to `told`, which may end them.
// Book, job, store and records are of four files and stay apart: no program holds them as one value.
pub fn run_records<E: From<AllocError>, F: FnMut(Ran) -> Result<(), E>>(
    alloc: Global,
    book: &Book,
    job: &Job,
    store: &mut Owned,
    records: &[u8],
    mut told: F,
) -> Result<Vec<u8>, E>
    requires { F.IsAlwaysCallable told }
    ensures results { let all = all_runs (reading book.now.tables) job.now store.old.held.items records.now in
        IfOk result (λ v. v.items ≡ flat_map (output_of job.now) all) }
    ensures calls { let all = all_runs (reading book.now.tables) job.now store.old.held.items records.now in
        OnOk result (
        (last : F) × FoldsTo (λ now ran next. F.step now ran (Ok tt) next) told (map ran_of all) last) }
    ensures bytes { let all = all_runs (reading book.now.tables) job.now store.old.held.items records.now in
        OnOk result (store.new.held.items ≡ bytes_left store.old.held.items all) }
{
    let mut results = Vec::new(alloc);
    // No job that is read has records of no bytes; `max` is for one that is put together otherwise.
    for counts in records.chunks(job.input.bytes().max(1)) {
        let ran = run_record(book, job, store, counts);
        told(ran)?;
        append_output(job, store, &mut results)?;
    }
    Ok(results)
}

#[cfg(test)]
mod tests {
    use super::*;
    use crate::files::assembled;
    use job::read_job;
    use std::test::Fail;

    // One halfword in, two out, under a book that has no instruction.
    const JOB: &[u8] =
        b"bay\t1\ngrant\twrite\t0\t9\nregisters\t0\t0\t0\t0\t0\t0\t0\ninput\t0\t1\noutput\t0\t2\nturns\t1\t1\nrecords\ta\nresults\tb\n";

    #[test]
    fn each_run_leaves_its_output(rt: HostRuntime) -> Result<(), Fail> {
        let book = Book::new();
        let Ok(job) = read_job(JOB) else {
            panic!(rt; "a job");
        };
        let Ok(mut store) = assembled(rt.alloc(), &book, "a listing", b"2 halfwords 258\n") else {
            panic!(rt; "a listing");
        };
        let mut halts = 0u8;
        let results = run_records(
            rt.alloc(),
            &book,
            &job,
            &mut store,
            &[5, 6, 7, 8],
            |ran| -> Result<(), AllocError> {
                if halted(ran) {
                    halts = halts.saturating_add(1);
                }
                Ok(())
            },
        )?;
        assert_eq!(rt; results.as_slice(), [5, 6, 1, 2, 7, 8, 1, 2].as_slice());
        assert_eq!(rt; halts, 0);
        Ok(())
    }
}
