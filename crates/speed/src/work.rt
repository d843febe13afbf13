use crate::measure::measure;
use crate::runs::requests;
use cli::{Failure, Fault, full, parse_job, read_file, read_image, read_records, words, zeroed};
use job::Job;
use session::Request;
use std::alloc::Global;
use stores::{Image, Mapped, Plain, check_table};

const MAPPED: &str = "mapped over plain";

const TWICE_MAPPED: &str = "mapped over mapped over plain";

fn identity() -> [u8; 64] {
    let mut table = [0u8; 64];
    for (page, place) in (0..64u8).zip(table.iter_mut()) {
        *place = page;
    }
    table
}

// By the plain store's time, in hundredths.
fn tell(rt: &HostRuntime, kind: &str, micros: u64, plain: u64) -> Result<(), Failure> {
    let ratio = micros.saturating_mul(100).checked_div(plain).unwrap_or(0);
    eprintln!(rt; "{kind}: {micros} us, {ratio} hundredths of the plain store's")?;
    Ok(())
}

fn over_plain(
    rt: &HostRuntime,
    image: &str,
    book: &str,
    requests: &[Request],
) -> Result<u64, Failure> {
    let mut memory = read_image(rt, image)?;
    measure(rt, "plain", Plain::new(&mut memory), book, requests)
}

fn over_image(
    rt: &HostRuntime,
    image: &str,
    book: &str,
    requests: &[Request],
) -> Result<u64, Failure> {
    let image = read_image(rt, image)?;
    let mut work = zeroed(rt.alloc(), 65536)?;
    measure(rt, "image", Image::new(&image, &mut work), book, requests)
}

// Each of the two has the pages in their order, so that the program finds its bytes.
fn over_pages(
    rt: &HostRuntime,
    image: &str,
    book: &str,
    requests: &[Request],
    plain: u64,
) -> Result<(), Failure> {
    let table = identity();
    if check_table(&table).is_ok() {
        let mut memory = read_image(rt, image)?;
        let store = Mapped::new(Plain::new(&mut memory), table);
        let micros = measure(rt, MAPPED, store, book, requests)?;
        tell(rt, MAPPED, micros, plain)?;
        let mut memory = read_image(rt, image)?;
        let store = Mapped::new(Mapped::new(Plain::new(&mut memory), table), table);
        let micros = measure(rt, TWICE_MAPPED, store, book, requests)?;
        tell(rt, TWICE_MAPPED, micros, plain)?;
    }
    Ok(())
}

fn measure_over(
    rt: &HostRuntime,
    image: &str,
    book: &str,
    requests: &[Request],
) -> Result<(), Failure> {
    let plain = over_plain(rt, image, book, requests)?;
    tell(rt, "plain", plain, plain)?;
    let micros = over_image(rt, image, book, requests)?;
    tell(rt, "image", micros, plain)?;
    over_pages(rt, image, book, requests, plain)
}

fn first_record<'a>(alloc: Global, job: &Job, records: &'a [u8]) -> Result<&'a [u8], Failure> {
    records
        .get(..job.input.bytes())
        .ok_or_else(|| Failure::of_file(alloc, job.records, Fault::NoRecord))
}

pub fn measure_all(rt: &HostRuntime) -> Result<(), Failure> {
    let words = words(rt)?;
    let [book, image, job, runs] = words.as_slice() else {
        return Err(Failure::Usage("speed BOOK IMAGE JOB RUNS"));
    };
    let runs = full(runs.as_str().as_bytes()).ok_or(Failure::Usage(
        "speed BOOK IMAGE JOB RUNS (RUNS 0 to 4294967295)",
    ))?;
    let text = read_file(rt, job.as_str())?;
    let job = parse_job(rt, job.as_str(), &text)?;
    let records = read_records(rt, &job)?;
    let record = first_record(rt.alloc(), &job, &records)?;
    let requests = requests(rt.alloc(), &job, record, runs)?;
    measure_over(rt, image.as_str(), book.as_str(), &requests)
}

#[cfg(test)]
mod tests {
    use super::*;
    use job::read_job;
    use std::test::Fail;

    // A record of one halfword.
    const JOB: &[u8] =
        b"bay\t1\ngrant\twrite\t0\t1\nregisters\t0\t0\t0\t0\t0\t0\t0\ninput\t0\t1\noutput\t0\t1\nturns\t1\t1\nrecords\ta.rec\nresults\tb\n";

    #[test]
    fn a_record_is_the_first(rt: HostRuntime) -> Result<(), Fail> {
        let Ok(job) = read_job(JOB) else {
            panic!(rt; "a job");
        };
        let record = first_record(rt.alloc(), &job, &[5, 6, 7, 8]);
        assert!(rt; record.is_ok_and(|record| record == [5, 6].as_slice()));
        Ok(())
    }

    #[test]
    fn a_file_without_a_record_is_told(rt: HostRuntime) -> Result<(), Fail> {
        let Ok(job) = read_job(JOB) else {
            panic!(rt; "a job");
        };
        let Err(failure) = first_record(rt.alloc(), &job, &[]) else {
            panic!(rt; "no record");
        };
        let told = failure.to_string(rt.alloc())?;
        assert_eq!(rt; told.as_str(), "a.rec: it has no record");
        Ok(())
    }
}
