use crate::institute::Institute;
use crate::preparing::prepare_all;
use crate::rotation::run_all;
use cli::{Failure, Fault, read_book, read_file, read_image, words, write_new, zeroed};
use session::Session;
use std::alloc::AllocError;
use std::io;
use stores::Image;

// A job for each bay.
const MOST_JOBS: usize = 8;

// The results of a job are kept if every run halted.
fn keep(rt: &HostRuntime, institute: &Institute) -> Result<(), Failure> {
    if !institute.tally.all_halted() {
        return Ok(());
    }
    let file = institute.job.results;
    write_new(rt, file, &institute.results).map_err(|e| Failure::of_file(
        rt.alloc(),
        file,
        Fault::System(e),
    ))
}

// What came of a job.
fn tell(rt: &HostRuntime, institute: &Institute) -> io::Result<()> {
    let Institute {
        name,
        job,
        tally,
        results,
        ..
    } = institute;
    println!(rt; "job {name} in bay {}\n{tally}", job.number)?;
    if tally.all_halted() {
        println!(rt; "results {}, {} bytes", job.results, results.len())?;
    }
    Ok(())
}

// The jobs by their texts; no two may have one results file.
fn read_institutes<'a>(
    rt: &HostRuntime,
    names: &'a [String],
    texts: &'a [Vec<u8>],
) -> Result<Vec<Institute<'a>>, Failure> {
    let mut institutes: Vec<Institute> = Vec::new(rt.alloc());
    for (name, text) in names.iter().zip(texts) {
        let institute = Institute::read(rt, name.as_str(), text)?;
        let file = institute.job.results;
        if institutes.iter().any(|earlier| earlier.job.results == file) {
            return Err(Failure::of_file(rt.alloc(), file, Fault::Claimed));
        }
        institutes.push(institute).map_err(AllocError::from)?;
    }
    Ok(institutes)
}

// Runs all jobs in one hall: nothing runs before every bay is prepared.
fn run_jobs(
    rt: &HostRuntime,
    session: &mut Session<Image>,
    institutes: &mut [Institute],
) -> Result<(), Failure> {
    prepare_all(rt.alloc(), session, institutes)?;
    run_all(rt, session, institutes)
}

fn finish_all(rt: &HostRuntime, institutes: &[Institute]) -> Result<(), Failure> {
    for institute in institutes {
        keep(rt, institute)?;
    }
    for institute in institutes {
        tell(rt, institute)?;
    }
    if institutes
        .iter()
        .all(|institute| institute.tally.all_halted())
    {
        Ok(())
    } else {
        Err(Failure::Unhalted("not every run halted; a job with a run that did not has no results"))
    }
}

fn recover_all(rt: &HostRuntime, book: &str, image: &str, names: &[String]) -> Result<(), Failure> {
    let book = read_book(rt, book)?;
    let image = read_image(rt, image)?;
    let mut work = zeroed(rt.alloc(), 65536)?;
    let texts = names
        .iter()
        .map(|name| read_file(rt, name.as_str()))
        .try_collect::<Vec<Vec<u8>>>(rt.alloc())?;
    let mut institutes = read_institutes(rt, names, &texts)?;
    let mut session = Session::new(Image::new(&image, &mut work), book);
    run_jobs(rt, &mut session, &mut institutes)?;
    finish_all(rt, &institutes)
}

pub fn recover(rt: &HostRuntime) -> Result<(), Failure> {
    let words = words(rt)?;
    match words.as_slice() {
        [book, image, names @ ..] if (1..=MOST_JOBS).contains(&names.len()) => {
            recover_all(rt, book.as_str(), image.as_str(), names)
        }
        _ => Err(Failure::Usage("recover BOOK IMAGE JOB.. (one to eight)")),
    }
}
