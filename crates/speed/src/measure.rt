use crate::runs::steps;
use cli::{Failure, read_book};
use session::{Request, drive};
use std::time::Instant;
use store::Store;

// Drives the requests over a store, under the book of a file; its steps are a result, and its time is told beside.
pub fn measure<S: Store + Drop>(
    rt: &HostRuntime,
    kind: &str,
    store: S,
    book: &str,
    requests: &[Request],
) -> Result<u64, Failure> {
    let book = read_book(rt, book)?;
    let start = Instant::now(rt)?;
    let (_store, replies) = drive(rt.alloc(), store, book, requests)?;
    let micros = u64::try_from(start.elapsed(rt)?.as_micros()).unwrap_or(u64::MAX);
    println!(rt; "{kind} {} steps", steps(&replies))?;
    Ok(micros)
}
