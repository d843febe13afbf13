use crate::case::{Case, Run};
use crate::changes::Changes;
use book::{Book, EncodeError};
use isa::{Format, Name};
use std::{io, str};
use turns::turn;

fn answer_run(rt: &HostRuntime, book: &Book, run: Run) -> io::Result<()> {
    let Run {
        label,
        mut registers,
        rights,
        budget,
        before,
        mut store,
    } = run;
    let turned = turn(book, &mut registers, &mut store, &rights, budget);
    let label = str::from_utf8(label).unwrap_or("?");
    let steps = turned.steps;
    let changes = Changes {
        before: &before,
        after: &store,
    };
    match turned.stop {
        None => println!(rt; "{label} {steps} spent {registers} {changes}"),
        Some(stop) => println!(rt; "{label} {steps} stopped {stop} {registers} {changes}"),
    }
}

fn answer_book(rt: &HostRuntime, text: &[u8]) -> io::Result<()> {
    match Book::new().read(text) {
        Ok(()) => println!(rt; "book accepted"),
        Err(refused) => {
            let number = refused.fault.number();
            let line = refused.line;
            println!(rt; "book refused {number} {line}")
        }
    }
}

fn answer_reading(rt: &HostRuntime, book: &Book, word: u16) -> io::Result<()> {
    let reading = book.reading(word);
    println!(rt; "reading {reading}")
}

fn answer_encode_error(rt: &HostRuntime, error: EncodeError) -> io::Result<()> {
    let number = error.number();
    println!(rt; "put refused {number}")
}

fn answer_put(
    rt: &HostRuntime,
    book: &Book,
    name: Name,
    format: Format,
    m: i32,
    d: i32,
) -> io::Result<()> {
    match book.encode(name, format, m, d) {
        Ok(word) => println!(rt; "put {word:04X}"),
        Err(error) => answer_encode_error(rt, error),
    }
}

impl<'a> Case<'a> {
    pub fn answer(self, rt: &HostRuntime, book: &Book) -> io::Result<()> {
        match self {
            Case::Run(run) => answer_run(rt, book, run),
            Case::Book(text) => answer_book(rt, &text),
            Case::Reading(word) => answer_reading(rt, book, word),
            Case::Put(name, format, m, d) => answer_put(rt, book, name, format, m, d),
            Case::Unknown => answer_encode_error(rt, EncodeError::Unavailable),
        }
    }
}
