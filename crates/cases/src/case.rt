use crate::hex::{hex_bytes, hex_half};
use crate::image::put_parts;
use crate::unread::Unread;
use crate::values::{half, registers, rights, signed};
use access::Rights;
use isa::{Format, Name};
use machine::Registers;
use std::alloc::Global;
use store::Owned;

// A turn to run: its label, registers, bay and budget, and the bytes before it, which are in the store too.
#[derive(Drop)]
pub struct Run<'a> {
    pub label: &'a [u8],
    pub registers: Registers,
    pub rights: Rights,
    pub budget: u16,
    pub before: Vec<u8>,
    pub store: Owned,
}

// What a line of the table asks.
#[derive(Drop)]
pub enum Case<'a> {
    Run(Run<'a>),
    Book(Vec<u8>),
    Reading(u16),
    Put(Name, Format, i32, i32),
    // To be put together of a name or a format that is none.
    Unknown,
}

fn read_run<'a>(alloc: Global, words: &[&'a [u8]]) -> Result<Run<'a>, Unread> {
    let [label, values @ .., grants, bytes, budget] = words else {
        return Err(Unread::NoCase);
    };
    let mut before = vec![in alloc; 0u8; 65536]?;
    put_parts(&mut before, bytes)?;
    let store = Owned::new(before.clone()?);
    Ok(Run {
        label,
        registers: registers(values)?,
        rights: rights(grants)?,
        budget: half(budget)?,
        before,
        store,
    })
}

fn read_put<'a>(name: &[u8], format: &[u8], m: i32, d: i32) -> Result<Case<'a>, Unread> {
    match (Name::try_from(name), Format::try_from(format)) {
        (Ok(name), Ok(format)) => Ok(Case::Put(name, format, m, d)),
        _ => Ok(Case::Unknown),
    }
}

// As many words as a line is read by, a `run` case having the most, and one more.
const WORDS: usize = 18;

impl<'a> Case<'a> {
    pub fn read(alloc: Global, line: &'a [u8]) -> Result<Case<'a>, Unread> {
        let words: Vec<&'a [u8]> = line.split(|b| *b == b' ').take(WORDS).collect(alloc)?;
        match words.as_slice() {
            [b"run", words @ ..] => Ok(Case::Run(read_run(alloc, words)?)),
            [b"book", text, ..] => Ok(Case::Book(hex_bytes(alloc, text)?)),
            [b"reading", word, ..] => Ok(Case::Reading(hex_half(word)?)),
            [b"put", name, format, m, d, ..] => read_put(name, format, signed(m)?, signed(d)?),
            _ => Err(Unread::NoCase),
        }
    }
}
