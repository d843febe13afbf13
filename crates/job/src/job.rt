use crate::area::Area;
use access::Rights;
use machine::Registers;

/// At most so many turns, each of that budget.
#[derive(Clone, Copy, PartialEq, Eq, Debug)]
pub struct Turns {
    pub count: u16,
    pub budget: u16,
}

/// What one job says. For each record: it goes to `input`, the program starts from `registers`
/// and takes its turns, and `output` is taken after them.
#[derive(Drop)]
pub struct Job<'a> {
    pub number: u8,
    pub rights: Rights,
    pub registers: Registers,
    pub input: Area,
    pub output: Area,
    pub turns: Turns,
    pub records: &'a str,
    pub results: &'a str,
}
