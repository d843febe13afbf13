use access::Stop;
use machine::Registers;

// What look answers: registers and markers, and the stop if one stands.
#[derive(Clone, Copy, Debug, PartialEq, Eq)]
pub struct Shown {
    pub registers: Registers,
    pub stop: Option<Stop>,
}
