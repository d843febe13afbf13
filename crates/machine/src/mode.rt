use isa::Format;

// How an instruction word says where its operand is: format, M and D, D as 16 bits in two's complement. M stays the
// number of two bits that the word has: an enum of the four bases would be told apart by each of the two functions that take a base, and
// no other asks.
#[derive(Clone, Copy, Debug, PartialEq, Eq)]
pub struct Mode {
    pub format: Format,
    pub m: u8,
    pub d: u16,
}
