// Registers and markers, addresses, and what each instruction does. Begin with `executing.rt`, which has an arm for each instruction;
// `address.rt` forms the address of an operand, and `strings.rt` has the instructions that go on over many steps.
#![tactic(auto)]

mod address;
mod bits;
mod executing;
mod loads;
mod mode;
mod pending;
mod pointers;
mod products;
mod registers;
mod show;
mod stores;
mod strings;
mod sums;
mod terms;

pub use address::{at_place, direct, item_of};
pub use executing::execute;
pub use mode::Mode;
pub use pending::Pending;
pub use registers::Registers;
pub use terms::Terms;
