// A store means 65,536 bytes, at the addresses 0 to 65,535. Begin with `store.rt`, the trait: all that a program, a hall and the crates
// above know of the memory that they run on. `bulk.rt` moves many bytes at once, `check.rt` tells memory of the right size, and
// `Owned` is the plainest store, over bytes of its own. `Lending` is a store for a while in the place of another.
#![tactic(auto)]

mod bulk;
mod check;
mod lending;
mod owned;
mod store;

pub use bulk::{append_all, read_all, write_all};
pub use check::{SizeError, check_size};
pub use lending::Lending;
pub use owned::Owned;
pub use store::Store;
