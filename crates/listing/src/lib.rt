// A listing: a text that says which halfwords lie at which addresses of a store. `Listing` gives them one by one, and `assemble_into`
// writes them into a store. Begin with `Listing::next_placed`; specs/Listing.antt says what a listing places.
#![tactic(auto)]

mod assemble;
mod entry;
mod fault;
mod line;
mod listing;
mod number;
mod placed;
mod tokens;

pub use assemble::assemble_into;
pub use fault::{Fault, Refused};
pub use listing::Listing;
pub use placed::Placed;
