// The instruction set, as far as it is the same under every code book: the names of the instructions, the formats of their words, the
// letters under which a code book has names, and what a word can mean. Begin with `Reading`; which word means what is the crate `book`'s.
#![tactic(auto)]

mod format;
mod letter;
mod name;
mod reading;

pub use format::{Format, UnknownFormat};
pub use letter::Letter;
pub use name::{Name, UnknownName};
pub use reading::Reading;
