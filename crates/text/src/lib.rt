// Texts, byte by byte: the lines of a text and their numbers, the parts of a line, numbers in digits, and what is spelled in one way.
// Begin with `Lines`, which gives a text line by line; `take_lines` reads a whole text, and each fault then has its line (`AtLine`).
#![tactic(auto)]

mod fault;
mod line;
mod lines;
mod number;
mod search;
mod spelled;
mod taking;

pub use fault::{AtLine, at_line};
pub use line::{Line, Unended};
pub use lines::Lines;
pub use number::{decimal, hex_byte, hex_word};
pub use search::{cut, find};
pub use spelled::{Spelled, first_spelled};
pub use taking::{TakeLine, take_lines};
