// What the programs share: the words that they are given, their files, the values in a line, runs over records, and the line that says
// why one failed. Begin with `Failure`, which each program ends with, and `files.rt`; specs/Runs.antt says what runs over records leave.
#![tactic(auto)]

mod arguments;
mod ending;
mod failure;
mod files;
mod runs;
mod values;

pub use arguments::words;
pub use ending::{ended, write_new};
pub use failure::{Failure, Fault};
pub use files::{
    assembled, parse_job, read_book, read_file, read_image, read_input, read_records,
    refuse_existing, refuse_partial, zeroed,
};
pub use runs::{halted, run_records};
pub use values::{full, half, registers};
