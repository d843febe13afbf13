// A job: which program a bay runs, from which registers, over which records. `read_job` reads its text, and `run_record` runs one record
// of it. Begin with `Job`; specs/Text.antt says what a text of a job says.
#![tactic(auto)]

mod area;
mod draft;
mod entry;
mod fault;
mod fields;
mod job;
mod read;
mod run;
mod values;

pub use area::Area;
pub use entry::Entry;
pub use fault::{Fault, Refused};
pub use job::{Job, Turns};
pub use read::read_job;
pub use run::{Ran, run_record};
