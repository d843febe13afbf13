// One step under a book, and a turn of steps.
#![tactic(auto)]

mod stepping;
mod turning;

pub use stepping::step;
pub use turning::{Turned, turn};
