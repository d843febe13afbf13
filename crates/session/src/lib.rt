// A hall with the handles of its bays, kept for those who name bays by their numbers.
#![tactic(auto)]

mod acting;
mod closing;
mod driving;
mod request;
mod session;
mod slot;

pub use driving::{drive, drive_lent};
pub use request::{Deed, Reply, Request};
pub use session::Session;
