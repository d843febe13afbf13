// The eight bays of a hall: what is kept of each and what calls make of it, how grants clash, and what a close makes zero. Begin with
// `bay.rt`.
#![tactic(auto)]

mod bay;
mod grants;
mod refusal;
mod stage;
mod table;
mod wiping;

pub use bay::Bay;
pub use grants::{check_grant, clash_with_any};
pub use refusal::Refusal;
pub use stage::Stage;
pub use table::Table;
pub use wiping::wipe;
