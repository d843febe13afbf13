// The hall: one store and one book that up to eight programs share, each in a bay of its own.
#![tactic(auto)]

mod calls;
mod hall;
mod handle;
mod shown;
mod stages;

pub use hall::Hall;
pub use handle::{AtStage, Handle, InPreparation, Preparing, Sealed, UnderSeal};
pub use shown::Shown;
pub use stages::Refused;
