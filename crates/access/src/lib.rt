// Which bytes a program may reach. Begin with `kind.rt`, the table of what a grant lets be done, and `rights.rt`, the grants of a bay; a
// step sees the store through a `View`, reads and claims an `Item` byte by byte, and a refusal becomes a `Stop`.
#![tactic(auto)]

mod item;
mod kind;
mod reach;
mod rights;
mod show;
mod stop;
mod view;

pub use item::{Held, Item};
pub use kind::{Kind, UnknownKind, Use};
pub use reach::Reach;
pub use rights::{Grant, Rights};
pub use stop::{Access, Cause, Denial, Place, Stop};
pub use view::View;
