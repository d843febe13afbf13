// What becomes of the memory that a caller lends to a hall for a list of requests. Begin with `lending.rt`: plain memory, and the working
// memory of an image. `pages.rt` has the pages of a store, which may be a pile itself. What is no store, or no table, is refused.
#![tactic(auto)]

mod lending;
mod pages;
#[cfg(test)]
mod tests;

pub use lending::{LendError, drive_image, drive_memory};
pub use pages::{PagesError, drive_mapped};
