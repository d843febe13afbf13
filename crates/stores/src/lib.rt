// Kinds of stores, each in a file of its own that no other kind needs. Begin with `plain.rt`, memory that the caller lends as it is;
// `image.rt` only reads an image, and copies a page of it to working memory before the first write there; `mapped.rt` is a store by the
// pages of another, by a table that `table_check.rt` has passed. `lent.rt` writes into memory that is lent. A pile is a kind over another.
#![tactic(auto)]

mod image;
mod lent;
mod mapped;
mod plain;
mod table_check;
#[cfg(test)]
mod tests;

pub use image::Image;
pub use mapped::Mapped;
pub use plain::Plain;
pub use table_check::{TableError, check_table};
