// The code book: which numbers the names of instructions have, and which patterns tell formats A1 to A5 apart. It is read from a text,
// and under it a word is read (`Book::reading`) and encoded (`Book::encode`). Begin with `Book`; specs/Layout.antt says which words are
// which instructions, and each contract of the two is proved against it.
#![tactic(auto)]

mod add;
mod book;
mod encode;
mod encode_error;
mod fault;
mod fields;
mod patterns;
mod read;
mod reading;
mod readings;
mod rows;
mod tables;
mod whole;

pub use book::Book;
pub use encode_error::EncodeError;
pub use fault::{Fault, Refused};
pub use tables::Tables;
