// Halfwords of 16 bits and fullwords of 32: how bytes make them, how a word is parted into fields, and how a register computes.
#![tactic(auto)]

pub mod arithmetic;
pub mod bytes;
mod fields;
mod full;
mod half;
mod register;

pub use fields::{join, low, middle, signed, signed_field, unsigned_field};
pub use register::Register;
