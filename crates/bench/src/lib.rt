//! A device for trials: the caller's memory, and writes that wait in front of it.
#![tactic(auto)]

mod bench;
mod rows;
mod settle;

pub use bench::{Bench, Refused, WAITING};
pub use rows::ROW;
pub use settle::{KEEP, TEAR};
