//! What the calls of a heap mean to its user: which size of object takes which class of page, and why a call is turned away.
#![tactic(auto)]

mod refusal;
mod sizes;
mod theorems;

pub use refusal::Refusal;
pub use sizes::class_for;
pub use theorems::{of_all_refusals, worked_examples};
