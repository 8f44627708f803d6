//! A power switch for tests: a device over any device, which turns off within a chosen call.
#![tactic(auto)]

mod fuse;
mod switch;

pub use fuse::LastWrite;
pub use switch::Switch;
