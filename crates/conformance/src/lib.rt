//! Tests that all devices answer alike, and that a bench is settled as it is told to be.
#![tactic(auto)]

#[cfg(test)]
mod cards;
#[cfg(test)]
mod settling;
#[cfg(test)]
mod tables;
