//! Tests of the devices and of what stands on them, over the crates' public functions.
#![tactic(auto)]

#[cfg(test)]
mod numbers;
#[cfg(test)]
mod queues;
#[cfg(test)]
mod rows;
#[cfg(test)]
mod surveys;
