//! Tests of what the sectors of a card say in bytes, and of the check of a card, over public functions.
#![tactic(auto)]

#[cfg(test)]
mod checks;
#[cfg(test)]
mod headers;
#[cfg(test)]
mod homes;
#[cfg(test)]
mod pages;
#[cfg(test)]
mod records;
