//! Tests of power cuts: caches and switches over a bench, cut within every call of a script, or of those that a cache passes on.
#![tactic(auto)]

#[cfg(test)]
mod below;
#[cfg(test)]
mod calls;
#[cfg(test)]
mod direct;
#[cfg(test)]
mod stacks;
