//! Tests of maps beside their contracts, for flat maps and hash maps: worked examples on each kind of map, in each memory and by
//! several hashers, and each function once. In unproved/, which no proof reads: keys of several types, how often keys are compared
//! and values are cloned, clones that fail, how long a call takes, when keys and values are dropped, drains and clones, and how
//! much memory is allocated.
#![tactic(auto)]

#[cfg(test)]
mod caseless;
#[cfg(test)]
mod checks;
#[cfg(test)]
mod function_tests;
#[cfg(test)]
mod hashers;
#[cfg(test)]
mod keys;
#[cfg(test)]
mod row_tests;
#[cfg(test)]
mod rows;
