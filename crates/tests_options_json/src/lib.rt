//! Tests of options and of conversions to and from JSON beside their contracts: worked examples, each error and their order, and
//! every function of options once. In unproved/, which no proof reads: printed texts, lists, queues and maps, long strings, numbers
//! of further types, and the calls of closures, clones and drops.
#![tactic(auto)]

#[cfg(test)]
mod forms;
#[cfg(test)]
mod object_tests;
#[cfg(test)]
mod option_tests;
#[cfg(test)]
mod reading_tests;
#[cfg(test)]
mod writing_tests;
