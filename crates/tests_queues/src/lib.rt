//! Tests of queues beside their contracts: worked examples, each function once, the turns of the ring, and a queue over a user's
//! own table. In unproved/, which no proof reads: the results of each method, the order of iterators, how often closures and `==`
//! are called, copies, and how much memory is allocated.
#![tactic(auto)]

#[cfg(test)]
mod function_tests;
#[cfg(test)]
mod own_table;
#[cfg(test)]
mod replacing;
#[cfg(test)]
mod ring_tests;
#[cfg(test)]
mod rows;
#[cfg(test)]
mod turning;
