//! Tests of semantic strings beside their contracts: rows of commands under each kind of rules, every function once, how often a
//! closure is called, how comparisons and hashes agree, and code that is generic over the rules. In unproved/, which no proof
//! reads: printed strings, and bytes that are inserted.
#![tactic(auto)]

#[cfg(test)]
mod making_tests;
#[cfg(test)]
mod order_tests;
#[cfg(test)]
mod own_rules;
#[cfg(test)]
mod retain_tests;
#[cfg(test)]
mod row_tests;
#[cfg(test)]
mod rows;
