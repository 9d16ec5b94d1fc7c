//! Tests of strings beside their contracts: rows of commands at each kind and in each memory, every function once, how comparisons
//! and hashes agree, and code over any string. In unproved/, which no proof reads: printed texts, formatted text that is written,
//! bytes that are removed, and how much memory is allocated.
#![tactic(auto)]

#[cfg(test)]
mod fixed_tests;
#[cfg(test)]
mod kinds;
#[cfg(test)]
mod order_tests;
#[cfg(test)]
mod row_tests;
#[cfg(test)]
mod rows;
