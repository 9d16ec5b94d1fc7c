//! Tests of slot tables and of slot maps beside their contracts: worked examples on each kind of either and in each memory, each
//! function once, and functions over any slot table, as a user would write them. In unproved/, which no proof reads: keys and
//! texts, how often the tables of a slot table are called, how long calls of a slot map take, both at once by one trait, equality,
//! iterators from both ends, and how much memory is allocated.
#![tactic(auto)]

#[cfg(test)]
mod containers;
#[cfg(test)]
mod map_rows;
#[cfg(test)]
mod row_tests;
#[cfg(test)]
mod table_rows;
#[cfg(test)]
mod table_tests;
