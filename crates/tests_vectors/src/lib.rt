//! Tests of tables and vectors beside their contracts: rows of commands, every function, and two functions over any vector, as a
//! user of the trait would write them. In unproved/, which no proof reads: the results of each method, errors, iterators, drains,
//! slices, order, and how much memory is allocated.
#![tactic(auto)]

#[cfg(test)]
mod function_tests;
#[cfg(test)]
mod rolling;
#[cfg(test)]
mod rolling_tests;
#[cfg(test)]
mod row_tests;
#[cfg(test)]
mod rows;
#[cfg(test)]
mod table_tests;
