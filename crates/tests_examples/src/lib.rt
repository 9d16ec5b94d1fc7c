//! Tests of the crate of examples. Those of threads are proved. The others in `unproved/` are only run, because the functions that
//! they call are proved.
#![tactic(auto)]

#[cfg(test)]
mod cell_tests;
