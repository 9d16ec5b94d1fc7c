//! Tests that cross crates: runs of commands, scripts of every container, and devices that fail. In unproved/, which no proof
//! reads: lines that just are or are not a command, and long lists of commands.
#![tactic(auto)]

#[cfg(test)]
mod container_script_tests;
#[cfg(test)]
mod run_tests;
#[cfg(test)]
mod script_tests;
#[cfg(test)]
mod slot_run_tests;
#[cfg(test)]
mod text_run_tests;
