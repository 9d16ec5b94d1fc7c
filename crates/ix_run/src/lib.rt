//! Scripts of container commands: each line of the input is a command, and gets one line of reply.
#![tactic(auto)]

pub mod run;

pub use run::{ScriptFault, exit_status, fault_line, script};
