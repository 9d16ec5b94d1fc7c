//! Runs a script of container commands: reads commands from standard input, one a line, and writes one line of reply to
//! each to standard output.
//!
//! Ends with status 0. After a read or a write error, ends with status 1, and with status 2 if the allocation of the container
//! fails. Then a line on standard error names the error.
#![tactic(auto)]

use ix_run::{exit_status, fault_line, script};
use std::process::ExitCode;

fn main(rt: HostRuntime) -> ExitCode {
    let outcome = script(rt.alloc(), &mut rt.stdin(), &mut rt.stdout());
    if let Err(fault) = &outcome {
        let _ = eprintln!(rt; "{}", fault_line(fault));
    }
    ExitCode::from(exit_status(&outcome))
}
