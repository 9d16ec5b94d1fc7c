//! The errors that stop a script, and their report by the program.
ghost use Rattle.std.specs.Prelude.{◌≡◌, Some};
ghost use Rattle.ix_run.specs.Outcome.{outcome_status, fault_text};

use std::error::Error;
use std::fmt;

/// The error that stopped a script.
#[derive(Clone, Copy, PartialEq, Eq, Debug)]
pub enum ScriptFault {
    /// A read failed, or the input has no end.
    Read,
    /// A write or the flush failed, or a write accepted no byte.
    Write,
    /// The allocation of a container failed.
    OutOfMemory,
}

impl fmt::Display for ScriptFault {
    ghost use Rattle.ix_run.specs.Outcome.{script_fault_text};

    ghost output = { λ fault. Some (script_fault_text fault) };

    fn fmt<W: fmt::Write>(&self, f: &mut fmt::Formatter<W>) -> fmt::Result {
        f.write_str(match self {
            ScriptFault::Read => "read fault",
            ScriptFault::Write => "write fault",
            ScriptFault::OutOfMemory => "out of memory",
        })
    }
}

impl Error for ScriptFault {}

/// Returns the exit status of the program: 0 without an error, 1 after a read or write error, 2 if the allocation failed. O(1).
pub fn exit_status(outcome: &Result<(), ScriptFault>) -> u8
    ensures { result ≡ outcome_status outcome.now }
{
    match outcome {
        Ok(()) => 0,
        Err(ScriptFault::Read | ScriptFault::Write) => 1,
        Err(ScriptFault::OutOfMemory) => 2,
    }
}

/// Returns the line that names an error on standard error, without a line feed. O(1).
pub fn fault_line(fault: &ScriptFault) -> &'static str
    ensures { result.now ≡ fault_text fault.now }
{
    match fault {
        ScriptFault::Read => "boxes: read fault",
        ScriptFault::Write => "boxes: write fault",
        ScriptFault::OutOfMemory => "boxes: out of memory",
    }
}
