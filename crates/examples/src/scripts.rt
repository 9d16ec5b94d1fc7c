//! A script in memory.
ghost use Rattle.std.specs.Prelude.{◌≡◌, ◌++◌, ℕ, List, Some, Err, OnOk, OnErr};
ghost use Rattle.ix_run.specs.Outcome.{WritesPartOfReplies, WritesRepliesBeforeReady};
ghost use Rattle.ix_run.specs.Script.{replies_to};
ghost use Rattle.ix_run.specs.declared.run.devices.fault.ScriptFault.TheVariants.{OutOfMemory};

use ix_run::{ScriptFault, script};
use std::alloc::Global;

/// Appends the replies to a script to `output`, one line for each of its lines. After an error they are a first part of the
/// replies. If the allocation of the container fails, they are those before `ready`.
pub fn append_replies(alloc: Global, text: &[u8], output: &mut Vec<u8>) -> Result<(), ScriptFault>
    ensures ok { OnOk result (output.new.items ≡ output.old.items ++ replies_to text.now) }
    ensures err { OnErr result ((unread : List ℕ) × WritesPartOfReplies
        (Some text.now) (Some output.old.items) (Some unread) (Some output.new.items)) }
    ensures out_of_memory { result ≡ Err OutOfMemory → (unread : List ℕ) × WritesRepliesBeforeReady
        (Some text.now) (Some output.old.items) (Some unread) (Some output.new.items) }
{
    let mut reader = text;
    script(alloc, &mut reader, output)
}
