//! Lists of commands.
ghost use Rattle.std.specs.Prelude.{◌≡◌, [], IsOk, IfOk, OnOk, OnErr};
ghost use Rattle.ix_commands.specs.Run.{run_replies, run_state};

use std::alloc::{AllocError, Global};

/// A container on which commands of the type `C` are run. Contracts see the model of the container, whatever its kind.
pub trait Runs<C> {
    /// The type of the replies.
    type Reply: Copy;

    /// The type of the model.
    ghost Model: { Type 0 };

    /// The model of a container.
    ghost model: { Self → Model };

    /// The reply to a command.
    ghost reply: { Model → C → Self.Reply };

    /// The model after a command.
    ghost after: { Model → C → Model };

    /// Runs one command, and returns the reply to it.
    fn run_command(&mut self, command: C) -> Self::Reply
        ensures value { result ≡ reply (model self.old) command }
        ensures model { model self.new ≡ after (model self.old) command };
}

/// Runs the commands in order, and returns the replies to them, in memory of `alloc`.
///
/// Returns `AllocError` if the allocation of the list fails. Then no command was run.
pub fn run_all<C: Copy, T: Runs<C>>(
    alloc: Global,
    container: &mut T,
    commands: &[C],
) -> Result<Vec<T::Reply>, AllocError>
    ensures value { IfOk result (λ replies. replies.items
        ≡ run_replies T.reply T.after (T.model container.old) commands.now) }
    ensures model { OnOk result
        (T.model container.new ≡ run_state T.after (T.model container.old) commands.now) }
    ensures refused { OnErr result (container.new ≡ container.old) }
    ensures memory { commands.now ≡ [] → IsOk result }
{
    let mut replies = Vec::with_capacity(alloc, commands.len())?;
    for command in commands {
        let reply = container.run_command(*command);
        let Ok(()) = replies.push(reply) else {
            unreachable!()
        };
    }
    Ok(replies)
}
