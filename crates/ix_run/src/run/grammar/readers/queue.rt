//! Lines as commands of queues.
ghost use Rattle.std.specs.Prelude.{◌≡◌};
ghost use Rattle.ix_run.specs.Words.{command_of};
ghost use Rattle.ix_run.specs.Forms.{queue_forms};
ghost use Rattle.ix_run.specs.inner.NameTables.{queue_with};

use crate::run::QueueCommand;
use crate::run::grammar::name_table::{Takes, read_by_table};

/// The commands by name, with zeros for their numbers.
const COMMANDS: [(&[u8], (Takes, QueueCommand<u64>)); 11] = [
    (b"push", (Takes::Number, QueueCommand::Push(0))),
    (b"over", (Takes::Number, QueueCommand::Over(0))),
    (b"pop", (Takes::Nothing, QueueCommand::Pop)),
    (b"peek", (Takes::Nothing, QueueCommand::Peek)),
    (b"set", (Takes::Number, QueueCommand::Set(0))),
    (b"at", (Takes::Number, QueueCommand::At(0))),
    (b"clear", (Takes::Nothing, QueueCommand::Clear)),
    (b"len", (Takes::Nothing, QueueCommand::Len)),
    (b"capacity", (Takes::Nothing, QueueCommand::Capacity)),
    (b"empty", (Takes::Nothing, QueueCommand::Empty)),
    (b"full", (Takes::Nothing, QueueCommand::Full)),
];

/// Returns the command of a queue that `line` spells, or `None` for any other line. O(length).
///
/// A line spells the name and the numbers, as the commands say, with one space before each number.
#[inline(always)]
pub fn read_queue_command(line: &[u8]) -> Option<QueueCommand<u64>>
    ensures value { result ≡ command_of queue_forms line.now }
{
    let (command, (number, _)) = read_by_table(&COMMANDS, line)?;
    Some(with_number(command, number))
}

/// Returns the command with this number.
#[inline]
fn with_number(command: QueueCommand<u64>, number: u64) -> QueueCommand<u64>
    ensures { result ≡ queue_with command number }
{
    match command {
        QueueCommand::Push(_) => QueueCommand::Push(number),
        QueueCommand::Over(_) => QueueCommand::Over(number),
        QueueCommand::Set(_) => QueueCommand::Set(number),
        QueueCommand::At(_) => QueueCommand::At(number as usize),
        other => other,
    }
}
