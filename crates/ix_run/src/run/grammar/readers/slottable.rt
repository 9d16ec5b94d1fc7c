//! Lines as commands of slot tables.
ghost use Rattle.std.specs.Prelude.{◌≡◌};
ghost use Rattle.ix_run.specs.Words.{command_of};
ghost use Rattle.ix_run.specs.Forms.{slot_table_forms};
ghost use Rattle.ix_run.specs.inner.NameTables.{slot_table_with};

use crate::run::SlotTableCommand;
use crate::run::grammar::name_table::{Takes, read_by_table};

/// The commands by name, with zeros for their numbers.
const COMMANDS: [(&[u8], (Takes, SlotTableCommand<u64>)); 12] = [
    (b"insert", (Takes::Number, SlotTableCommand::Insert(0))),
    (b"next", (Takes::Nothing, SlotTableCommand::Next)),
    (
        b"insert_at",
        (Takes::TwoNumbers, SlotTableCommand::InsertAt(0, 0)),
    ),
    (b"remove", (Takes::Number, SlotTableCommand::Remove(0))),
    (b"get", (Takes::Number, SlotTableCommand::Get(0))),
    (b"set", (Takes::TwoNumbers, SlotTableCommand::Set(0, 0))),
    (b"contains", (Takes::Number, SlotTableCommand::Contains(0))),
    (b"from", (Takes::Number, SlotTableCommand::From(0))),
    (b"len", (Takes::Nothing, SlotTableCommand::Len)),
    (b"capacity", (Takes::Nothing, SlotTableCommand::Capacity)),
    (b"empty", (Takes::Nothing, SlotTableCommand::Empty)),
    (b"full", (Takes::Nothing, SlotTableCommand::Full)),
];

/// Returns the command of a slot table that `line` spells, or `None` for any other line. O(length).
///
/// A line spells the name and the numbers, as the commands say, with one space before each number.
#[inline]
pub fn read_slot_table_command(line: &[u8]) -> Option<SlotTableCommand<u64>>
    ensures value { result ≡ command_of slot_table_forms line.now }
{
    let (command, (first, second)) = read_by_table(&COMMANDS, line)?;
    Some(with_numbers(command, first, second))
}

/// Returns the command with these numbers.
#[inline]
fn with_numbers(command: SlotTableCommand<u64>, first: u64, second: u64) -> SlotTableCommand<u64>
    ensures { result ≡ slot_table_with command first second }
{
    match command {
        SlotTableCommand::Insert(_) => SlotTableCommand::Insert(first),
        SlotTableCommand::InsertAt(_, _) => SlotTableCommand::InsertAt(first as usize, second),
        SlotTableCommand::Remove(_) => SlotTableCommand::Remove(first as usize),
        SlotTableCommand::Get(_) => SlotTableCommand::Get(first as usize),
        SlotTableCommand::Set(_, _) => SlotTableCommand::Set(first as usize, second),
        SlotTableCommand::Contains(_) => SlotTableCommand::Contains(first as usize),
        SlotTableCommand::From(_) => SlotTableCommand::From(first as usize),
        other => other,
    }
}
