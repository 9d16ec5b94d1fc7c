//! Lines as commands of flat maps.
ghost use Rattle.std.specs.Prelude.{◌≡◌};
ghost use Rattle.ix_run.specs.Words.{command_of};
ghost use Rattle.ix_run.specs.Forms.{map_forms};
ghost use Rattle.ix_run.specs.inner.NameTables.{map_with};

use crate::run::MapCommand;
use crate::run::grammar::name_table::{Takes, read_by_table};

/// The commands by name, with zeros for their numbers.
const COMMANDS: [(&[u8], (Takes, MapCommand<u64, u64>)); 9] = [
    (b"insert", (Takes::TwoNumbers, MapCommand::Insert(0, 0))),
    (b"get", (Takes::Number, MapCommand::Get(0))),
    (b"set", (Takes::TwoNumbers, MapCommand::Set(0, 0))),
    (b"remove", (Takes::Number, MapCommand::Remove(0))),
    (b"contains", (Takes::Number, MapCommand::Contains(0))),
    (b"key", (Takes::Number, MapCommand::Key(0))),
    (b"len", (Takes::Nothing, MapCommand::Len)),
    (b"empty", (Takes::Nothing, MapCommand::Empty)),
    (b"full", (Takes::Nothing, MapCommand::Full)),
];

/// Returns the command of a flat map that `line` spells, or `None` for any other line. O(length).
///
/// A line spells the name and the numbers, as the commands say, with one space before each number.
#[inline]
pub fn read_map_command(line: &[u8]) -> Option<MapCommand<u64, u64>>
    ensures value { result ≡ command_of map_forms line.now }
{
    let (command, (first, second)) = read_by_table(&COMMANDS, line)?;
    Some(with_numbers(command, first, second))
}

/// Returns the command with these numbers.
#[inline]
fn with_numbers(command: MapCommand<u64, u64>, first: u64, second: u64) -> MapCommand<u64, u64>
    ensures { result ≡ map_with command first second }
{
    match command {
        MapCommand::Insert(_, _) => MapCommand::Insert(first, second),
        MapCommand::Get(_) => MapCommand::Get(first),
        MapCommand::Set(_, _) => MapCommand::Set(first, second),
        MapCommand::Remove(_) => MapCommand::Remove(first),
        MapCommand::Contains(_) => MapCommand::Contains(first),
        MapCommand::Key(_) => MapCommand::Key(first as usize),
        other => other,
    }
}
