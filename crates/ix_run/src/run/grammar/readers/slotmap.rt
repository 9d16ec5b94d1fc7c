//! Lines as commands of slot maps.
ghost use Rattle.std.specs.Prelude.{◌≡◌, None, MatchOption, bytes_eq, option_copied};
ghost use Rattle.std.specs.Map.{lookup};
ghost use Rattle.ix_run.specs.Words.{command_of, key_command_of};
ghost use Rattle.ix_run.specs.Forms.{slot_map_forms, slot_key_forms, slot_map_command_of};
ghost use Rattle.ix_run.specs.inner.NameTables.{constant_rows, first_word, IsNamed, slot_map_named, slot_key_named};

use crate::run::SlotMapCommand;
use crate::run::grammar::name_table::{Takes, read_by_table, read_numbers, split_name};
use crate::run::grammar::words::{key_in, split_word};
use ix_slotmap::SlotMapKey;

/// The name of a command without a key.
#[derive(Clone, Copy)]
enum PlainName {
    Insert,
    Next,
    InsertAt,
    From,
    Retired,
    Len,
    Capacity,
    Empty,
    Full,
}

/// The names of the commands without a key, and what each takes.
const PLAIN_NAMES: [(&[u8], (Takes, PlainName)); 9] = [
    (b"insert", (Takes::Number, PlainName::Insert)),
    (b"next", (Takes::Nothing, PlainName::Next)),
    (b"insert_at", (Takes::TwoNumbers, PlainName::InsertAt)),
    (b"from", (Takes::Number, PlainName::From)),
    (b"retired", (Takes::Nothing, PlainName::Retired)),
    (b"len", (Takes::Nothing, PlainName::Len)),
    (b"capacity", (Takes::Nothing, PlainName::Capacity)),
    (b"empty", (Takes::Nothing, PlainName::Empty)),
    (b"full", (Takes::Nothing, PlainName::Full)),
];

/// The name of a command with a key.
#[derive(Clone, Copy)]
enum KeyName {
    Remove,
    Get,
    Set,
    Contains,
}

/// The names of the commands with a key, and what each takes after the key.
const KEY_NAMES: [(&[u8], (Takes, KeyName)); 4] = [
    (b"remove", (Takes::Nothing, KeyName::Remove)),
    (b"get", (Takes::Nothing, KeyName::Get)),
    (b"set", (Takes::Number, KeyName::Set)),
    (b"contains", (Takes::Nothing, KeyName::Contains)),
];

/// Returns the command of a slot map that `line` spells, or `None` for any other line. O(length).
///
/// A line spells the name, the key if there is one, and the numbers, as the commands say, with one space before each. A key is an
/// index and a generation with a colon between.
#[inline]
pub fn read_slot_map_command(line: &[u8]) -> Option<SlotMapCommand<u64>>
    ensures value { result ≡ slot_map_command_of line.now }
{
    match read_plain_command(line) {
        Some(command) => Some(command),
        None => read_key_command(line),
    }
}

/// Returns the command without a key that `line` spells.
#[inline]
fn read_plain_command(line: &[u8]) -> Option<SlotMapCommand<u64>>
    ensures { result ≡ command_of slot_map_forms line.now }
{
    let (name, (first, second)) = read_by_table(&PLAIN_NAMES, line)?;
    Some(plain_named(name, first, second))
}

/// Returns the command with this name, of these numbers.
#[inline]
fn plain_named(name: PlainName, first: u64, second: u64) -> SlotMapCommand<u64>
    ensures { result ≡ slot_map_named name first second }
{
    match name {
        PlainName::Insert => SlotMapCommand::Insert(first),
        PlainName::Next => SlotMapCommand::Next,
        PlainName::InsertAt => SlotMapCommand::InsertAt(first as usize, second),
        PlainName::From => SlotMapCommand::From(first as usize),
        PlainName::Retired => SlotMapCommand::Retired,
        PlainName::Len => SlotMapCommand::Len,
        PlainName::Capacity => SlotMapCommand::Capacity,
        PlainName::Empty => SlotMapCommand::Empty,
        PlainName::Full => SlotMapCommand::Full,
    }
}

/// Returns the command with a key that `line` spells.
fn read_key_command(line: &[u8]) -> Option<SlotMapCommand<u64>>
    ensures { result ≡ key_command_of slot_key_forms line.now }
{
    let ((takes, name), rest) = split_key_form(line)?;
    let (word, rest) = split_word(rest?);
    let key = key_in(word)?;
    let (value, _) = read_numbers(takes, rest)?;
    Some(key_named(name, key, value))
}

/// Returns the words that the command of `line` takes after its key, the command's name, and the rest behind the space after its
/// name.
#[inline(always)]
fn split_key_form<'a>(line: &'a [u8]) -> Option<((Takes, KeyName), Option<&'a [u8]>)>
    ensures { MatchOption result
        (lookup (bytes_eq (first_word line.now)) (constant_rows KEY_NAMES) ≡ None)
        (λ r. IsNamed (constant_rows KEY_NAMES) line.now r.0 (option_copied r.1)) }
{
    split_name(&KEY_NAMES, line)
}

/// Returns the command with this name, of this key and this number.
fn key_named(name: KeyName, key: SlotMapKey, value: u64) -> SlotMapCommand<u64>
    ensures { result ≡ slot_key_named name key value }
{
    match name {
        KeyName::Remove => SlotMapCommand::Remove(key),
        KeyName::Get => SlotMapCommand::Get(key),
        KeyName::Set => SlotMapCommand::Set(key, value),
        KeyName::Contains => SlotMapCommand::Contains(key),
    }
}
