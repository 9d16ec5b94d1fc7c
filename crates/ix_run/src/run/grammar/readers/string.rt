//! Lines as commands of strings.
ghost use Rattle.std.specs.Prelude.{◌≡◌, ◌≤◌, ◌++◌, None, MatchOption, length, bytes_eq, option_copied, option_map};
ghost use Rattle.std.specs.Map.{lookup};
ghost use Rattle.ix_run.specs.Words.{command_of};
ghost use Rattle.ix_run.specs.Forms.{string_forms, string_plain};
ghost use Rattle.ix_run.specs.inner.NameTables.{constant_rows, first_word, IsNamed, string_named};
ghost use Rattle.ix_run.specs.declared.run.grammar.readers.string.TheConstants.{NAMES, OTHER_NAMES};
ghost use Rattle.ix_run.specs.declared.run.devices.limits.TheConstants.{MAX_LINE_LEN};

use crate::run::devices::MAX_NUMBERS;
use crate::run::grammar::name_table::{Takes, read_bytes, split_name};
use crate::run::{MAX_LINE_LEN, StringCommand};

/// The name of a command.
#[derive(Clone, Copy)]
enum StringName {
    Push,
    Append,
    Insert,
    InsertBytes,
    Pop,
    Remove,
    RemoveRange,
    Find,
    Rfind,
    StripPrefix,
    StripSuffix,
    Drop,
    At,
    Truncate,
    Clear,
    Len,
    Capacity,
    Empty,
    Full,
}

/// The names of the first commands, and what each takes. There are two tables, because the compiler unrolls only short ones.
const NAMES: [(&[u8], (Takes, StringName)); 9] = [
    (b"push", (Takes::Byte, StringName::Push)),
    (b"append", (Takes::Bytes, StringName::Append)),
    (b"insert", (Takes::NumberAndByte, StringName::Insert)),
    (
        b"insert_bytes",
        (Takes::NumberAndBytes, StringName::InsertBytes),
    ),
    (b"pop", (Takes::Nothing, StringName::Pop)),
    (b"remove", (Takes::Number, StringName::Remove)),
    (
        b"remove_range",
        (Takes::TwoNumbers, StringName::RemoveRange),
    ),
    (b"find", (Takes::Bytes, StringName::Find)),
    (b"rfind", (Takes::Bytes, StringName::Rfind)),
];

/// The names of the other commands, and what each takes.
const OTHER_NAMES: [(&[u8], (Takes, StringName)); 10] = [
    (b"strip_prefix", (Takes::Bytes, StringName::StripPrefix)),
    (b"strip_suffix", (Takes::Bytes, StringName::StripSuffix)),
    (b"drop", (Takes::Byte, StringName::Drop)),
    (b"at", (Takes::Number, StringName::At)),
    (b"truncate", (Takes::Number, StringName::Truncate)),
    (b"clear", (Takes::Nothing, StringName::Clear)),
    (b"len", (Takes::Nothing, StringName::Len)),
    (b"capacity", (Takes::Nothing, StringName::Capacity)),
    (b"empty", (Takes::Nothing, StringName::Empty)),
    (b"full", (Takes::Nothing, StringName::Full)),
];

/// Returns the command of a string that `line` spells, or `None` for any other line. O(length).
///
/// A line spells the name and the numbers, as the commands say, with one space before each number. The bytes of a list are put in
/// `bytes`.
pub fn read_string_command<'a>(
    line: &[u8],
    bytes: &'a mut [u8; MAX_NUMBERS],
) -> Option<StringCommand<'a>>
    requires within { length line.now ≤ MAX_LINE_LEN }
    // The bytes of a list are the ones in the buffer, whatever their address.
    ensures value { option_map string_plain result ≡ command_of string_forms line.now }
{
    let ((takes, name), rest) = split_form(line)?;
    let (first, second, byte, bytes) = read_bytes(takes, rest, bytes)?;
    Some(command_named(name, first, second, byte, bytes))
}

/// Returns the words that the command of `line` takes, the command's name, and the rest behind the space after its name.
#[inline(always)]
fn split_form<'a>(line: &'a [u8]) -> Option<((Takes, StringName), Option<&'a [u8]>)>
    ensures { MatchOption result
        (lookup (bytes_eq (first_word line.now)) (constant_rows NAMES ++ constant_rows OTHER_NAMES)
        ≡ None)
        (λ r. IsNamed (constant_rows NAMES ++ constant_rows OTHER_NAMES) line.now r.0
        (option_copied r.1)) }
{
    match split_name(&NAMES, line) {
        Some(form) => Some(form),
        None => split_name(&OTHER_NAMES, line),
    }
}

/// Returns the command with this name, of these numbers, this byte or these bytes.
fn command_named<'a>(
    name: StringName,
    first: u64,
    second: u64,
    byte: u8,
    bytes: &'a [u8],
) -> StringCommand<'a>
    ensures { string_plain result ≡ string_named name first second byte bytes.now }
{
    match name {
        StringName::Push => StringCommand::Push(byte),
        StringName::Append => StringCommand::Append(bytes),
        StringName::Insert => StringCommand::Insert(first as usize, byte),
        StringName::InsertBytes => StringCommand::InsertBytes(first as usize, bytes),
        StringName::Pop => StringCommand::Pop,
        StringName::Remove => StringCommand::Remove(first as usize),
        StringName::RemoveRange => StringCommand::RemoveRange(first as usize, second as usize),
        StringName::Find => StringCommand::Find(bytes),
        StringName::Rfind => StringCommand::Rfind(bytes),
        StringName::StripPrefix => StringCommand::StripPrefix(bytes),
        StringName::StripSuffix => StringCommand::StripSuffix(bytes),
        StringName::Drop => StringCommand::Drop(byte),
        StringName::At => StringCommand::At(first as usize),
        StringName::Truncate => StringCommand::Truncate(first as usize),
        StringName::Clear => StringCommand::Clear,
        StringName::Len => StringCommand::Len,
        StringName::Capacity => StringCommand::Capacity,
        StringName::Empty => StringCommand::Empty,
        StringName::Full => StringCommand::Full,
    }
}
