//! Lines as commands of vectors.
ghost use Rattle.std.specs.Prelude.{◌≡◌, ◌≤◌, ◌++◌, None, MatchOption, length, bytes_eq, option_copied, option_map};
ghost use Rattle.std.specs.Map.{lookup};
ghost use Rattle.ix_run.specs.Words.{command_of};
ghost use Rattle.ix_run.specs.Forms.{vector_forms, vector_plain};
ghost use Rattle.ix_run.specs.inner.NameTables.{constant_rows, first_word, IsNamed, vector_named};
ghost use Rattle.ix_run.specs.declared.run.grammar.readers.vector.TheConstants.{NAMES, OTHER_NAMES};
ghost use Rattle.ix_run.specs.declared.run.devices.limits.TheConstants.{MAX_LINE_LEN};

use crate::run::devices::MAX_NUMBERS;
use crate::run::grammar::name_table::{Takes, read_items, split_name};
use crate::run::{MAX_LINE_LEN, VectorCommand};

/// The name of a command.
#[derive(Clone, Copy)]
enum VectorName {
    Push,
    Insert,
    Extend,
    Resize,
    Pop,
    Remove,
    At,
    Set,
    Truncate,
    Clear,
    Len,
    Capacity,
    Empty,
    Full,
}

/// The names of the first commands, and what each takes. There are two tables, because the compiler unrolls only short ones.
const NAMES: [(&[u8], (Takes, VectorName)); 7] = [
    (b"push", (Takes::Number, VectorName::Push)),
    (b"insert", (Takes::TwoNumbers, VectorName::Insert)),
    (b"extend", (Takes::Numbers, VectorName::Extend)),
    (b"resize", (Takes::TwoNumbers, VectorName::Resize)),
    (b"pop", (Takes::Nothing, VectorName::Pop)),
    (b"remove", (Takes::Number, VectorName::Remove)),
    (b"at", (Takes::Number, VectorName::At)),
];

/// The names of the other commands, and what each takes.
const OTHER_NAMES: [(&[u8], (Takes, VectorName)); 7] = [
    (b"set", (Takes::TwoNumbers, VectorName::Set)),
    (b"truncate", (Takes::Number, VectorName::Truncate)),
    (b"clear", (Takes::Nothing, VectorName::Clear)),
    (b"len", (Takes::Nothing, VectorName::Len)),
    (b"capacity", (Takes::Nothing, VectorName::Capacity)),
    (b"empty", (Takes::Nothing, VectorName::Empty)),
    (b"full", (Takes::Nothing, VectorName::Full)),
];

/// Returns the command of a vector that `line` spells, or `None` for any other line. O(length).
///
/// A line spells the name and the numbers, as the commands say, with one space before each number. The numbers of a list are put in
/// `numbers`.
pub fn read_vector_command<'a>(
    line: &[u8],
    numbers: &'a mut [u64; MAX_NUMBERS],
) -> Option<VectorCommand<'a, u64>>
    requires within { length line.now ≤ MAX_LINE_LEN }
    // The elements of a list are the ones in the buffer, whatever their address.
    ensures value { option_map vector_plain result ≡ command_of vector_forms line.now }
{
    let ((takes, name), rest) = split_form(line)?;
    let (first, second, items) = read_items(takes, rest, numbers)?;
    Some(command_named(name, first, second, items))
}

/// Returns the words that the command of `line` takes, the command's name, and the rest behind the space after its name.
#[inline(always)]
fn split_form<'a>(line: &'a [u8]) -> Option<((Takes, VectorName), Option<&'a [u8]>)>
    ensures { MatchOption result
        (lookup (bytes_eq (first_word line.now)) (constant_rows NAMES ++ constant_rows OTHER_NAMES)
        ≡ None)
        (λ r. IsNamed (constant_rows NAMES ++ constant_rows OTHER_NAMES) line.now r.0
        (option_copied r.1)) }
{
    match split_name(&NAMES, line) {
        Some(form) => Some(form),
        None => split_name(&OTHER_NAMES, line),
    }
}

/// Returns the command with this name, of these numbers or this list.
fn command_named<'a>(
    name: VectorName,
    first: u64,
    second: u64,
    items: &'a [u64],
) -> VectorCommand<'a, u64>
    ensures { vector_plain result ≡ vector_named name first second items.now }
{
    match name {
        VectorName::Push => VectorCommand::Push(first),
        VectorName::Insert => VectorCommand::Insert(first as usize, second),
        VectorName::Extend => VectorCommand::Extend(items),
        VectorName::Resize => VectorCommand::Resize(first as usize, second),
        VectorName::Pop => VectorCommand::Pop,
        VectorName::Remove => VectorCommand::Remove(first as usize),
        VectorName::At => VectorCommand::At(first as usize),
        VectorName::Set => VectorCommand::Set(first as usize, second),
        VectorName::Truncate => VectorCommand::Truncate(first as usize),
        VectorName::Clear => VectorCommand::Clear,
        VectorName::Len => VectorCommand::Len,
        VectorName::Capacity => VectorCommand::Capacity,
        VectorName::Empty => VectorCommand::Empty,
        VectorName::Full => VectorCommand::Full,
    }
}
