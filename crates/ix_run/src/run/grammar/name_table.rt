//! Tables of names, and the words after a name.
ghost use Rattle.std.specs.Prelude.{ℕ, ◌≡◌, ◌≤◌, ◌*◌, List, [], None, MatchOption, length, bytes_eq};
ghost use Rattle.std.specs.Option.{option_map, option_and_then, option_copied};
ghost use Rattle.std.specs.Map.{lookup};
ghost use Rattle.ix_run.specs.Words.{numbers_in, command_of};
ghost use Rattle.ix_run.specs.inner.NameTables.{rows, first_word, HasWords, IsNamed, numbers_taken, items_taken, bytes_taken, forms_by};
ghost use Rattle.ix_run.specs.inner.LineRest.{words_after, len_after};

use crate::run::grammar::words::{
    after_name, alone, bytes_of_words, many_numbers, number_and_byte, number_and_bytes, one_byte,
    one_number, two_numbers,
};

/// The words that a command takes after its name.
#[derive(Clone, Copy)]
pub(crate) enum Takes {
    Nothing,
    Number,
    TwoNumbers,
    Numbers,
    Byte,
    NumberAndByte,
    Bytes,
    NumberAndBytes,
}

/// Returns the value beside the name in `table` that is the first word of `line`, and the rest behind the space after that word.
#[inline(always)]
pub(crate) fn split_name<'a, V: Copy>(
    table: &[(&[u8], V)],
    line: &'a [u8],
) -> Option<(V, Option<&'a [u8]>)>
    requires words { HasWords (rows table.now) }
    ensures { MatchOption result (lookup (bytes_eq (first_word line.now)) (rows table.now) ≡ None)
        (λ r. IsNamed (rows table.now) line.now r.0 (option_copied r.1)) }
{
    for row in table {
        if let Some(rest) = after_name(line, row.0) {
            return Some((row.1, rest));
        }
    }
    None
}

/// Returns the numbers, with zeros for those that are missing, if the rest is what `takes` says: at most two numbers.
#[inline]
pub(crate) fn read_numbers(takes: Takes, rest: Option<&[u8]>) -> Option<(u64, u64)>
    ensures { result ≡ option_and_then {U = ℕ × ℕ} (numbers_taken takes (λ n m. (n, m)))
        (numbers_in (words_after (option_copied rest.entry))) }
{
    match takes {
        Takes::Nothing => alone(rest, (0, 0)),
        Takes::Number => Some((one_number(rest)?, 0)),
        Takes::TwoNumbers => two_numbers(rest),
        _ => None,
    }
}

/// Returns the command beside the name that `line` begins with, and the numbers after that name, as the table says.
#[inline(always)]
pub(crate) fn read_by_table<C: Copy>(
    table: &[(&[u8], (Takes, C))],
    line: &[u8],
) -> Option<(C, (u64, u64))>
    requires names { lookup (bytes_eq []) (rows table.now) ≡ None }
    requires words { HasWords (rows table.now) }
    ensures { result
        ≡ command_of (forms_by (λ command n m. (command, (n, m))) (rows table.now)) line.now }
{
    let ((takes, command), rest) = split_name(table, line)?;
    let numbers = read_numbers(takes, rest)?;
    Some((command, numbers))
}

/// Returns the numbers as [`read_numbers`] does, or the numbers of a list, in `buffer`.
pub(crate) fn read_items<'a>(
    takes: Takes,
    rest: Option<&[u8]>,
    buffer: &'a mut [u64],
) -> Option<(u64, u64, &'a [u64])>
    requires room { len_after (option_copied rest) ≤ 2 * length buffer.now }
    ensures { option_map {U = ℕ × (ℕ × List ℕ)} (λ r. (r.0, (r.1, r.2.now))) result
        ≡ option_and_then {U = ℕ × (ℕ × List ℕ)} (items_taken takes (λ n m items. (n, (m, items))))
        (numbers_in (words_after (option_copied rest.entry))) }
{
    if let Takes::Numbers = takes {
        return Some((0, 0, many_numbers(rest, buffer)?));
    }
    let (first, second) = read_numbers(takes, rest)?;
    Some((first, second, &[]))
}

/// Returns the numbers as [`read_numbers`] does, or a number, a byte, and the bytes of a list, in `buffer`: zeros and
/// nothing for those that are missing.
pub(crate) fn read_bytes<'a>(
    takes: Takes,
    rest: Option<&[u8]>,
    buffer: &'a mut [u8],
) -> Option<(u64, u64, u8, &'a [u8])>
    requires room { len_after (option_copied rest) ≤ 2 * length buffer.now }
    ensures { option_map {U = ℕ × (ℕ × (ℕ × List ℕ))} (λ r. (r.0, (r.1, (r.2, r.3.now)))) result
        ≡ option_and_then {U = ℕ × (ℕ × (ℕ × List ℕ))}
        (bytes_taken takes (λ n m byte bytes. (n, (m, (byte, bytes)))))
        (numbers_in (words_after (option_copied rest.entry))) }
{
    match takes {
        Takes::Byte => Some((0, 0, one_byte(rest)?, &[])),
        Takes::NumberAndByte => {
            let (number, byte) = number_and_byte(rest)?;
            Some((number, 0, byte, &[]))
        }
        Takes::Bytes => Some((0, 0, 0, bytes_of_words(rest, buffer)?)),
        Takes::NumberAndBytes => {
            let (number, bytes) = number_and_bytes(rest, buffer)?;
            Some((number, 0, 0, bytes))
        }
        _ => {
            let (first, second) = read_numbers(takes, rest)?;
            Some((first, second, 0, &[]))
        }
    }
}
