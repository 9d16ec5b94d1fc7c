//! Escaped text: how the bytes of a string are printed.
ghost use Rattle.std.specs.Prelude.{◌≡◌, ◌<◌, ◌≤◌, [], ◌∷◌, length, Some, IfOk, string_bytes};
ghost use Rattle.ix_string.specs.Escape.{hex_digit, escaped_byte, escaped_text};
ghost use Rattle.ix_string.specs.Text.{IsTextByte};

use std::alloc::{AllocError, Global};
use std::marker::Model;
use std::{fmt, str};

/// The text that a byte is printed as, which has one, two or four bytes. Contracts see it as the list of them.
///
/// [`escape_byte`] makes it, and `Display` prints it.
#[derive(Drop)]
pub struct EscapedByte {
    bytes: [u8; 4],
    len: usize,
}

impl Model for EscapedByte {
    ghost use Rattle.std.specs.Prelude.{ℕ, ◌≡◌, ◌≤◌, List, length, take};
    ghost use Rattle.ix_string.specs.Text.{IsText};

    ghost Value = { List ℕ };

    ghost view = { λ escaped. take escaped.len escaped.bytes };

    ghost invariant = { λ escaped. (length escaped.bytes ≡ 4) × (escaped.len ≤ 4)
        × IsText (take escaped.len escaped.bytes) };
}

impl EscapedByte {
    /// Returns the text. O(1).
    #[inline]
    #[must_use]
    pub fn as_str(&self) -> &str
        ensures value { result.now ≡ self.now }
        ensures within { length result.now ≤ 4 }
    {
        // SAFETY: bytes from 1 to 127 are UTF-8.
        unsafe { str::from_utf8_unchecked(&self.bytes[..self.len]) }
    }
}

/// Prints the text.
impl fmt::Display for EscapedByte {
    ghost output = { λ escaped. Some escaped };

    fn fmt<W: fmt::Write>(&self, f: &mut fmt::Formatter<W>) -> fmt::Result {
        f.write_str(self.as_str())
    }
}

/// Prints the text as `{:?}` prints a `str`, as `EscapedByte("a")`.
impl fmt::Debug for EscapedByte {
    fn fmt<W: fmt::Write>(&self, f: &mut fmt::Formatter<W>) -> fmt::Result {
        f.debug_tuple("EscapedByte").field(&self.as_str()).finish()
    }
}

/// Returns the text that `byte` is printed as. Does not allocate. O(1).
///
/// The bytes 9, 13 and 10 are printed as `\t`, `\r` and `\n`. A byte from 32 to 127 is printed as itself, a backslash and a quote
/// too. Every other byte is printed as `\x` and two lower-case hexadecimal digits.
#[inline]
#[must_use]
pub fn escape_byte(byte: u8) -> EscapedByte
    ensures { result ≡ escaped_byte byte }
{
    match byte {
        9 => backslash_and(b't'),
        13 => backslash_and(b'r'),
        10 => backslash_and(b'n'),
        32..=127 => EscapedByte {
            bytes: [byte, 0, 0, 0],
            len: 1,
        },
        _ => EscapedByte {
            bytes: [b'\\', b'x', hex_byte(byte / 16), hex_byte(byte % 16)],
            len: 4,
        },
    }
}

/// Returns the text of a backslash and a letter.
#[inline]
fn backslash_and(letter: u8) -> EscapedByte
    requires { IsTextByte letter }
    ensures { result ≡ 92 ∷ letter ∷ [] }
{
    EscapedByte {
        bytes: [b'\\', letter, 0, 0],
        len: 2,
    }
}

/// Returns the lower-case hexadecimal digit.
#[inline]
fn hex_byte(digit: u8) -> u8
    requires { digit < 16 }
    ensures { result ≡ hex_digit digit }
{
    if digit < 10 { 48 + digit } else { 87 + digit }
}

/// Bytes that are printed escaped.
#[derive(Clone, Copy)]
pub(crate) struct Escaped<'a>(pub(crate) &'a [u8]);

impl fmt::Display for Escaped<'_> {
    ghost output = { λ bytes. Some (escaped_text bytes.0.now) };

    fn fmt<W: fmt::Write>(&self, f: &mut fmt::Formatter<W>) -> fmt::Result {
        for byte in self.0 {
            escape_byte(*byte).fmt(f)?;
        }
        Ok(())
    }
}

/// Returns the bytes as printable text in memory of `alloc`: the text of each byte, as [`escape_byte`] returns it.
/// O(`bytes.len()`).
///
/// Returns `AllocError` if an allocation for the text fails.
///
/// This is `as_escaped_string` of iceoryx2-bb-container.
pub fn as_escaped_string(alloc: Global, bytes: &[u8]) -> Result<std::string::String, AllocError>
    ensures { IfOk result (λ text. string_bytes text ≡ escaped_text bytes.now) }
{
    format!(in alloc; "{}", Escaped(bytes))
}
