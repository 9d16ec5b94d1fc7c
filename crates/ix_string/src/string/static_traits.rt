//! Conversions into fixed strings, and how these are compared, hashed and printed.
//!
//! None of these impls calls the trait `String`, whose laws cite them.
ghost use Rattle.std.specs.Prelude.{◌≡◌, ◌∷◌, [], Some};
ghost use Rattle.std.specs.Cmp.{partial_order_from_own_ties};
ghost use Rattle.std.specs.Cmp.Rules.{comparing, hashing};
ghost use Rattle.std.specs.Ordering.{as_partial_cmp};
ghost use Rattle.ix_string.specs.Text.{text_eq, text_cmp};
ghost use Rattle.std.proofs.Common.{rules};
ghost use Rattle.ix_string.specs.Debug.{static_debug_text};
ghost use Rattle.ix_string.specs.Escape.{escaped_text};
ghost use Rattle.ix_string.specs.TextSteps.{StringFromBytes};

use crate::string::escape::Escaped;
use crate::string::{StaticString, StringModificationError};
use std::cmp::Ordering;
use std::fmt;
use std::hash::{Hash, Hasher};
use std::str::FromStr;

/// The default is the empty string.
impl<const CAPACITY: usize> Default for StaticString<CAPACITY> {
    ghost is_default = { λ string. string ≡ [] };

    fn default() -> Self {
        StaticString::new()
    }
}

impl<const CAPACITY: usize> FromStr for StaticString<CAPACITY> {
    type Err = StringModificationError;

    ghost from_str_gives = { StringFromBytes CAPACITY };

    /// Creates a string that holds the bytes of `text`, or returns the error of [`StaticString::from_bytes`].
    fn from_str(text: &str) -> Result<Self, StringModificationError> {
        StaticString::from_bytes(text.as_bytes())
    }
}

impl<const CAPACITY: usize> TryFrom<&str> for StaticString<CAPACITY> {
    type Error = StringModificationError;

    ghost try_from_gives = { λ text result. StringFromBytes CAPACITY text.now result };

    /// Creates a string that holds the bytes of `text`, or returns the error of [`StaticString::from_bytes`].
    fn try_from(text: &str) -> Result<Self, StringModificationError> {
        StaticString::from_bytes(text.as_bytes())
    }
}

impl<const CAPACITY: usize> TryFrom<&[u8]> for StaticString<CAPACITY> {
    type Error = StringModificationError;

    ghost try_from_gives = { λ bytes result. StringFromBytes CAPACITY bytes.now result };

    /// Creates a string that holds the bytes, or returns the error of [`StaticString::from_bytes`].
    fn try_from(bytes: &[u8]) -> Result<Self, StringModificationError> {
        StaticString::from_bytes(bytes)
    }
}

impl<const CAPACITY: usize, const N: usize> TryFrom<&[u8; N]> for StaticString<CAPACITY> {
    type Error = StringModificationError;

    ghost try_from_gives = { λ bytes result. StringFromBytes CAPACITY bytes.now result };

    /// Creates a string that holds the bytes, or returns the error of [`StaticString::from_bytes`].
    fn try_from(bytes: &[u8; N]) -> Result<Self, StringModificationError> {
        StaticString::from_bytes(bytes.as_slice())
    }
}

/// Strings are equal if their bytes are.
impl<const CAPACITY: usize> PartialEq for StaticString<CAPACITY> {
    ghost eq = { text_eq };

    ghost laws = { Prim.search (comparing, rules) };

    fn eq(&self, other: &Self) -> bool {
        self.as_bytes_const() == other.as_bytes_const()
    }
}

impl<const CAPACITY: usize> Eq for StaticString<CAPACITY> {
    ghost laws = { Prim.search (comparing, rules) };
}

/// Strings are compared by the first byte that differs, and otherwise the shorter one is less.
impl<const CAPACITY: usize> Ord for StaticString<CAPACITY> {
    ghost cmp = { text_cmp };

    ghost total = { Prim.search (comparing, rules) };

    ghost matches_partial_cmp = { Prim.search (comparing, rules) };

    ghost matches_eq = { Prim.search (comparing, rules) };

    fn cmp(&self, other: &Self) -> Ordering {
        self.as_bytes_const().cmp(&other.as_bytes_const())
    }
}

impl<const CAPACITY: usize> PartialOrd for StaticString<CAPACITY> {
    ghost partial_cmp = { as_partial_cmp text_cmp };

    ghost laws = { partial_order_from_own_ties (Prim.search (comparing, rules))
        (Prim.search (comparing, rules)) };

    fn partial_cmp(&self, other: &Self) -> Option<Ordering> {
        Some(self.cmp(other))
    }
}

/// Feeds the bytes to the hasher in one write.
impl<const CAPACITY: usize> Hash for StaticString<CAPACITY> {
    ghost hash_input = { λ string. string ∷ [] };

    ghost respects_eq = { Prim.search (hashing, rules) };

    fn hash<H: Hasher>(&self, state: &mut H) {
        state.write(self.as_bytes_const());
    }
}

/// Prints the bytes escaped.
impl<const CAPACITY: usize> fmt::Display for StaticString<CAPACITY> {
    ghost output = { λ string. Some (escaped_text string) };

    fn fmt<W: fmt::Write>(&self, f: &mut fmt::Formatter<W>) -> fmt::Result {
        Escaped(self.as_bytes_const()).fmt(f)
    }
}

/// Prints the capacity, the length and the escaped bytes, as `StaticString<5> { len: 2, data: "ab" }`.
impl<const CAPACITY: usize> fmt::Debug for StaticString<CAPACITY> {
    ghost debug_output = { λ string. Some (static_debug_text CAPACITY string) };

    fn fmt<W: fmt::Write>(&self, f: &mut fmt::Formatter<W>) -> fmt::Result {
        write!(
            f,
            "StaticString<{}> {{ len: {}, data: \"{}\" }}",
            CAPACITY,
            self.as_bytes_const().len(),
            Escaped(self.as_bytes_const())
        )
    }
}
