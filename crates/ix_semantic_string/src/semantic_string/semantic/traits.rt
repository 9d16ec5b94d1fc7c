//! How semantic strings are converted, compared, hashed and printed.
ghost use Rattle.std.specs.Prelude.{◌≡◌, [], ◌∷◌, Some, IsTrue};
ghost use Rattle.std.specs.Cmp.{partial_order_from_own_ties};
ghost use Rattle.std.specs.Cmp.Rules.{comparing, hashing};
ghost use Rattle.std.specs.Ordering.{as_partial_cmp};
ghost use Rattle.ix_string.specs.Text.{text_eq};
ghost use Rattle.std.proofs.Common.{rules};
ghost use Rattle.ix_string.specs.Escape.{escaped_text};
ghost use Rattle.ix_semantic_string.specs.Rules.{means_the_same, compare_meanings};
ghost use Rattle.ix_semantic_string.specs.SemanticSteps.{SemanticResult};

use crate::semantic_string::{Rules, Semantic, SemanticStringError};
use ix_string::String;
use std::cmp::Ordering;
use std::fmt;
use std::hash::{Hash, Hasher};
use std::str::FromStr;

impl<R: Rules<CAPACITY>, const CAPACITY: usize> FromStr for Semantic<R, CAPACITY> {
    type Err = SemanticStringError;

    ghost from_str_gives = { λ text result. SemanticResult CAPACITY R.rules text text result };

    /// Creates a string that holds the bytes of `text`, or returns the error of [`Semantic::new`].
    fn from_str(text: &str) -> Result<Self, SemanticStringError> {
        Semantic::try_from(text)
    }
}

impl<R: Rules<CAPACITY>, const CAPACITY: usize> TryFrom<&str> for Semantic<R, CAPACITY> {
    type Error = SemanticStringError;

    ghost try_from_gives = { λ text result.
        SemanticResult CAPACITY R.rules text.now text.now result };

    /// Creates a string that holds the bytes of `text`, or returns the error of [`Semantic::new`].
    fn try_from(text: &str) -> Result<Self, SemanticStringError> {
        Semantic::new(text.as_bytes())
    }
}

impl<R: Rules<CAPACITY>, const CAPACITY: usize> TryFrom<&[u8]> for Semantic<R, CAPACITY> {
    type Error = SemanticStringError;

    ghost try_from_gives = { λ bytes result.
        SemanticResult CAPACITY R.rules bytes.now bytes.now result };

    /// Creates a string that holds the bytes, or returns the error of [`Semantic::new`].
    fn try_from(bytes: &[u8]) -> Result<Self, SemanticStringError> {
        Semantic::new(bytes)
    }
}

impl<R: Rules<CAPACITY>, const CAPACITY: usize, const N: usize> TryFrom<&[u8; N]>
    for Semantic<R, CAPACITY> {
    type Error = SemanticStringError;

    ghost try_from_gives = { λ bytes result.
        SemanticResult CAPACITY R.rules bytes.now bytes.now result };

    /// Creates a string that holds the bytes, or returns the error of [`Semantic::new`].
    fn try_from(bytes: &[u8; N]) -> Result<Self, SemanticStringError> {
        Semantic::new(bytes.as_slice())
    }
}

/// Returns `true` if both strings have the same bytes.
#[inline]
fn have_same_bytes<R: Rules<CAPACITY>, const CAPACITY: usize>(
    left: &Semantic<R, CAPACITY>,
    right: &Semantic<R, CAPACITY>,
) -> bool
    ensures { result ≡ text_eq left.now right.now }
{
    // std compares string slices of at most 32 bytes as four numbers, without a call, and longer ones slower than bytes.
    if CAPACITY <= 32 {
        left.text.as_str() == right.text.as_str()
    } else {
        left.text == right.text
    }
}

/// Returns `true` if both strings are known to be their own normal forms.
#[inline]
fn are_normal_forms<R: Rules<CAPACITY>, const CAPACITY: usize>(
    left: &Semantic<R, CAPACITY>,
    right: &Semantic<R, CAPACITY>,
) -> bool
    ensures left { IsTrue result → R.rules.normal_form left.now ≡ left.now }
    ensures right { IsTrue result → R.rules.normal_form right.now ≡ right.now }
{
    R::is_normal_form(&left.text) && R::is_normal_form(&right.text)
}

/// Strings are equal if their normal forms have the same bytes.
impl<R: Rules<CAPACITY>, const CAPACITY: usize> PartialEq for Semantic<R, CAPACITY> {
    ghost eq = { means_the_same R.rules };

    ghost laws = { Prim.search (comparing, rules) };

    fn eq(&self, other: &Self) -> bool {
        if have_same_bytes(self, other) {
            return true;
        }
        if are_normal_forms(self, other) {
            return false;
        }
        R::normalize(&self.text) == R::normalize(&other.text)
    }
}

impl<R: Rules<CAPACITY>, const CAPACITY: usize> Eq for Semantic<R, CAPACITY> {
    ghost laws = { Prim.search (comparing, rules) };
}

/// Strings are ordered as the bytes of their normal forms.
impl<R: Rules<CAPACITY>, const CAPACITY: usize> Ord for Semantic<R, CAPACITY> {
    ghost cmp = { compare_meanings R.rules };

    ghost total = { Prim.search (comparing, rules) };

    ghost matches_partial_cmp = { Prim.search (comparing, rules) };

    ghost matches_eq = { Prim.search (comparing, rules) };

    fn cmp(&self, other: &Self) -> Ordering {
        if are_normal_forms(self, other) {
            return self.text.cmp(&other.text);
        }
        R::normalize(&self.text).cmp(&R::normalize(&other.text))
    }
}

impl<R: Rules<CAPACITY>, const CAPACITY: usize> PartialOrd for Semantic<R, CAPACITY> {
    ghost partial_cmp = { as_partial_cmp (compare_meanings R.rules) };

    ghost laws = { partial_order_from_own_ties (Prim.search (comparing, rules))
        (Prim.search (comparing, rules)) };

    fn partial_cmp(&self, other: &Self) -> Option<Ordering> {
        Some(self.cmp(other))
    }
}

/// Feeds the bytes of the normal form to the hasher in one write.
impl<R: Rules<CAPACITY>, const CAPACITY: usize> Hash for Semantic<R, CAPACITY> {
    ghost hash_input = { λ string. R.rules.normal_form string ∷ [] };

    ghost respects_eq = { Prim.search (hashing, rules) };

    fn hash<H: Hasher>(&self, state: &mut H) {
        if R::is_normal_form(&self.text) {
            state.write(self.as_bytes());
        } else {
            let normal = R::normalize(&self.text);
            state.write(normal.as_bytes_const());
        }
    }
}

/// Prints the bytes escaped.
impl<R: Rules<CAPACITY>, const CAPACITY: usize> fmt::Display for Semantic<R, CAPACITY> {
    ghost output = { λ string. Some (escaped_text string) };

    fn fmt<W: fmt::Write>(&self, f: &mut fmt::Formatter<W>) -> fmt::Result {
        fmt::Display::fmt(&self.text, f)
    }
}

/// Prints the struct with the string inside, as `Semantic { text: StaticString<31> { len: 4, data: "ab-1" } }`.
impl<R: Rules<CAPACITY>, const CAPACITY: usize> fmt::Debug for Semantic<R, CAPACITY> {
    fn fmt<W: fmt::Write>(&self, f: &mut fmt::Formatter<W>) -> fmt::Result {
        f.debug_struct("Semantic")
            .field("text", &self.text)
            .finish()
    }
}
