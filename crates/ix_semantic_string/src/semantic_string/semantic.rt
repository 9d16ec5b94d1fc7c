//! How a semantic string is made and read.
ghost use Rattle.std.specs.Prelude.{◌≡◌, ◌+◌, ◌<◌, ◌≤◌, ◌↔◌, [], ◌∷◌, ◌++◌, length, drop, IsTrue, IsSome, IfSome, IfNone, IfOk, OnSome, string_bytes};
ghost use Rattle.std.specs.Bool.{OnFalse};
ghost use Rattle.ix_string.specs.Text.{IsText, IsFirstMatch, IsLastMatch, before_nul};
ghost use Rattle.ix_semantic_string.specs.Rules.{IsAccepted, means_the_same};
ghost use Rattle.ix_semantic_string.specs.SemanticSteps.{SemanticResult};

mod changes;
mod traits;

use crate::semantic_string::{Rules, SemanticStringError};
use ix_string::{StaticString, String, strnlen};
use std::alloc::{AllocError, Global};
use std::marker::{Model, PhantomData};

/// A string of at most `CAPACITY` bytes that the rules `R` always accept. It is stored inline and can be copied. Only
/// [`Semantic::to_text`] allocates. Contracts see it as the list of its bytes.
///
/// Each change is judged by the whole string that would result, and a method that returns an error leaves the string unchanged.
/// Strings are compared and hashed by their normal forms. `Display` prints the bytes escaped, as
/// [`as_escaped_string`](ix_string::as_escaped_string) does. Lengths and indexes are counted in bytes, and indexes start at 0.
///
/// This is `SemanticString` of iceoryx2-bb-container.
pub struct Semantic<R: Rules<CAPACITY>, const CAPACITY: usize> {
    text: StaticString<CAPACITY>,
    rules: PhantomData<R>,
}

impl<R: Rules<CAPACITY>, const CAPACITY: usize> Model for Semantic<R, CAPACITY> {
    ghost use Rattle.std.specs.Prelude.{ℕ, List};
    ghost use Rattle.ix_semantic_string.specs.Rules.{IsAccepted};

    ghost Value = { List ℕ };

    ghost view = { λ string. string.text };

    ghost invariant = { λ string. IsAccepted CAPACITY R.rules string.text };

    ghost inverse = { λ text. record { text = text; rules = record {} } };
}

/// A semantic string is `Copy` whatever its rules are. A derive would require the rules to be `Copy` too.
impl<R: Rules<CAPACITY>, const CAPACITY: usize> Clone for Semantic<R, CAPACITY> {
    ghost is_clone = { λ string clone. clone ≡ string };

    ghost is_infallible = { λ _. Unit {0} };

    #[inline]
    fn clone(&self) -> Result<Self, AllocError> {
        Ok(Semantic::of(self.text))
    }
}

impl<R: Rules<CAPACITY>, const CAPACITY: usize> Copy for Semantic<R, CAPACITY> {}

impl<R: Rules<CAPACITY>, const CAPACITY: usize> Semantic<R, CAPACITY> {
    /// Returns the string of its bytes. O(1).
    #[inline]
    #[must_use]
    pub fn as_string(&self) -> &StaticString<CAPACITY>
        ensures value { result.now ≡ self.now }
        ensures accepted { IsAccepted CAPACITY R.rules result.now }
        ensures within { length self.now ≤ CAPACITY }
    {
        &self.text
    }

    /// Creates a string that holds the bytes. O(`CAPACITY`) plus the time of the rules.
    ///
    /// Returns [`SemanticStringError::ExceedsMaximumLength`] if there are more than `CAPACITY` bytes. Otherwise, returns
    /// [`SemanticStringError::InvalidContent`] if one of them is 0 or above 127, or if the rules do not accept them.
    pub fn new(bytes: &[u8]) -> Result<Self, SemanticStringError>
        ensures { SemanticResult CAPACITY R.rules bytes.now bytes.now result }
    {
        Semantic::from_string(StaticString::from_bytes(bytes)?)
    }

    /// Creates a string that holds the bytes of `text`, or returns [`SemanticStringError::InvalidContent`] if the rules do
    /// not accept them.
    fn from_string(text: StaticString<CAPACITY>) -> Result<Self, SemanticStringError>
        ensures { SemanticResult CAPACITY R.rules text.entry text.entry result }
    {
        judge::<R, CAPACITY>(text.as_bytes())?;
        Ok(Semantic::of(text))
    }

    /// Creates a string that holds the bytes, without checking that they are accepted. O(`CAPACITY`).
    pub fn new_unchecked(bytes: &[u8]) -> Self
        requires { IsAccepted CAPACITY R.rules bytes.now }
        ensures { result ≡ bytes.now }
    {
        Semantic::of(StaticString::from_bytes_unchecked(bytes))
    }

    /// Creates a string that holds the bytes, without checking that they are accepted. O(`CAPACITY`).
    ///
    /// This is [`Semantic::new_unchecked`].
    #[inline]
    pub fn new_unchecked_const(bytes: &[u8]) -> Self
        requires { IsAccepted CAPACITY R.rules bytes.now }
        ensures { result ≡ bytes.now }
    {
        Semantic::new_unchecked(bytes)
    }

    /// Creates a string that holds the bytes before the first zero, or all bytes if there is no zero. O(`bytes.len() + CAPACITY`)
    /// plus the time of the rules.
    ///
    /// Returns the errors of [`Semantic::new`].
    pub fn from_c_str(bytes: &[u8]) -> Result<Self, SemanticStringError>
        ensures { SemanticResult CAPACITY R.rules (before_nul bytes.now)
            (before_nul bytes.now) result }
    {
        Semantic::new(&bytes[..strnlen(bytes, bytes.len())])
    }

    /// Returns the bytes. O(1).
    #[inline]
    #[must_use]
    pub fn as_bytes(&self) -> &[u8]
        ensures value { result.now ≡ self.now }
        ensures accepted { IsAccepted CAPACITY R.rules result.now }
        ensures within { length self.now ≤ CAPACITY }
    {
        self.text.as_bytes_const()
    }

    /// Returns the bytes. O(1).
    ///
    /// This is [`Semantic::as_bytes`].
    #[inline]
    #[must_use]
    pub fn as_bytes_const(&self) -> &[u8]
        ensures value { result.now ≡ self.now }
        ensures accepted { IsAccepted CAPACITY R.rules result.now }
        ensures within { length self.now ≤ CAPACITY }
    {
        self.as_bytes()
    }

    /// Returns the bytes as a string slice. O(1).
    #[inline]
    #[must_use]
    pub fn as_str(&self) -> &str
        ensures value { result.now ≡ self.now }
        ensures accepted { IsAccepted CAPACITY R.rules result.now }
        ensures within { length self.now ≤ CAPACITY }
    {
        self.text.as_str()
    }

    /// Returns the maximum number of bytes, `CAPACITY`. O(1).
    #[inline]
    #[must_use]
    pub fn capacity(&self) -> usize
        ensures { result ≡ CAPACITY }
    {
        Self::max_len()
    }

    /// Returns the maximum number of bytes, `CAPACITY`. O(1).
    #[inline]
    #[must_use]
    pub const fn max_len() -> usize
        ensures { result ≡ CAPACITY }
    {
        CAPACITY
    }

    /// Returns the least index at which `bytes` occur, or `None` if they do not occur. An empty `bytes` occurs at 0.
    /// O(`len + bytes.len()`).
    #[must_use]
    pub fn find(&self, bytes: &[u8]) -> Option<usize>
        ensures { IsFirstMatch self.now bytes.now result }
    {
        self.text.find(bytes)
    }

    /// Returns the greatest index at which `bytes` occur, or `None` if they do not occur. An empty `bytes` occurs at `len`.
    /// O(`len + bytes.len()`).
    #[must_use]
    pub fn rfind(&self, bytes: &[u8]) -> Option<usize>
        ensures { IsLastMatch self.now bytes.now result }
    {
        self.text.rfind(bytes)
    }

    /// Returns how many more bytes fit, `capacity - len`. The rules may still reject them. O(1).
    #[inline]
    #[must_use]
    pub fn remaining_capacity(&self) -> usize
        ensures { length self.now + result ≡ CAPACITY }
    {
        self.text.remaining_capacity()
    }

    /// Returns `true` if the length equals the capacity. O(1).
    #[inline]
    #[must_use]
    pub fn is_full(&self) -> bool
        ensures value { IsTrue result ↔ (length self.now ≡ CAPACITY) }
        ensures room { OnFalse result (length self.now < CAPACITY) }
    {
        self.text.is_full()
    }

    /// Returns `true` if the string has no bytes. O(1).
    #[inline]
    #[must_use]
    pub fn is_empty(&self) -> bool
        ensures { IsTrue result ↔ (self.now ≡ []) }
    {
        self.text.is_empty()
    }

    /// Returns the number of bytes. O(1).
    #[inline]
    #[must_use]
    pub fn len(&self) -> usize
        ensures value { result ≡ length self.now }
        ensures within { result ≤ CAPACITY }
    {
        self.text.len()
    }

    /// Returns the normal form, to which the string is equal. O(`CAPACITY`) plus the time of the rules.
    #[inline]
    #[must_use]
    pub fn normalize(&self) -> Self
        ensures value { result ≡ R.rules.normal_form self.now }
        ensures equal { IsTrue (means_the_same R.rules result self.now) }
    {
        Semantic::of(R::normalize(&self.text))
    }

    /// Copies the bytes and then a zero to the start of `out`, and returns the number of copied bytes, `len + 1`. Returns `None`,
    /// and leaves `out` unchanged, if `out` is shorter. The rest of `out` is left unchanged. O(`len`).
    #[must_use]
    pub fn copy_with_nul(&self, out: &mut [u8]) -> Option<usize>
        ensures variant { IsSome result ↔ (length self.now < length out.old) }
        ensures value { IfSome result (λ n. n ≡ length self.now + 1) }
        ensures copy { OnSome result
            (out.new ≡ (self.now ++ 0 ∷ []) ++ drop (length self.now + 1) out.old) }
        ensures refused { IfNone result (out.new ≡ out.old) }
    {
        self.text.copy_with_nul(out)
    }

    /// Returns the bytes as a string of std in memory of `alloc`. O(`len`).
    ///
    /// Returns `AllocError` if the allocation fails.
    pub fn to_text(&self, alloc: Global) -> Result<std::string::String, AllocError>
        ensures { IfOk result (λ text. string_bytes text ≡ self.now) }
    {
        std::string::String::from_str(alloc, self.as_str())
    }

    /// Returns `true` if `other` is accepted and means the same. O(`CAPACITY`) plus the time of the rules.
    #[must_use]
    pub fn eq_bytes(&self, other: &[u8]) -> bool
        ensures { IsTrue result ↔ IsAccepted CAPACITY R.rules other.now
            × IsTrue (means_the_same R.rules self.now other.now) }
    {
        match Semantic::<R, CAPACITY>::new(other) {
            Ok(other) => *self == other,
            Err(_) => false,
        }
    }

    /// Returns `true` if the bytes of `other` are accepted and mean the same. O(`CAPACITY`) plus the time of the rules.
    #[must_use]
    pub fn eq_str(&self, other: &str) -> bool
        ensures { IsTrue result ↔ IsAccepted CAPACITY R.rules other.now
            × IsTrue (means_the_same R.rules self.now other.now) }
    {
        self.eq_bytes(other.as_bytes())
    }

    #[inline]
    fn of(text: StaticString<CAPACITY>) -> Self
        requires { IsAccepted CAPACITY R.rules text }
        ensures { result ≡ text.entry }
    {
        Semantic {
            text,
            rules: PhantomData,
        }
    }
}

/// Returns an error if the rules do not accept the bytes.
#[inline]
fn judge<R: Rules<CAPACITY>, const CAPACITY: usize>(bytes: &[u8]) -> Result<(), SemanticStringError>
    requires fits { length bytes.now ≤ CAPACITY }
    requires text { IsText bytes.now }
    ensures { SemanticResult CAPACITY R.rules bytes.now tt result }
{
    if R::invalid_characters(bytes) || R::invalid_content(bytes) {
        return Err(SemanticStringError::InvalidContent);
    }
    Ok(())
}
