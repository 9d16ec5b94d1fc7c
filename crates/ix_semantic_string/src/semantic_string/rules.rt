//! The trait of rules.
ghost use Rattle.std.specs.Prelude.{ℕ, ◌≡◌, List, IsTrue};
ghost use Rattle.ix_semantic_string.specs.Rules.{TextRules, IsAccepted};

use ix_string::StaticString;

/// Rules that say which strings of at most `CAPACITY` bytes a [`Semantic`](crate::Semantic) string may hold, and which strings mean
/// the same.
///
/// Bytes are *accepted* if there are at most `CAPACITY` of them, each is from 1 to 127, and both predicates return `false`. Two
/// strings mean the same if their normal forms are equal. The predicates are called with the bytes of a whole string, and may
/// assume nothing else of it.
///
/// This trait replaces the macro `semantic_string!` of iceoryx2-bb-container.
pub trait Rules<const CAPACITY: usize> {
    /// The results of the functions.
    ghost rules: { TextRules };

    /// Returns `true` if the whole string is not allowed.
    fn invalid_content(bytes: &[u8]) -> bool
        ensures { result ≡ rules.invalid_content bytes.now };

    /// Returns `true` if the string has a byte that no string may have.
    fn invalid_characters(bytes: &[u8]) -> bool
        ensures { result ≡ rules.invalid_characters bytes.now };

    /// Returns the normal form of an accepted string.
    fn normalize(text: &StaticString<CAPACITY>) -> StaticString<CAPACITY>
        requires { IsAccepted CAPACITY rules text.now }
        ensures { result ≡ rules.normal_form text.now };

    /// Returns `true` if the accepted string is known to be its own normal form, so that comparing and hashing need not make one.
    ///
    /// `false` says nothing. It is the result if the rules leave this function out.
    #[inline]
    fn is_normal_form(_text: &StaticString<CAPACITY>) -> bool
        requires { IsAccepted CAPACITY rules _text.now }
        ensures { IsTrue result → rules.normal_form _text.now ≡ _text.now }
    {
        false
    }

    /// A normal form is accepted.
    ghost normal_accepted: { (text : List ℕ) → IsAccepted CAPACITY rules text
        → IsAccepted CAPACITY rules (rules.normal_form text) };

    /// A normal form is its own normal form.
    ghost normal_twice: { (text : List ℕ) → IsAccepted CAPACITY rules text
        → rules.normal_form (rules.normal_form text) ≡ rules.normal_form text };
}
