//! Rules that have a default string.
ghost use Rattle.std.specs.Prelude.{◌≡◌, ℕ, List, [], refl};
ghost use Rattle.ix_semantic_string.specs.Rules.{IsAccepted};

use crate::semantic_string::{Rules, Semantic, TrailingSlashRules};

/// Rules that have a default string, which they accept. [`Semantic`] strings of such rules have a default, and can be the elements
/// of a fixed vector.
pub trait DefaultText<const CAPACITY: usize>: Rules<CAPACITY> {
    /// The default string.
    ghost default_text: { List ℕ };

    /// Returns the default string. O(1).
    fn default_text() -> &'static str
        ensures { result.now ≡ default_text };

    /// The rules accept the default string.
    ghost default_accepted: { IsAccepted CAPACITY Self.rules default_text };
}

/// Creates the default string of the rules. O(`CAPACITY`).
impl<R: DefaultText<CAPACITY>, const CAPACITY: usize> Default for Semantic<R, CAPACITY> {
    ghost is_default = { λ string. string ≡ R.default_text };

    fn default() -> Self {
        Semantic::new_unchecked(R::default_text().as_bytes())
    }
}

/// The default string is empty.
impl DefaultText<255> for TrailingSlashRules {
    ghost use Rattle.std.proofs.Common.{rules};

    ghost default_text = { [] };

    #[inline]
    fn default_text() -> &'static str {
        ""
    }

    ghost default_accepted = { Prim.search rules };
}
