//! Keys that differ as values and are equal by their `Eq`.
ghost use Rattle.std.specs.Cmp.Lexicographic.{pointwise};
ghost use Rattle.std.specs.Cmp.Rules.{comparing};
ghost use Rattle.std.specs.Ordering.{on};
ghost use Rattle.std.specs.Prelude.{nat_eq};
ghost use Rattle.std.specs.Str.{str_to_ascii_lowercase};
ghost use Rattle.std.proofs.Common.{rules};

use ix_string::{StaticString, String};
use std::fmt::{self, Debug, Display, Formatter, Write};

/// A string of at most 8 bytes. Two are equal if they are once their ASCII letters are lower-case.
#[derive(Clone, Copy)]
pub struct Caseless {
    pub text: StaticString<8>,
}

impl PartialEq for Caseless {
    ghost eq = { on (λ key. str_to_ascii_lowercase key.text) (pointwise nat_eq) };

    ghost laws = { Prim.search (comparing, rules) };

    fn eq(&self, other: &Self) -> bool {
        self.text
            .as_bytes()
            .eq_ignore_ascii_case(other.text.as_bytes())
    }
}

impl Eq for Caseless {
    ghost laws = { Prim.search (comparing, rules) };
}

/// Prints the text as it is.
impl Debug for Caseless {
    fn fmt<W: Write>(&self, f: &mut Formatter<W>) -> fmt::Result {
        Display::fmt(&self.text, f)
    }
}
