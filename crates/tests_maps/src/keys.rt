//! Keys of several types.
ghost use Rattle.std.specs.Cmp.Rules.{comparing};
ghost use Rattle.std.specs.Char.{to_ascii_lowercase};
ghost use Rattle.std.specs.Hash as fed;
ghost use Rattle.std.specs.Ordering.{on};
ghost use Rattle.std.specs.Prelude.{nat_eq};
ghost use Rattle.std.proofs.Common.{rules};

use crate::caseless::Caseless;
use ix_string::StaticString;
use std::fmt::{self, Debug, Formatter, Write};
use std::hash::{Hash, Hasher};

/// A letter. Two are equal if they are once they are lower-case, and then they feed a hasher alike.
#[derive(Clone, Copy)]
pub struct Letter {
    pub byte: u8,
}

impl PartialEq for Letter {
    ghost eq = { on (λ letter. to_ascii_lowercase letter.byte) nat_eq };

    ghost laws = { Prim.search (comparing, rules) };

    fn eq(&self, other: &Self) -> bool {
        self.byte.to_ascii_lowercase() == other.byte.to_ascii_lowercase()
    }
}

impl Eq for Letter {
    ghost laws = { Prim.search (comparing, rules) };
}

impl Hash for Letter {
    ghost hash_input = { λ letter. fed.u8 (to_ascii_lowercase letter.byte) };

    ghost respects_eq = { Prim.search rules };

    fn hash<H: Hasher>(&self, state: &mut H) {
        state.write_u8(self.byte.to_ascii_lowercase());
    }
}

/// Prints the letter's byte.
impl Debug for Letter {
    fn fmt<W: Write>(&self, f: &mut Formatter<W>) -> fmt::Result {
        Debug::fmt(&self.byte, f)
    }
}

/// A key of two parts.
#[derive(Clone, Copy, PartialEq, Eq, Hash, Debug)]
pub struct Port {
    pub number: u16,
    pub is_open: bool,
}

/// Returns the key of these parts.
pub fn port_of(number: u16, is_open: bool) -> Port {
    Port { number, is_open }
}

/// Returns the text, or the empty one if it does not fit.
pub fn text<const CAPACITY: usize>(bytes: &str) -> StaticString<CAPACITY> {
    StaticString::try_from(bytes).unwrap_or(StaticString::new())
}

/// Returns the key of this text.
pub fn caseless_of(bytes: &str) -> Caseless {
    Caseless { text: text(bytes) }
}
