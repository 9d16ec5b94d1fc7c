//! Names of groups.
ghost use Rattle.std.specs.Prelude.{◌≡◌, ◌||◌, not, refl};
ghost use Rattle.std.specs.Char.{is_ascii_digit, is_ascii_lowercase};
ghost use Rattle.ix_semantic_string.specs.SampleRules.{group_name_rules, is_dash};

use crate::semantic_string::{Rules, Semantic};
use ix_string::StaticString;

/// The rules of [`GroupName`].
///
/// These are the rules of the example in iceoryx2-bb-container's `semantic_string`.
#[derive(Clone, Copy, Debug)]
pub struct GroupNameRules;

/// A name of a group: 1 to 31 lower-case letters, digits and dashes. The first byte is a letter. Each name is its own normal form.
pub type GroupName = Semantic<GroupNameRules, 31>;

impl Rules<31> for GroupNameRules {
    ghost rules = { group_name_rules };

    /// Returns `true` if there is no byte, or if the first one is a digit or a dash.
    fn invalid_content(bytes: &[u8]) -> bool {
        match bytes.first() {
            Some(first) => *first == b'-' || first.is_ascii_digit(),
            None => true,
        }
    }

    /// Returns `true` if a byte is not a lower-case letter, digit or dash.
    fn invalid_characters(bytes: &[u8]) -> bool {
        let (eights, rest) = bytes.as_chunks::<8>();
        for eight in eights {
            if is_invalid_eight(eight) {
                return true;
            }
        }
        has_invalid_byte(rest)
    }

    /// Returns the string itself.
    #[inline]
    fn normalize(text: &StaticString<31>) -> StaticString<31> {
        *text
    }

    /// Returns `true`.
    #[inline]
    fn is_normal_form(_text: &StaticString<31>) -> bool {
        true
    }

    ghost normal_accepted = { λ _ accepted. accepted };

    ghost normal_twice = { λ _ _. refl };
}

/// Returns `true` if one of the bytes is not allowed in a name.
#[inline]
fn has_invalid_byte(bytes: &[u8]) -> bool
    ensures { result ≡ group_name_rules.invalid_characters bytes.now }
{
    bytes.iter().any(|byte| !may_stand_in_name(*byte))
}

/// Does the same as [`has_invalid_byte`] for eight bytes in one step.
#[inline]
fn is_invalid_eight(eight: &[u8; 8]) -> bool
    ensures { result ≡ group_name_rules.invalid_characters eight.now }
{
    let mut found = false;
    for byte in eight {
        // The loop does not end early, so that the compiler tests the bytes side by side.
        found = found | !may_stand_in_name(*byte);
    }
    found
}

#[inline]
fn may_stand_in_name(byte: u8) -> bool
    ensures { result ≡ is_ascii_lowercase byte || (is_ascii_digit byte || is_dash byte) }
{
    byte.is_ascii_lowercase() | byte.is_ascii_digit() | (byte == b'-')
}
