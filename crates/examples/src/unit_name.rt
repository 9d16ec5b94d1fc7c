//! Names with rules of their own: names of units, in which the case of letters means nothing.
ghost use Rattle.std.specs.Prelude.{◌≡◌, ◌↔◌, IsTrue};
ghost use Rattle.std.specs.Str.{str_to_ascii_lowercase};
ghost use Rattle.examples.specs.UnitNames.{unit_name_rules};
ghost use Rattle.examples.specs.UnitNamesLaws.{lower_case-accepted, lower_case-twice};

use ix_names::{Rules, Semantic};
use ix_string::{StaticString, String};

/// The rules of [`UnitName`].
#[derive(Clone, Copy)]
pub struct UnitNameRules;

/// A name of 1 to 16 ASCII letters and digits. `Pump2` and `pump2` are the same unit.
pub type UnitName = Semantic<UnitNameRules, 16>;

impl Rules<16> for UnitNameRules {
    ghost rules = { unit_name_rules };

    /// Returns `true` if there is no byte.
    fn invalid_content(bytes: &[u8]) -> bool {
        bytes.is_empty()
    }

    /// Returns `true` if a byte is no ASCII letter or digit.
    fn invalid_characters(bytes: &[u8]) -> bool {
        bytes.iter().any(|byte| !byte.is_ascii_alphanumeric())
    }

    /// Returns the name in lower case.
    fn normalize(name: &StaticString<16>) -> StaticString<16> {
        let mut bytes = [0; 16];
        let normal = &mut bytes[..name.len()];
        normal.copy_from_slice(name.as_bytes());
        normal.make_ascii_lowercase();
        StaticString::from_bytes_unchecked(normal)
    }

    ghost normal_accepted = { lower_case-accepted };

    ghost normal_twice = { λ name _. lower_case-twice name };
}

/// Returns `true` if both name the same unit.
pub fn is_same_unit(left: &UnitName, right: &UnitName) -> bool
    ensures { IsTrue result ↔ (str_to_ascii_lowercase left.now ≡ str_to_ascii_lowercase right.now) }
{
    left == right
}
