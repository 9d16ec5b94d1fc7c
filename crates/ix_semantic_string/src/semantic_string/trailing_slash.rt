//! Strings whose trailing slashes mean nothing.
ghost use Rattle.std.specs.Prelude.{◌≡◌, ◌≤◌, length, take, refl};
ghost use Rattle.ix_semantic_string.specs.SampleRules.{trailing_slash_rules, without_trailing_slashes};
ghost use Rattle.ix_semantic_string.specs.laws.SampleRulesLaws.{IsText-without_trailing_slashes, without_trailing_slashes-fits, without_trailing_slashes-twice};

use crate::semantic_string::Rules;
use ix_string::{StaticString, String};

/// Rules that accept every string of at most 255 bytes, and under which slashes at its end mean nothing: `/tmp` and `/tmp/` are
/// equal. A string of slashes alone means `/`.
#[derive(Clone, Copy, Debug)]
pub struct TrailingSlashRules;

impl Rules<255> for TrailingSlashRules {
    ghost rules = { trailing_slash_rules };

    /// Returns `false`.
    #[inline]
    fn invalid_content(_bytes: &[u8]) -> bool {
        false
    }

    /// Returns `false`.
    #[inline]
    fn invalid_characters(_bytes: &[u8]) -> bool {
        false
    }

    /// Returns the string without the slashes at its end, or `/` if it is one or more slashes.
    fn normalize(text: &StaticString<255>) -> StaticString<255> {
        let mut normal = *text;
        normal.truncate(meaning_len(text.as_bytes()));
        normal
    }

    /// Returns `true` if the string does not end with a slash, or is one byte.
    #[inline]
    fn is_normal_form(text: &StaticString<255>) -> bool {
        meaning_len(text.as_bytes()) == text.len()
    }

    ghost normal_accepted = { λ text accepted. record {
      fits = without_trailing_slashes-fits text 255 accepted.fits;
      text = IsText-without_trailing_slashes text accepted.text;
      content = refl;
      characters = refl;
    } };

    ghost normal_twice = { λ text _. without_trailing_slashes-twice text };
}

/// Returns the number of bytes without the slashes at the end, but at least 1 if `bytes` is not empty.
fn meaning_len(bytes: &[u8]) -> usize
    ensures within { result ≤ length bytes.now }
    ensures value { take result bytes.now ≡ without_trailing_slashes bytes.now }
{
    let mut len = bytes.len();
    while len > 1 && bytes[len - 1] == b'/' {
        len -= 1;
    }
    len
}
