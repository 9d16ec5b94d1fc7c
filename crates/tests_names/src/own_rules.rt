//! Rules of the tests' own, for any capacity.
ghost use Rattle.std.specs.Prelude.{◌%◌, ◌==◌, length, false, refl};

use ix_semantic_string::Rules;
use ix_string::StaticString;

/// Accepts all strings except the empty one.
pub struct NonEmptyRules;

impl<const CAPACITY: usize> Rules<CAPACITY> for NonEmptyRules {
    ghost rules = { record {
      invalid_content = λ text. length text == 0;
      invalid_characters = λ _. false;
      normal_form = λ text. text;
    } };

    fn invalid_content(bytes: &[u8]) -> bool {
        bytes.is_empty()
    }

    fn invalid_characters(_bytes: &[u8]) -> bool {
        false
    }

    fn normalize(text: &StaticString<CAPACITY>) -> StaticString<CAPACITY> {
        *text
    }

    ghost normal_accepted = { λ _ accepted. accepted };

    ghost normal_twice = { λ _ _. refl };
}

/// Accepts the strings of an even number of bytes, so each change of a string by one byte is an error.
pub struct EvenLengthRules;

impl<const CAPACITY: usize> Rules<CAPACITY> for EvenLengthRules {
    ghost rules = { record {
      invalid_content = λ text. length text % 2 == 1;
      invalid_characters = λ _. false;
      normal_form = λ text. text;
    } };

    fn invalid_content(bytes: &[u8]) -> bool {
        bytes.len() % 2 == 1
    }

    fn invalid_characters(_bytes: &[u8]) -> bool {
        false
    }

    fn normalize(text: &StaticString<CAPACITY>) -> StaticString<CAPACITY> {
        *text
    }

    ghost normal_accepted = { λ _ accepted. accepted };

    ghost normal_twice = { λ _ _. refl };
}
