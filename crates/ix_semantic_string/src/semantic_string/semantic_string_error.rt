//! The error of a semantic string.
ghost use Rattle.std.specs.Prelude.{◌≡◌, Some};
ghost use Rattle.ix_semantic_string.specs.ErrorTexts.{semantic_error_of, semantic_error_text};

use ix_string::StringModificationError;
use std::error::Error;
use std::fmt;

/// The error of creating or changing a semantic string. A change that returns it leaves the string unchanged.
///
/// This is `SemanticStringError` of iceoryx2-bb-container.
#[derive(Clone, Copy, PartialEq, Eq, Debug)]
pub enum SemanticStringError {
    /// A byte of the string is 0 or above 127, or the rules do not accept the string.
    InvalidContent,
    /// The length would exceed the capacity.
    ExceedsMaximumLength,
}

/// [`StringModificationError::InsertWouldExceedCapacity`] becomes [`SemanticStringError::ExceedsMaximumLength`], and
/// [`StringModificationError::InvalidCharacter`] becomes [`SemanticStringError::InvalidContent`].
impl From<StringModificationError> for SemanticStringError {
    ghost from_gives = { λ error result. result ≡ semantic_error_of error };

    fn from(error: StringModificationError) -> SemanticStringError {
        match error {
            StringModificationError::InvalidCharacter => SemanticStringError::InvalidContent,
            StringModificationError::InsertWouldExceedCapacity => {
                SemanticStringError::ExceedsMaximumLength
            }
        }
    }
}

impl fmt::Display for SemanticStringError {
    ghost output = { λ error. Some (semantic_error_text error) };

    fn fmt<W: fmt::Write>(&self, f: &mut fmt::Formatter<W>) -> fmt::Result {
        f.write_str(match self {
            SemanticStringError::InvalidContent => "SemanticStringError::InvalidContent",
            SemanticStringError::ExceedsMaximumLength => {
                "SemanticStringError::ExceedsMaximumLength"
            }
        })
    }
}

impl Error for SemanticStringError {}
