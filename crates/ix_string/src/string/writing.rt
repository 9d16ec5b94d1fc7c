//! Pieces of formatted text that are written to strings.
ghost use Rattle.std.specs.Prelude.{◌≡◌, ◌↔◌, length, IsOk, OnErr};
ghost use Rattle.ix_vector.specs.VectorSteps.{HasRoomFor, vec_extend};
ghost use Rattle.ix_string.specs.Text.{IsText};

use crate::string::String;
use std::fmt;

/// Appends `text` to a string of any kind, or returns an error and leaves the string unchanged.
#[inline]
pub(crate) fn write_to<S: String>(string: &mut S, text: &str) -> fmt::Result
    ensures value { IsOk result
        ↔ HasRoomFor (length text.now) (S.bounded string.old) × IsText text.now }
    ensures string { IsOk result
        → S.bounded string.new ≡ vec_extend (S.bounded string.old) text.now }
    ensures refused { OnErr result (string.new ≡ string.old) }
{
    string.push_str(text).or(Err(fmt::Error))
}
