//! The error of inserting into a map.
ghost use Rattle.std.specs.Prelude.{Some};

use std::error::Error;
use std::fmt;

/// The error of inserting into a map. The map is unchanged when the error is returned.
///
/// This is `FlatMapError` of iceoryx2-bb-container, and has that name too.
#[derive(Clone, Copy, PartialEq, Eq, Hash, Debug)]
pub enum MapError {
    /// The map has an equal key.
    KeyAlreadyExists,
    /// There is no room for another key.
    IsFull,
}

impl fmt::Display for MapError {
    ghost use Rattle.ix_flatmap.specs.MapSteps.{map_error_text};

    ghost output = { λ error. Some (map_error_text error) };

    fn fmt<W: fmt::Write>(&self, f: &mut fmt::Formatter<W>) -> fmt::Result {
        f.write_str(match self {
            MapError::KeyAlreadyExists => "MapError::KeyAlreadyExists",
            MapError::IsFull => "MapError::IsFull",
        })
    }
}

impl Error for MapError {}
