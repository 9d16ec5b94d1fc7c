//! The parts of values.
ghost use Rattle.std.specs.Prelude.{◌≡◌};

/// A part of a value `T`, such as one of its fields.
pub trait Part<T> {
    /// The type of the part.
    type Of;

    /// The part of a value.
    ghost part: { T → Self.Of };

    /// Returns the part of `value`. O(1).
    fn of(value: &T) -> &Self::Of
        ensures { result.now ≡ part value.now };
}

/// The whole value.
pub struct Whole;

impl<T> Part<T> for Whole {
    type Of = T;

    ghost part = { λ value. value };

    #[inline]
    fn of(value: &T) -> &T {
        value
    }
}
