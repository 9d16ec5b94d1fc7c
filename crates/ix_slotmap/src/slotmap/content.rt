//! The content of the slots of a slot map.
ghost use Rattle.std.specs.Prelude.{◌≡◌, Option, Some, Bool, true, false};

use ix_tables::MaybeMoved;

/// The content that a slot of a [`MetaSlotMap`](crate::slotmap::MetaSlotMap) of values `T` can have if the slot is not free. It is
/// a value, or the rest of a value if the slot is retired. A map has methods for [`MaybeMoved`] alone.
pub trait Content<T> {
    /// The slot is not free, and has no value.
    ghost is_retired: { Option Self → Bool };

    /// The value, if there is one.
    ghost value: { Self → Option T };

    /// Moves the value out and returns it. O(1).
    fn take_value(&mut self) -> T
        requires { is_retired (Some self.old) ≡ false }
        ensures value { value self.old ≡ Some result }
        ensures left { is_retired (Some self.new) ≡ true };
}

impl<T> Content<T> for MaybeMoved<T> {
    ghost use Rattle.ix_slotmap.specs.Generations.{is_retired};

    ghost is_retired = { is_retired };

    ghost value = { λ content. content };

    #[inline]
    fn take_value(&mut self) -> T {
        self.take()
    }
}
