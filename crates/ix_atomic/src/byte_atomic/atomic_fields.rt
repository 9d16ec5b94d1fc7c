//! Structs in cells, stored as a tuple or an array of their fields.
ghost use Rattle.std.specs.Prelude.{◌≡◌, Some, None, IfSome};

use crate::byte_atomic::AtomicCopy;
use std::ops::Deref;

/// A struct that is stored as its fields are, in a cell of [`Fields<Self>`](Fields).
///
/// An impl names the fields as a tuple or an array. It makes the fields from a value, and a value from the fields. For
/// `Settings { low, high, mode }` the fields are `(u8, u8, u16)`. Then `ghost fields` is
/// `λ settings. (settings.low, settings.high, settings.mode)`, and the law `one_value` is `Prim.search rules`. If there are more
/// than three fields, use tuples in a tuple, or an array. A field that is such a struct itself is a `Fields` of it.
///
/// If the struct has a ghost field, `from_fields` tests its statement, so the statement holds of each value that is read from a
/// cell. docs/PROVING.md explains both.
pub trait AtomicFields: Copy {
    /// The fields, as a tuple or an array.
    type Fields: AtomicCopy;

    /// The fields of a value.
    ghost fields: { Self → Self.Fields };

    /// Returns the fields.
    #[must_use]
    fn to_fields(&self) -> Self::Fields
        ensures { result ≡ fields self.now };

    /// Returns the value with these fields, or `None` if there is none.
    #[must_use]
    fn from_fields(of: Self::Fields) -> Option<Self>
        ensures value { IfSome result (λ value. fields value ≡ of) }
        ensures none { result ≡ None → (value : Self) → ¬ (fields value ≡ of) };

    /// No two values have the same fields.
    ghost one_value: { (v w : Self) → fields v ≡ fields w → v ≡ w };
}

/// A struct in a cell. It derefs to the struct.
///
/// Its `SIZE` is the sum of the fields' sizes. The compiler accepts `u32::SIZE` as the number of bytes of a cell, but not yet
/// `Fields::<Pose>::SIZE`. So declare a constant beside the struct that is the sum, as `u32::SIZE + u32::SIZE + u64::SIZE`. Use it
/// as the `SIZE` of the cell's type.
#[derive(Clone, Copy, PartialEq, Eq, Debug)]
pub struct Fields<T>(pub T);

/// The encoding of the fields.
impl<T: AtomicFields> AtomicCopy for Fields<T> {
    const SIZE: usize = <T::Fields as AtomicCopy>::SIZE;

    ghost SIZE = { T.Fields.SIZE };

    ghost is_value = { λ stored. T.Fields.is_value (T.fields stored.0) };

    ghost encoding = { λ stored. T.Fields.encoding (T.fields stored.0) };

    #[inline]
    fn encode(&self, out: &mut [u8]) {
        self.0.to_fields().encode(out);
    }

    #[inline]
    fn decode(bytes: &[u8]) -> Option<Fields<T>> {
        match <T::Fields as AtomicCopy>::decode(bytes) {
            Some(fields) => match T::from_fields(fields) {
                Some(value) => Some(Fields(value)),
                None => None,
            },
            None => None,
        }
    }

    ghost encoding_len = { λ stored is. T.Fields.encoding_len (T.fields stored.0) is };

    ghost one_value = { λ v w v_is w_is same.
        let one = T.one_value v.0 w.0
        (T.Fields.one_value (T.fields v.0) (T.fields w.0) v_is w_is same) in
        λ i. record { 0 = one i } };
}

impl<T> From<T> for Fields<T> {
    ghost from_gives = { λ value result. result.0 ≡ value };

    /// Converts a struct to the value that its cell holds.
    #[inline]
    fn from(value: T) -> Fields<T> {
        Fields(value)
    }
}

impl<T> Deref for Fields<T> {
    type Target = T;

    ghost deref_gives = { λ stored value. value ≡ stored.0 };

    /// Returns the struct.
    #[inline]
    fn deref(&self) -> &T {
        &self.0
    }
}
