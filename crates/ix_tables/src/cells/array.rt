//! The trait of all arrays.
ghost use Rattle.std.specs.Prelude.{◌≡◌, ℕ, ◌<◌, List, length, slice_index_or, slice_set};
ghost use Rattle.std.specs.Borrow.{sem};
ghost use Rattle.ix_tables.specs.Lending.{table_lends};

/// A fixed row of places that each hold an item.
///
/// Places are indexed from 0. A place of a [`Table`](crate::Table) may be empty. A place of an array always holds an item, which is
/// overwritten, not removed.
///
/// Every method is O(1) and does not allocate.
pub trait Array<T>: Sized {
    /// The item in each place.
    ghost items: { Self → List T };

    /// The array with another item in a place.
    ghost with_item: { Self → ℕ → T → Self };

    /// A fact about the number of places that holds for every such array. For an inline array, the number is its capacity. For
    /// other arrays, the fact is trivial.
    ghost IsLen: { ℕ → Type 0 } = { λ _. Unit {0} };

    /// Returns the number of places.
    fn len(&self) -> usize
        ensures value { result ≡ length (items self.now) }
        ensures known { IsLen (length (items self.now)) };

    /// Returns a reference to the item in place `i`.
    fn get(&self, i: usize) -> &T
        requires { i < length (items self.now) }
        ensures { result.now ≡ slice_index_or (items self.now) i result.now };

    /// Returns a mutable reference to the item in place `i`.
    fn get_mut(&mut self, i: usize) -> &mut T
        requires { i < length (items self.old) }
        ensures* writes_back { sem 𝓛 (table_lends Self.row T.row with_item self.entry i result) }
        ensures value { result.now ≡ slice_index_or (items self.old) i result.now };

    /// Replacing the item in a place changes that place alone.
    ghost items_with_item: { (s : Self) (i : ℕ) (x : T) → items (with_item s i x) ≡ slice_set (items s) i x };
}
