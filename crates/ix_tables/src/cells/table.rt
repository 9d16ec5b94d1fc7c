//! The trait of all tables.
ghost use Rattle.std.specs.Prelude.{◌≡◌, ℕ, List, length, Option, Some, None, slice_set};
ghost use Rattle.std.specs.Borrow.{sem};
ghost use Rattle.ix_tables.specs.Lending.{table_lends};
ghost use Rattle.ix_tables.specs.Places.{place_at, IsEmptyAt, IsHeldAt, IsVacant};

/// The greatest capacity of a container that is stored inline, in items.
pub const MAX_FIXED_CAPACITY: usize = 4_294_967_295;

/// A fixed row of places, each empty or holding one item.
///
/// Places are indexed from 0. No method of a table tells whether a place holds an item: its owner knows. The owner takes every item
/// out before it consumes the table by [`Table::end`]. Only a filled table can be dropped.
///
/// Every method is O(1) and does not allocate. Only `end` may take O(`len`), since an inline table drops its places.
pub trait Table<T>: Sized {
    /// The content of each place.
    ghost places: { Self → List (Option T) };

    /// The table with another item in a held place.
    ghost with_item: { Self → ℕ → T → Self };

    /// A fact about the number of places that holds for every such table. For an inline table, the number is its capacity. For
    /// other tables, the fact is trivial.
    ghost IsLen: { ℕ → Type 0 } = { λ _. Unit {0} };

    /// Returns the number of places.
    fn len(&self) -> usize
        ensures value { result ≡ length (places self.now) }
        ensures known { IsLen (length (places self.now)) };

    /// Puts `item` into the empty place `i`.
    fn put(&mut self, i: usize, item: T)
        requires { IsEmptyAt (places self.old) i }
        ensures { places self.new ≡ slice_set (places self.old) i (Some item) };

    /// Removes the item from the held place `i` and returns it.
    fn take(&mut self, i: usize) -> T
        requires { IsHeldAt (places self.old) i }
        ensures value { place_at (places self.old) i ≡ Some result }
        ensures places { places self.new ≡ slice_set (places self.old) i None };

    /// Returns a reference to the item in the held place `i`.
    fn get(&self, i: usize) -> &T
        requires { IsHeldAt (places self.now) i }
        ensures { place_at (places self.now) i ≡ Some result.now };

    /// Returns a mutable reference to the item in the held place `i`.
    fn get_mut(&mut self, i: usize) -> &mut T
        requires { IsHeldAt (places self.old) i }
        ensures* writes_back { sem 𝓛 (table_lends Self.row T.row with_item self.entry i result) }
        ensures value { place_at (places self.old) i ≡ Some result.now };

    /// Consumes the table, all of whose places are empty.
    fn end(self)
        requires { IsVacant (places self) };

    /// Replacing the item in a place changes that place alone.
    ghost places_with_item: { (s : Self) (i : ℕ) (x : T)
        → places (with_item s i x) ≡ slice_set (places s) i (Some x) };
}
