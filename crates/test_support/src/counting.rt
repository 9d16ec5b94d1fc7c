//! A table that counts the calls of its methods.
ghost use Rattle.std.specs.Prelude.{◌≡◌, ℕ};

use ix_tables::{HeapTable, Table};
use std::alloc::Global;
use std::cell::Cell;
use std::rc::Rc;

/// A sum of numbers.
pub trait Tally {
    fn add(&self, calls: u64);
}

impl Tally for &Cell<u64> {
    fn add(&self, calls: u64) {
        self.set(self.get().wrapping_add(calls));
    }
}

impl Tally for Rc<Cell<u64>> {
    fn add(&self, calls: u64) {
        self.set(self.get().wrapping_add(calls));
    }
}

/// A table that adds its calls to a tally. It counts each call as one, except `len` and `end`, which it does not count, and
/// `get_mut`, which it counts as two: the caller may read and write the item.
pub struct Counting<S, C> {
    table: S,
    calls: C,
}

/// A table in the machine's memory that adds its calls to a tally, which others have too.
pub type CountingTable<T> = Counting<HeapTable<T, Global>, Rc<Cell<u64>>>;

impl<S, C> Counting<S, C> {
    /// Returns a table with the places of `table`.
    pub fn new(table: S, calls: C) -> Self
        ensures { result.table ≡ table }
    {
        Counting { table, calls }
    }
}

impl<T, S: Table<T>, C: Tally + Drop> Table<T> for Counting<S, C> {
    ghost places = { λ counting. S.places counting.table };

    ghost with_item = { λ counting i x.
        record counting { table = S.with_item counting.table i x } };

    ghost places_with_item = { λ counting i x. S.places_with_item counting.table i x };

    fn len(&self) -> usize {
        self.table.len()
    }

    fn put(&mut self, i: usize, item: T) {
        self.calls.add(1);
        self.table.put(i, item);
    }

    fn take(&mut self, i: usize) -> T {
        self.calls.add(1);
        self.table.take(i)
    }

    fn get(&self, i: usize) -> &T {
        self.calls.add(1);
        self.table.get(i)
    }

    fn get_mut(&mut self, i: usize) -> &mut T {
        self.calls.add(2);
        self.table.get_mut(i)
    }

    fn end(self) {
        let Counting { table, calls: _ } = self;
        table.end();
    }
}
