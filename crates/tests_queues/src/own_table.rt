//! A table as a user would write it, for queues of the user's own kind.
ghost use Rattle.std.specs.Prelude.{◌≡◌, ℕ};

use ix_tables::Table;

/// A table that counts the items put into it.
pub struct CountedPuts<S> {
    table: S,
    puts: usize,
}

impl<S> CountedPuts<S> {
    /// Returns a table with the places of `table`.
    pub fn new(table: S) -> Self
        ensures { result.table ≡ table }
    {
        CountedPuts { table, puts: 0 }
    }
}

impl<T, S: Table<T>> Table<T> for CountedPuts<S> {
    ghost places = { λ counted. S.places counted.table };

    ghost with_item = { λ counted i x. record counted { table = S.with_item counted.table i x } };

    ghost places_with_item = { λ counted i x. S.places_with_item counted.table i x };

    fn len(&self) -> usize {
        self.table.len()
    }

    fn put(&mut self, i: usize, item: T) {
        self.puts = self.puts.wrapping_add(1);
        self.table.put(i, item);
    }

    fn take(&mut self, i: usize) -> T {
        self.table.take(i)
    }

    fn get(&self, i: usize) -> &T {
        self.table.get(i)
    }

    fn get_mut(&mut self, i: usize) -> &mut T {
        self.table.get_mut(i)
    }

    fn end(self) {
        let CountedPuts { table, puts: _ } = self;
        table.end();
    }
}
