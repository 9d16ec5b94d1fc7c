//! A table that counts the calls on it.
ghost use Rattle.std.specs.Prelude.{◌≡◌, ℕ, ◌+◌, ◌<◌, length, Some, None, codes, slice_index_or, slice_set};
ghost use Rattle.std.specs.Borrow.{ftrue, sem};
ghost use Rattle.ix_tables.specs.Places.{place_at, IsEmptyAt, IsHeldAt, IsVacant};

use crate::cells::{Array, Table};
use std::fmt;
use std::marker::Model;

/// A number that has no bytes: only contracts see it.
#[derive(Drop)]
struct Count {
    ghost number: { ℕ },
}

impl Model for Count {
    ghost also_owns = { λ _. ftrue };
}

impl Count {
    #[inline]
    fn zero() -> Count
        ensures { result.number ≡ 0 }
    {
        Count {}
    }

    #[inline]
    fn successor(&self) -> Count
        ensures { result.number ≡ self.now.number + 1 }
    {
        Count {}
    }
}

/// A counter of the calls on [`Counted`] tables, of size zero. Contracts see its number.
///
/// Only calls on a [`Counted`] table or array raise it, so a contract can bound the work of a function by it. Nothing is counted at
/// run time.
#[derive(Drop)]
pub struct Touches {
    count: Count,
}

impl Model for Touches {
    ghost use Rattle.std.specs.Prelude.{ℕ};
    ghost use Rattle.std.specs.Coded.{coded_ℕ};

    ghost Value = { ℕ };

    ghost coded = { coded_ℕ };

    ghost view = { λ touches. touches.count.number };
}

impl Touches {
    /// Creates a counter at 0. O(1).
    #[inline]
    pub fn new() -> Touches
        ensures { result ≡ 0 }
    {
        Touches {
            count: Count::zero(),
        }
    }

    #[inline]
    fn touch(&mut self)
        ensures { self.new ≡ self.old + 1 }
    {
        self.count = self.count.successor();
    }
}

/// Prints the type's name. The number is not known at run time.
impl fmt::Debug for Touches {
    ghost debug_output = { λ _. Some (codes "Touches") };

    fn fmt<W: fmt::Write>(&self, f: &mut fmt::Formatter<W>) -> fmt::Result {
        let _count = &self.count;
        f.write_str("Touches")
    }
}

/// A table or an array that counts in a [`Touches`] how often its places are accessed. Each access adds one, except
/// [`Counted::get_mut`] and [`Counted::item_mut`], which add two: their caller may read and write the item. Contracts see the table
/// or array itself.
///
/// No method allocates. Each is O(1), except [`Table::end`], which may look at each place.
#[derive(Drop)]
pub struct Counted<S> {
    table: S,
}

impl<S> Model for Counted<S> {
    ghost Value = { S };

    ghost coded = { S.code };

    ghost view = { λ counted. counted.table };
}

/// Prints the type's name and the table.
impl<S: fmt::Debug> fmt::Debug for Counted<S> {
    fn fmt<W: fmt::Write>(&self, f: &mut fmt::Formatter<W>) -> fmt::Result {
        f.debug_struct("Counted")
            .field("table", &self.table)
            .finish()
    }
}

impl<S> Counted<S> {
    ghost use Rattle.ix_tables.specs.Lending.{counted_lends};

    /// Wraps `table`.
    #[inline]
    pub fn new(table: S) -> Self
        ensures { result ≡ table }
    {
        Counted { table }
    }

    /// Returns the number of places. This is not counted.
    #[inline]
    pub fn len<T>(&self) -> usize
    where
        S: Table<T>,
        ensures value { result ≡ length (S.places self.now) }
        ensures known { S.IsLen (length (S.places self.now)) }
    {
        self.table.len()
    }

    /// Puts `item` into the empty place `i`, counted as one touch.
    #[inline]
    pub fn put<T>(&mut self, i: usize, item: T, touches: &mut Touches)
    where
        S: Table<T>,
        requires { IsEmptyAt (S.places self.old) i }
        ensures places { S.places self.new ≡ slice_set (S.places self.old) i (Some item) }
        ensures touches { touches.new ≡ touches.old + 1 }
    {
        touches.touch();
        self.table.put(i, item);
    }

    /// Removes the item from the held place `i` and returns it, counted as one touch.
    #[inline]
    pub fn take<T>(&mut self, i: usize, touches: &mut Touches) -> T
    where
        S: Table<T>,
        requires { IsHeldAt (S.places self.old) i }
        ensures value { place_at (S.places self.old) i ≡ Some result }
        ensures places { S.places self.new ≡ slice_set (S.places self.old) i None }
        ensures touches { touches.new ≡ touches.old + 1 }
    {
        touches.touch();
        self.table.take(i)
    }

    /// Returns a reference to the item in the held place `i`, counted as one touch.
    #[inline]
    pub fn get<T>(&self, i: usize, touches: &mut Touches) -> &T
    where
        S: Table<T>,
        requires { IsHeldAt (S.places self.now) i }
        ensures value { place_at (S.places self.now) i ≡ Some result.now }
        ensures touches { touches.new ≡ touches.old + 1 }
    {
        touches.touch();
        self.table.get(i)
    }

    /// Returns a mutable reference to the item in the held place `i`, counted as two touches.
    #[inline]
    pub fn get_mut<T>(&mut self, i: usize, touches: &mut Touches) -> &mut T
    where
        S: Table<T>,
        requires { IsHeldAt (S.places self.old) i }
        ensures* writes_back { sem 𝓛 (counted_lends S.row T.row S.with_item self.entry i result) }
        ensures value { place_at (S.places self.old) i ≡ Some result.now }
        ensures touches { touches.new ≡ touches.old + 2 }
    {
        touches.touch();
        touches.touch();
        self.table.get_mut(i)
    }

    /// Returns a reference to the item in place `i` of an array, counted as one touch.
    #[inline]
    pub fn item<T>(&self, i: usize, touches: &mut Touches) -> &T
    where
        S: Array<T>,
        requires { i < length (S.items self.now) }
        ensures value { result.now ≡ slice_index_or (S.items self.now) i result.now }
        ensures touches { touches.new ≡ touches.old + 1 }
    {
        touches.touch();
        self.table.get(i)
    }

    /// Returns a mutable reference to the item in place `i` of an array, counted as two touches.
    #[inline]
    pub fn item_mut<T>(&mut self, i: usize, touches: &mut Touches) -> &mut T
    where
        S: Array<T>,
        requires { i < length (S.items self.old) }
        ensures* writes_back { sem 𝓛 (counted_lends S.row T.row S.with_item self.entry i result) }
        ensures value { result.now ≡ slice_index_or (S.items self.old) i result.now }
        ensures touches { touches.new ≡ touches.old + 2 }
    {
        touches.touch();
        touches.touch();
        self.table.get_mut(i)
    }

    /// Consumes the table, all of whose places are empty.
    #[inline]
    pub fn end<T>(self)
    where
        S: Table<T>,
        requires { IsVacant (S.places self) }
    {
        let Counted { table } = self;
        table.end();
    }
}
