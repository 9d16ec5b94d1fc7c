//! Where a container has its memory.
use crate::slottable::Link;
use ix_tables::{FilledHeapTable, FilledInlineTable, HeapTable, InlineTable, Table};
use std::alloc::{Allocator, Global};
use std::marker::PhantomData;

/// Where a container has its memory: [`Inline`], a [`Heap`], or two tables of your own as a tuple.
///
/// It names the table of a container's values and the table of the links of its free slots. A function that accepts a container in
/// any storage has one parameter for it, `M: Storage<T>`.
pub trait Storage<T> {
    /// The table of values.
    type Items: Table<T>;

    /// The table of links.
    type Links: Table<Link>;
}

/// The storage of containers that are stored inline and have a capacity of `CAPACITY`.
pub struct Inline<const CAPACITY: usize>;

/// The storage of containers whose memory is allocated from `A` when they are made.
pub struct Heap<A: Allocator = Global> {
    of: PhantomData<A>,
}

impl<T: Drop, const CAPACITY: usize> Storage<T> for Inline<CAPACITY> {
    type Items = InlineTable<T, CAPACITY>;

    type Links = FilledInlineTable<Link, CAPACITY>;
}

impl<T: Drop, A: Allocator> Storage<T> for Heap<A> {
    type Items = HeapTable<T, A>;

    type Links = FilledHeapTable<Link, A>;
}

/// A table of values and a table of links, of any kind.
impl<T, S: Table<T>, L: Table<Link>> Storage<T> for (S, L) {
    type Items = S;

    type Links = L;
}
