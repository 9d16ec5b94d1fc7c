//! The commands of each container.
ghost use Rattle.std.specs.Prelude.{◌≡◌, ⊤};

use ix_slotmap::SlotMapKey;
use std::alloc::AllocError;

/// A command of a queue of `T`.
#[derive(Copy, PartialEq, Eq, Debug)]
pub enum QueueCommand<T> {
    /// `push X`: appends the element, unless the queue is full.
    Push(T),
    /// `over X`: appends the element, after removing the oldest one if the queue is full; at capacity 0 it returns X.
    Over(T),
    /// `pop`: removes the oldest element.
    Pop,
    /// `peek`: reads the oldest element.
    Peek,
    /// `set X`: overwrites the oldest element.
    Set(T),
    /// `at I`: reads the element at index I, counted from the oldest.
    At(usize),
    /// `clear`: removes all elements.
    Clear,
    /// `len`: the number of elements.
    Len,
    /// `capacity`: the maximum number of elements.
    Capacity,
    /// `empty`: whether there is no element.
    Empty,
    /// `full`: whether the length equals the capacity.
    Full,
}

impl<T: Copy> Clone for QueueCommand<T> {
    ghost is_clone = { λ command copy. copy ≡ command };

    ghost is_infallible = { λ _. ⊤ };

    fn clone(&self) -> Result<Self, AllocError> {
        Ok(*self)
    }
}

/// A command of a vector of `T`.
#[derive(Clone, Copy, PartialEq, Eq, Debug)]
pub enum VectorCommand<'a, T> {
    /// `push X`: appends the element.
    Push(T),
    /// `insert I X`: inserts the element at index I.
    Insert(usize, T),
    /// `extend X..`: appends the elements, if there is room for all.
    Extend(&'a [T]),
    /// `resize N X`: removes the elements from index N on, or appends copies of X up to length N.
    Resize(usize, T),
    /// `pop`: removes the last element.
    Pop,
    /// `remove I`: removes the element at index I.
    Remove(usize),
    /// `at I`: reads the element at index I.
    At(usize),
    /// `set I X`: overwrites the element at index I.
    Set(usize, T),
    /// `truncate N`: keeps the first N elements.
    Truncate(usize),
    /// `clear`: removes all elements.
    Clear,
    /// `len`: the number of elements.
    Len,
    /// `capacity`: the maximum number of elements.
    Capacity,
    /// `empty`: whether there is no element.
    Empty,
    /// `full`: whether the length equals the capacity.
    Full,
}

/// A command of a slot table of `T`.
#[derive(Copy, PartialEq, Eq, Debug)]
pub enum SlotTableCommand<T> {
    /// `insert X`: inserts the value at the next free key.
    Insert(T),
    /// `next`: the next free key.
    Next,
    /// `insert_at K X`: inserts the value at key K, or overwrites the value there.
    InsertAt(usize, T),
    /// `remove K`: removes the value at key K.
    Remove(usize),
    /// `get K`: reads the value at key K.
    Get(usize),
    /// `set K X`: overwrites the value at key K.
    Set(usize, T),
    /// `contains K`: whether key K has a value.
    Contains(usize),
    /// `from K`: the least key that has a value and is not below K, and the value.
    From(usize),
    /// `len`: the number of values.
    Len,
    /// `capacity`: the maximum number of values.
    Capacity,
    /// `empty`: whether there is no value.
    Empty,
    /// `full`: whether every key has a value.
    Full,
}

impl<T: Copy> Clone for SlotTableCommand<T> {
    ghost is_clone = { λ command copy. copy ≡ command };

    ghost is_infallible = { λ _. ⊤ };

    fn clone(&self) -> Result<Self, AllocError> {
        Ok(*self)
    }
}

/// A command of a slot map of `T`.
#[derive(Copy, PartialEq, Eq, Debug)]
pub enum SlotMapCommand<T> {
    /// `insert X`: inserts the value in the first free slot.
    Insert(T),
    /// `next`: the key that the next `insert` returns.
    Next,
    /// `insert_at I X`: inserts the value in slot I, or replaces the value there.
    InsertAt(usize, T),
    /// `remove I:G`: removes the key of index I and generation G, and its value.
    Remove(SlotMapKey),
    /// `get I:G`: reads the value of the key.
    Get(SlotMapKey),
    /// `set I:G X`: overwrites the value of the key.
    Set(SlotMapKey, T),
    /// `contains I:G`: whether the key has a value.
    Contains(SlotMapKey),
    /// `from I`: the held key of the least index that is not below I, and its value.
    From(usize),
    /// `retired`: the number of retired slots.
    Retired,
    /// `len`: the number of values.
    Len,
    /// `capacity`: the number of slots.
    Capacity,
    /// `empty`: whether there is no value.
    Empty,
    /// `full`: whether no slot is free.
    Full,
}

impl<T: Copy> Clone for SlotMapCommand<T> {
    ghost is_clone = { λ command copy. copy ≡ command };

    ghost is_infallible = { λ _. ⊤ };

    fn clone(&self) -> Result<Self, AllocError> {
        Ok(*self)
    }
}

/// A command of a map from `K` to `V`.
#[derive(Copy, PartialEq, Eq, Debug)]
pub enum MapCommand<K, V> {
    /// `insert K V`: inserts the value at key K, unless the map has the key.
    Insert(K, V),
    /// `get K`: reads the value at key K.
    Get(K),
    /// `set K V`: overwrites the value at key K.
    Set(K, V),
    /// `remove K`: removes the key and its value.
    Remove(K),
    /// `contains K`: whether the map has the key.
    Contains(K),
    /// `key N`: the key that is listed after N others.
    Key(usize),
    /// `len`: the number of keys.
    Len,
    /// `empty`: whether there is no key.
    Empty,
    /// `full`: whether there is no room for another key.
    Full,
}

impl<K: Copy, V: Copy> Clone for MapCommand<K, V> {
    ghost is_clone = { λ command copy. copy ≡ command };

    ghost is_infallible = { λ _. ⊤ };

    fn clone(&self) -> Result<Self, AllocError> {
        Ok(*self)
    }
}

/// A command of a string.
#[derive(Clone, Copy, PartialEq, Eq, Debug)]
pub enum StringCommand<'a> {
    /// `push B`: appends the byte.
    Push(u8),
    /// `append B..`: appends the bytes.
    Append(&'a [u8]),
    /// `insert I B`: inserts the byte at index I.
    Insert(usize, u8),
    /// `insert_bytes I B..`: inserts the bytes at index I.
    InsertBytes(usize, &'a [u8]),
    /// `pop`: removes the last byte.
    Pop,
    /// `remove I`: removes the byte at index I.
    Remove(usize),
    /// `remove_range I N`: removes the N bytes from index I on.
    RemoveRange(usize, usize),
    /// `find B..`: the least index at which the bytes occur.
    Find(&'a [u8]),
    /// `rfind B..`: the greatest index at which the bytes occur.
    Rfind(&'a [u8]),
    /// `strip_prefix B..`: removes the bytes from the start.
    StripPrefix(&'a [u8]),
    /// `strip_suffix B..`: removes the bytes from the end.
    StripSuffix(&'a [u8]),
    /// `drop B`: removes each byte that equals B.
    Drop(u8),
    /// `at I`: reads the byte at index I.
    At(usize),
    /// `truncate N`: keeps the first N bytes.
    Truncate(usize),
    /// `clear`: removes all bytes.
    Clear,
    /// `len`: the number of bytes.
    Len,
    /// `capacity`: the maximum number of bytes.
    Capacity,
    /// `empty`: whether there is no byte.
    Empty,
    /// `full`: whether the length equals the capacity.
    Full,
}
