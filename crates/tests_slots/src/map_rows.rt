//! Worked examples: commands of an empty map, and the replies to them.
use crate::containers::{LAST, key};
use ix_commands::Reply::{self, Bool, Entry, Key, Number, Value};
use ix_commands::SlotMapCommand::{
    self, Capacity, Contains, Empty, From, Full, Get, Insert, InsertAt, Len, Next, Remove, Retired,
    Set,
};
use ix_slotmap::SlotMapKey;

/// A command of a slot map and the reply to it.
pub type Row<T> = (SlotMapCommand<T>, Reply<SlotMapKey, T>);

/// The greatest index.
const GREATEST: usize = 18_446_744_073_709_551_615;

/// On a map with two slots that start at the greatest generation.
pub fn place_retired() -> [Row<u64>; 18] {
    [
        (Insert(7), Key(key(0, LAST))),
        (Remove(key(0, LAST)), Value(7)),
        (Remove(key(0, LAST)), Reply::None),
        (Insert(8), Key(key(1, LAST))),
        (Insert(9), Reply::None),
        (Retired, Number(1)),
        (Full, Bool(true)),
        (Empty, Bool(false)),
        (Len, Number(1)),
        (Capacity, Number(2)),
        (Next, Reply::None),
        (From(0), Entry(key(1, LAST), 8)),
        (From(2), Reply::None),
        (InsertAt(0, 5), Reply::None),
        (InsertAt(1, 5), Reply::None),
        (Get(key(1, LAST)), Value(8)),
        (Contains(key(0, LAST)), Bool(false)),
        (Contains(key(0, 0)), Bool(false)),
    ]
}

/// On a map with three slots that start at generation 0.
pub fn dead_keys() -> [Row<u64>; 13] {
    [
        (Insert(10), Key(key(0, 0))),
        (Remove(key(0, 0)), Value(10)),
        (Insert(20), Key(key(0, 1))),
        (Get(key(0, 0)), Reply::None),
        (Get(key(0, 1)), Value(20)),
        (InsertAt(0, 30), Key(key(0, 2))),
        (Get(key(0, 1)), Reply::None),
        (Len, Number(1)),
        (Remove(key(0, 1)), Reply::None),
        (Remove(key(0, 2)), Value(30)),
        (Next, Key(key(0, 3))),
        (From(0), Reply::None),
        (Retired, Number(0)),
    ]
}

/// On a map with no slot.
pub fn no_place() -> [Row<u64>; 13] {
    [
        (Next, Reply::None),
        (Insert(1), Reply::None),
        (Get(key(0, 0)), Reply::None),
        (InsertAt(0, 1), Reply::None),
        (Remove(key(0, 0)), Reply::None),
        (Get(key(0, 0)), Reply::None),
        (Set(key(0, 0), 1), Bool(false)),
        (Full, Bool(true)),
        (Empty, Bool(true)),
        (Retired, Number(0)),
        (Capacity, Number(0)),
        (Len, Number(0)),
        (From(0), Reply::None),
    ]
}

/// On a map with two slots that start at generation 0.
pub fn no_such_keys() -> [Row<u64>; 21] {
    [
        (InsertAt(0, 1), Key(key(0, 0))),
        (Contains(key(2, 0)), Bool(false)),
        (Get(key(2, 0)), Reply::None),
        (Get(key(2, 0)), Reply::None),
        (Set(key(2, 0), 4), Bool(false)),
        (Remove(key(2, 0)), Reply::None),
        (InsertAt(2, 4), Reply::None),
        (Contains(key(GREATEST, 0)), Bool(false)),
        (Get(key(GREATEST, 0)), Reply::None),
        (Get(key(GREATEST, 0)), Reply::None),
        (Set(key(GREATEST, 0), 4), Bool(false)),
        (Remove(key(GREATEST, 0)), Reply::None),
        (InsertAt(GREATEST, 4), Reply::None),
        (Contains(key(0, LAST)), Bool(false)),
        (Get(key(0, LAST)), Reply::None),
        (Get(key(0, LAST)), Reply::None),
        (Set(key(0, LAST), 4), Bool(false)),
        (Remove(key(0, LAST)), Reply::None),
        (Contains(key(1, 0)), Bool(false)),
        (Get(key(0, 0)), Value(1)),
        (Len, Number(1)),
    ]
}

/// On a map with three slots that start at generation 0.
pub fn each_place() -> [Row<u64>; 14] {
    [
        (Full, Bool(false)),
        (InsertAt(2, 4), Key(key(2, 0))),
        (Next, Key(key(0, 0))),
        (Insert(5), Key(key(0, 0))),
        (Insert(6), Key(key(1, 0))),
        (Insert(7), Reply::None),
        (Get(key(2, 0)), Value(4)),
        (Set(key(2, 0), 9), Bool(true)),
        (Get(key(2, 0)), Value(9)),
        (Full, Bool(true)),
        (From(0), Entry(key(0, 0), 5)),
        (From(1), Entry(key(1, 0), 6)),
        (From(2), Entry(key(2, 0), 9)),
        (From(3), Reply::None),
    ]
}

/// On a map with one slot that starts at generation 0.
pub fn one_place() -> [Row<u64>; 10] {
    [
        (Next, Key(key(0, 0))),
        (Insert(1), Key(key(0, 0))),
        (Full, Bool(true)),
        (Insert(2), Reply::None),
        (InsertAt(0, 3), Key(key(0, 1))),
        (InsertAt(1, 4), Reply::None),
        (Contains(key(0, 0)), Bool(false)),
        (Remove(key(0, 1)), Value(3)),
        (Empty, Bool(true)),
        (Insert(5), Key(key(0, 2))),
    ]
}

/// On a map with three slots that start one below the greatest generation, whose values have size zero.
pub fn size_zero() -> [Row<()>; 12] {
    [
        (Insert(()), Key(key(0, 4_294_967_294))),
        (InsertAt(2, ()), Key(key(2, 4_294_967_294))),
        (InsertAt(2, ()), Key(key(2, LAST))),
        (InsertAt(2, ()), Reply::None),
        (Len, Number(2)),
        (From(1), Entry(key(2, LAST), ())),
        (Remove(key(2, LAST)), Value(())),
        (Retired, Number(1)),
        (Insert(()), Key(key(1, 4_294_967_294))),
        (Insert(()), Reply::None),
        (Remove(key(0, 4_294_967_294)), Value(())),
        (Next, Key(key(0, LAST))),
    ]
}
