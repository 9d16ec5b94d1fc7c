//! Worked examples: commands of an empty map, and the replies to them.
use ix_commands::Reply::{self, Bool, Key, Number, Value};
use ix_commands::SlotTableCommand::{
    self, Capacity, Contains, Empty, Full, Get, Insert, InsertAt, Len, Next, Remove, Set,
};

/// A command of a slot table and the reply to it.
pub type Row<T> = (SlotTableCommand<T>, Reply<usize, T>);

/// On a map with three keys.
pub const REMOVED_KEY_IS_FIRST: &[Row<char>] = &[
    (Insert('a'), Key(0)),
    (Insert('b'), Key(1)),
    (Remove(0), Value('a')),
    (Next, Key(0)),
    (Insert('c'), Key(0)),
    (InsertAt(2, 'd'), Bool(true)),
    (Insert('e'), Reply::None),
];

/// On a map with three keys.
pub const FIRST_KEY_INSERTED: &[Row<char>] = &[
    (InsertAt(0, 'a'), Bool(true)),
    (Next, Key(1)),
    (Insert('b'), Key(1)),
    (Get(0), Value('a')),
];

/// On a map with four keys.
pub const MIDDLE_KEY_INSERTED: &[Row<char>] = &[
    (InsertAt(2, 'x'), Bool(true)),
    (Insert('a'), Key(0)),
    (Insert('b'), Key(1)),
    (Insert('c'), Key(3)),
    (Insert('d'), Reply::None),
];

/// On a map with three keys.
pub const VALUE_REPLACED: &[Row<char>] = &[
    (Insert('a'), Key(0)),
    (InsertAt(0, 'b'), Bool(true)),
    (Remove(0), Value('b')),
    (Insert('c'), Key(0)),
    (Insert('d'), Key(1)),
    (Insert('e'), Key(2)),
    (Insert('f'), Reply::None),
];

/// On a map with three keys.
pub const KEYS_AFTER_THE_FIRST: &[Row<char>] = &[
    (Insert('a'), Key(0)),
    (Insert('b'), Key(1)),
    (Remove(0), Value('a')),
    (InsertAt(1, 'c'), Bool(true)),
    (InsertAt(2, 'd'), Bool(true)),
    (Insert('e'), Key(0)),
    (Insert('f'), Reply::None),
];

/// On a map with one key.
pub const ONE_KEY: &[Row<char>] = &[
    (Next, Key(0)),
    (Insert('a'), Key(0)),
    (Full, Bool(true)),
    (Next, Reply::None),
    (Insert('b'), Reply::None),
    (InsertAt(0, 'c'), Bool(true)),
    (InsertAt(1, 'd'), Bool(false)),
    (Contains(0), Bool(true)),
    (Contains(1), Bool(false)),
    (Get(0), Value('c')),
    (Set(0, 'e'), Bool(true)),
    (Len, Number(1)),
    (Remove(0), Value('e')),
    (Empty, Bool(true)),
    (Get(0), Reply::None),
    (Capacity, Number(1)),
];

/// On a map with no key.
pub const NO_KEY: &[Row<char>] = &[
    (Next, Reply::None),
    (Insert('x'), Reply::None),
    (Contains(0), Bool(false)),
    (Get(0), Reply::None),
    (InsertAt(0, 'x'), Bool(false)),
    (Remove(0), Reply::None),
    (Get(0), Reply::None),
    (Set(0, 'x'), Bool(false)),
    (Full, Bool(true)),
    (Empty, Bool(true)),
    (Capacity, Number(0)),
    (Len, Number(0)),
];

/// The greatest number.
const GREATEST: usize = 18_446_744_073_709_551_615;

/// On a map with two keys.
pub const KEYS_OUT_OF_RANGE: &[Row<char>] = &[
    (Contains(2), Bool(false)),
    (Get(2), Reply::None),
    (Get(2), Reply::None),
    (Set(2, 'x'), Bool(false)),
    (Remove(2), Reply::None),
    (InsertAt(2, 'x'), Bool(false)),
    (Contains(GREATEST), Bool(false)),
    (Get(GREATEST), Reply::None),
    (Get(GREATEST), Reply::None),
    (Set(GREATEST, 'x'), Bool(false)),
    (Remove(GREATEST), Reply::None),
    (InsertAt(GREATEST, 'x'), Bool(false)),
    (Insert('a'), Key(0)),
    (Insert('b'), Key(1)),
    (Full, Bool(true)),
];

/// On a map with two keys: every command that an example can have.
pub const EVERY_CALL: &[Row<char>] = &[
    (Capacity, Number(2)),
    (Len, Number(0)),
    (Empty, Bool(true)),
    (Full, Bool(false)),
    (InsertAt(1, 'a'), Bool(true)),
    (Len, Number(1)),
    (Empty, Bool(false)),
    (Next, Key(0)),
    (Contains(0), Bool(false)),
    (Contains(1), Bool(true)),
    (Get(0), Reply::None),
    (Get(1), Value('a')),
    (Insert('b'), Key(0)),
    (Full, Bool(true)),
    (Next, Reply::None),
    (Get(1), Value('a')),
    (Set(1, 'c'), Bool(true)),
    (Get(0), Value('b')),
    (Remove(1), Value('c')),
    (Remove(1), Reply::None),
    (Len, Number(1)),
];

/// On a map with three keys, whose values have size zero.
pub const SIZE_ZERO: &[Row<()>] = &[
    (Insert(()), Key(0)),
    (InsertAt(2, ()), Bool(true)),
    (InsertAt(2, ()), Bool(true)),
    (Len, Number(2)),
    (Insert(()), Key(1)),
    (Insert(()), Reply::None),
    (Remove(2), Value(())),
    (Remove(2), Reply::None),
    (Next, Key(2)),
];

/// On a map with three keys.
pub const REMOVED_KEY_IS_NEXT: &[Row<char>] = &[
    (Insert('a'), Key(0)),
    (InsertAt(2, 'b'), Bool(true)),
    (Remove(0), Value('a')),
    (Next, Key(0)),
];
