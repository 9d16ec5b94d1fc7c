//! Worked examples: commands of an empty map, and the replies to them.
use crate::caseless::Caseless;
use crate::keys::{Letter, Port, caseless_of, port_of, text};
use ix_commands::MapCommand::{
    self, Contains, Empty, Full, Get, Insert, Key as KeyAt, Len, Remove, Set,
};
use ix_commands::Reply::{self, Bool, Done, Error, Key, Number, Value};
use ix_commands::ReplyError::{IsFull, KeyAlreadyExists};
use ix_string::StaticString;

/// A command of a flat map and the reply to it.
pub type Row<K, V> = (MapCommand<K, V>, Reply<K, V>);

/// An example with numbers as keys and as values.
pub type Example = &'static [Row<u64, u64>];

/// On a map of 1. The full map returns an error for a key that it has, and not the error of a full map.
pub const HELD_BEFORE_FULL: Example = &[
    (Insert(1, 2), Done),
    (Insert(1, 3), Error(KeyAlreadyExists)),
    (Insert(2, 4), Error(IsFull)),
    (Get(1), Value(2)),
    (Full, Bool(true)),
    (Get(1), Value(2)),
    (Set(1, 5), Bool(true)),
    (KeyAt(0), Key(1)),
    (KeyAt(1), Reply::None),
    (Remove(2), Reply::None),
    (Remove(1), Value(5)),
    (Empty, Bool(true)),
    (Insert(2, 4), Done),
    (Contains(1), Bool(false)),
    (Get(2), Value(4)),
];

/// On a map of 3. A key that is inserted after a removal gets the slot of the removed one.
pub const SLOT_ORDER: Example = &[
    (Insert(5, 50), Done),
    (Insert(6, 60), Done),
    (Remove(5), Value(50)),
    (Insert(7, 70), Done),
    (KeyAt(0), Key(7)),
    (KeyAt(1), Key(6)),
    (KeyAt(2), Reply::None),
];

/// On a map of 2.
pub const VALUE_WRITTEN: Example = &[
    (Insert(1, 10), Done),
    (Get(1), Value(10)),
    (Set(1, 11), Bool(true)),
    (Get(1), Value(11)),
    (Remove(1), Value(11)),
    (Get(1), Reply::None),
    (Len, Number(0)),
];

/// On a map of 3. Keys are listed one by one, up to each of them.
pub const LISTINGS: Example = &[
    (KeyAt(0), Reply::None),
    (Insert(7, 1), Done),
    (KeyAt(0), Key(7)),
    (KeyAt(1), Reply::None),
    (Insert(9, 2), Done),
    (Insert(8, 3), Done),
    (KeyAt(0), Key(7)),
    (KeyAt(1), Key(9)),
    (KeyAt(2), Key(8)),
    (KeyAt(3), Reply::None),
    (Remove(9), Value(2)),
    (KeyAt(0), Key(7)),
    (KeyAt(1), Key(8)),
    (Remove(7), Value(1)),
    (KeyAt(0), Key(8)),
];

/// On a map of 3. The slot that was vacated last is filled first.
pub const LAST_REMOVED_FIRST: Example = &[
    (Insert(1, 10), Done),
    (Insert(2, 20), Done),
    (Insert(3, 30), Done),
    (Remove(1), Value(10)),
    (Remove(3), Value(30)),
    (Insert(4, 40), Done),
    (KeyAt(0), Key(2)),
    (KeyAt(1), Key(4)),
    (KeyAt(2), Reply::None),
    (Insert(1, 11), Done),
    (KeyAt(0), Key(1)),
    (KeyAt(1), Key(2)),
    (KeyAt(2), Key(4)),
    (KeyAt(3), Reply::None),
    (Get(1), Value(11)),
    (Get(3), Reply::None),
];

/// On a map of 2: every command, on keys that the map has and on others.
pub const EVERY_CALL: Example = &[
    (Len, Number(0)),
    (Empty, Bool(true)),
    (Full, Bool(false)),
    (Contains(1), Bool(false)),
    (Get(1), Reply::None),
    (Set(1, 9), Bool(false)),
    (Remove(1), Reply::None),
    (Insert(1, 10), Done),
    (Len, Number(1)),
    (Empty, Bool(false)),
    (Full, Bool(false)),
    (Insert(1, 11), Error(KeyAlreadyExists)),
    (Insert(2, 20), Done),
    (Len, Number(2)),
    (Full, Bool(true)),
    (Contains(1), Bool(true)),
    (Contains(2), Bool(true)),
    (Contains(3), Bool(false)),
    (Get(2), Value(20)),
    (Get(3), Reply::None),
    (Get(1), Value(10)),
    (Get(3), Reply::None),
    (Get(2), Value(20)),
    (Set(2, 21), Bool(true)),
    (Get(3), Reply::None),
    (Set(3, 31), Bool(false)),
    (Get(1), Value(10)),
    (Remove(3), Reply::None),
    (Remove(2), Value(21)),
    (Remove(2), Reply::None),
    (Len, Number(1)),
    (Full, Bool(false)),
    (KeyAt(0), Key(1)),
    (KeyAt(1), Reply::None),
];

/// On a map of 0.
pub const NO_PLACE: Example = &[
    (Empty, Bool(true)),
    (Full, Bool(true)),
    (Len, Number(0)),
    (Insert(1, 2), Error(IsFull)),
    (Insert(1, 2), Error(IsFull)),
    (Get(1), Reply::None),
    (Set(1, 3), Bool(false)),
    (Remove(1), Reply::None),
    (Contains(1), Bool(false)),
    (KeyAt(0), Reply::None),
    (Empty, Bool(true)),
    (Full, Bool(true)),
];

/// On a map of 4, whose keys can all have one bucket: the last, the first and a middle one of a chain are removed.
pub const CHAIN: Example = &[
    (Insert(1, 10), Done),
    (Insert(2, 20), Done),
    (Insert(3, 30), Done),
    (Insert(4, 40), Done),
    (Remove(2), Value(20)),
    (Get(1), Value(10)),
    (Get(2), Reply::None),
    (Get(3), Value(30)),
    (Get(4), Value(40)),
    (Remove(4), Value(40)),
    (Get(1), Value(10)),
    (Get(3), Value(30)),
    (Insert(5, 50), Done),
    (Insert(6, 60), Done),
    (Insert(7, 70), Error(IsFull)),
    (Remove(1), Value(10)),
    (Get(3), Value(30)),
    (Get(5), Value(50)),
    (Get(6), Value(60)),
    (Remove(3), Value(30)),
    (Remove(5), Value(50)),
    (Contains(6), Bool(true)),
    (Remove(6), Value(60)),
    (Empty, Bool(true)),
    (Insert(6, 61), Done),
    (Get(6), Value(61)),
];

fn letter(byte: u8) -> Letter {
    Letter { byte }
}

/// On a map of 2, with letters of either case as keys.
pub fn letters() -> [Row<Letter, u64>; 12] {
    [
        (Insert(letter(b'a'), 1), Done),
        (Insert(letter(b'A'), 2), Error(KeyAlreadyExists)),
        (Insert(letter(b'B'), 3), Done),
        (Insert(letter(b'b'), 4), Error(KeyAlreadyExists)),
        (Insert(letter(b'c'), 5), Error(IsFull)),
        (Get(letter(b'A')), Value(1)),
        (Get(letter(b'b')), Value(3)),
        (Contains(letter(b'C')), Bool(false)),
        (Set(letter(b'A'), 6), Bool(true)),
        (Remove(letter(b'A')), Value(6)),
        (Contains(letter(b'a')), Bool(false)),
        (KeyAt(0), Key(letter(b'B'))),
    ]
}

/// On a map of 2, with keys that ignore the case of letters.
pub fn case_ignored() -> [Row<Caseless, u64>; 16] {
    [
        (Insert(caseless_of("Ab"), 1), Done),
        (Insert(caseless_of("aB"), 2), Error(KeyAlreadyExists)),
        (Insert(caseless_of("c"), 3), Done),
        (Insert(caseless_of("AB"), 4), Error(KeyAlreadyExists)),
        (Insert(caseless_of("d"), 5), Error(IsFull)),
        (KeyAt(0), Key(caseless_of("Ab"))),
        (KeyAt(1), Key(caseless_of("c"))),
        (KeyAt(2), Reply::None),
        (Get(caseless_of("aB")), Value(1)),
        (Contains(caseless_of("C")), Bool(true)),
        (Contains(caseless_of("D")), Bool(false)),
        (Get(caseless_of("AB")), Value(1)),
        (Set(caseless_of("AB"), 6), Bool(true)),
        (Remove(caseless_of("ab")), Value(6)),
        (KeyAt(0), Key(caseless_of("c"))),
        (KeyAt(1), Reply::None),
    ]
}

/// On a map of 2, with strings as keys: a string is not equal to its beginning, nor to one in other case.
pub fn texts() -> [Row<StaticString<16>, char>; 11] {
    [
        (Insert(text("ab"), 'x'), Done),
        (Contains(text("a")), Bool(false)),
        (Contains(text("abc")), Bool(false)),
        (Contains(text("AB")), Bool(false)),
        (Insert(text(""), 'y'), Done),
        (Insert(text("ab"), 'z'), Error(KeyAlreadyExists)),
        (Get(text("ab")), Value('x')),
        (Remove(text("ab")), Value('x')),
        (Get(text("")), Value('y')),
        (KeyAt(0), Key(text(""))),
        (KeyAt(1), Reply::None),
    ]
}

/// On a map of 3, with keys of two parts.
pub fn ports() -> [Row<Port, u64>; 8] {
    [
        (Insert(port_of(80, true), 1), Done),
        (Insert(port_of(80, false), 2), Done),
        (Insert(port_of(443, true), 3), Done),
        (Insert(port_of(80, true), 4), Error(KeyAlreadyExists)),
        (Get(port_of(80, false)), Value(2)),
        (Get(port_of(443, false)), Reply::None),
        (Remove(port_of(80, true)), Value(1)),
        (KeyAt(0), Key(port_of(80, false))),
    ]
}

/// On a map of 3, whose values have size zero.
pub const UNIT_VALUES: &[Row<u64, ()>] = &[
    (Insert(7, ()), Done),
    (Insert(9, ()), Done),
    (Insert(7, ()), Error(KeyAlreadyExists)),
    (Insert(8, ()), Done),
    (Insert(6, ()), Error(IsFull)),
    (Get(8), Value(())),
    (Get(9), Value(())),
    (Set(9, ()), Bool(true)),
    (Remove(9), Value(())),
    (Get(9), Reply::None),
    (KeyAt(0), Key(7)),
    (KeyAt(1), Key(8)),
    (KeyAt(2), Reply::None),
    (Insert(6, ()), Done),
    (KeyAt(0), Key(7)),
    (KeyAt(1), Key(6)),
    (KeyAt(2), Key(8)),
    (KeyAt(3), Reply::None),
];

/// On a map of 2, whose keys and values have size zero: there is only one key.
pub const SIZE_ZERO: &[Row<(), ()>] = &[
    (Contains(()), Bool(false)),
    (Insert((), ()), Done),
    (Insert((), ()), Error(KeyAlreadyExists)),
    (Len, Number(1)),
    (Full, Bool(false)),
    (Get(()), Value(())),
    (KeyAt(0), Key(())),
    (KeyAt(1), Reply::None),
    (Remove(()), Value(())),
    (Remove(()), Reply::None),
    (Empty, Bool(true)),
];
