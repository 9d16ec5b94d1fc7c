//! Turns of the ring before a test: the front element then lies in another slot.
use crate::rows::Row;
use ix_commands::QueueCommand::{Pop, Push};
use ix_commands::Reply::{Bool, Value};

const PUSH: Row<u64> = (Push(0), Bool(true));

const POP: Row<u64> = (Pop, Value(0));

/// Commands of an empty queue, after which it is empty and its next elements lie further on; and a name.
pub type Turn<'a> = (&'a [Row<u64>], &'a str);

pub const TURNS: &[Turn] = &[
    (&[], "not turned"),
    (&[PUSH, POP], "turned by one"),
    (&[PUSH, POP, PUSH, POP], "turned by two"),
    (&[PUSH, POP, PUSH, POP, PUSH, POP], "turned by three"),
];
