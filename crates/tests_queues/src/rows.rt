//! Commands of queues and the replies to them, run on a queue of each kind.
ghost use Rattle.std.specs.Prelude.{◌≤◌};

use crate::own_table::CountedPuts;
use ix_commands::{QueueCommand, Reply};
use ix_queue::{FixedSizeQueue, MetaQueue, Queue};
use ix_tables::InlineTable;
use std::alloc::Allocator;
use test_support::{Findings, check_tables, made};

/// A command of a queue and the reply to it.
pub type Row<T> = (QueueCommand<T>, Reply<usize, T>);

/// Runs the rows of each table in turn on one queue of each kind. One of them is allocated from `alloc`.
pub fn check_kinds<A: Allocator + Copy, const CAPACITY: usize>(
    findings: &Findings,
    alloc: A,
    tables: &[&[Row<u64>]],
    place: &str,
)
    requires { CAPACITY ≤ 3 }
{
    let fixed = made(FixedSizeQueue::<u64, CAPACITY>::new());
    check_tables(findings, fixed, tables, place);
    let own = CountedPuts::new(InlineTable::<u64, CAPACITY>::new());
    check_tables(findings, made(MetaQueue::from_table(own)), tables, place);
    check_tables(findings, Queue::new(alloc, CAPACITY), tables, place);
}
