//! Lines of a script for a queue.
use crate::run::containers::making::{MakesIn, MakesInline, Named};
use crate::run::containers::served::Served;
use crate::run::devices::ReplyWriter;
use crate::run::replies::append_items;
use crate::run::{Reply, Runs, ScriptFault, read_queue_command};
use ix_queue::{FixedSizeQueue, MetaQueue, RelocatableQueue, UninitQueue};
use ix_tables::{RelocatableContainer, Table};
use std::alloc::Allocator;
use std::io::Write;

impl<S: Table<u64>> Served for MetaQueue<u64, S> {
    ghost use Rattle.std.specs.Prelude.{ℕ};
    ghost use Rattle.ix_tables.specs.Bounded.{Bounded};
    ghost use Rattle.ix_commands.specs.QueueRun.{queue_reply, queue_after};
    ghost use Rattle.ix_run.specs.Forms.{queue_forms};
    ghost use Rattle.ix_run.specs.Script.{spelled_reply, spelled_after, list_shown};

    type Key = usize;

    ghost Model = { Bounded ℕ };

    ghost model = { λ queue. queue };

    ghost reply = { spelled_reply queue_forms queue_reply };

    ghost after = { spelled_after queue_forms queue_after };

    ghost shown = { list_shown };

    #[inline(always)]
    fn run_line(&mut self, line: &[u8]) -> Option<Reply<usize, u64>> {
        let command = read_queue_command(line)?;
        Some(self.run_command(command))
    }

    fn show<W: Write>(&self, replies: &mut ReplyWriter<'_, W>) -> Result<(), ScriptFault> {
        append_items(replies, self.iter())
    }
}

/// The queues that headers name.
#[derive(Drop)]
pub(crate) struct Queues;

impl Named for Queues {
    ghost use Rattle.ix_run.specs.declared.run.grammar.header.Container.TheVariants as container;

    ghost container = { λ maker. container.Queue };
}

impl<const N: usize> MakesInline<N> for Queues {
    type Inline = FixedSizeQueue<u64, N>;

    fn inline(self) -> FixedSizeQueue<u64, N> {
        FixedSizeQueue::new()
    }
}

impl<A: Allocator> MakesIn<A> for Queues {
    type Made = RelocatableQueue<u64, A>;

    fn make(self, alloc: A, capacity: usize) -> Option<RelocatableQueue<u64, A>> {
        UninitQueue::new_uninit(capacity).init(alloc).ok()
    }
}
