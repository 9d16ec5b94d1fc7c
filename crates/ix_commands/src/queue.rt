//! Commands of queues.
ghost use Rattle.std.specs.Prelude.{◌≡◌, ◌<◌, [], length, nat_lt, slice_get, IsOk, IfOk, OnOk, OnErr};
ghost use Rattle.ix_queue.specs.QueueSteps.{queue_set_front};
ghost use Rattle.ix_commands.specs.QueueRun.{queue_reply, queue_after};
ghost use Rattle.ix_commands.specs.Run.{run_replies, run_state};

use crate::reply::reply_of_option;
use crate::{QueueCommand, Reply, Runs, run_all};
use ix_queue::MetaQueue;
use ix_tables::Table;
use std::alloc::{AllocError, Global};

/// The commands of a queue, of any kind. `clear` takes O(`len()`), each other one O(1).
impl<T: Copy, S: Table<T>> Runs<QueueCommand<T>> for MetaQueue<T, S> {
    ghost use Rattle.ix_tables.specs.Bounded.{Bounded};
    ghost use Rattle.ix_commands.specs.QueueRun.{queue_reply, queue_after};

    type Reply = Reply<usize, T>;

    ghost Model = { Bounded T };

    ghost model = { λ queue. queue };

    ghost reply = { queue_reply };

    ghost after = { queue_after };

    #[inline]
    fn run_command(&mut self, command: QueueCommand<T>) -> Reply<usize, T> {
        match command {
            QueueCommand::Push(item) => Reply::Bool(self.push(item)),
            QueueCommand::Over(item) => reply_of_option(self.push_with_overflow(item)),
            QueueCommand::Pop => reply_of_option(self.pop()),
            QueueCommand::Peek => reply_of_option(self.peek().copied()),
            QueueCommand::Set(item) => Reply::Bool(overwrite_front(self, item)),
            QueueCommand::At(index) => reply_of_option(item_at(self, index)),
            QueueCommand::Clear => {
                self.clear();
                Reply::Done
            }
            QueueCommand::Len => Reply::Number(self.len()),
            QueueCommand::Capacity => Reply::Number(self.capacity()),
            QueueCommand::Empty => Reply::Bool(self.is_empty()),
            QueueCommand::Full => Reply::Bool(self.is_full()),
        }
    }
}

/// Runs the commands on a queue of any kind, in order, and returns the replies to them. Allocates the list of replies from
/// `alloc` before the first command. O(`commands.len()`) beside the calls of the queue.
///
/// Returns `AllocError` if the allocation of the list fails. Then no command was run.
pub fn run_queue<T: Copy, S: Table<T>>(
    alloc: Global,
    queue: &mut MetaQueue<T, S>,
    commands: &[QueueCommand<T>],
) -> Result<Vec<Reply<usize, T>>, AllocError>
    ensures value { IfOk result
        (λ replies. replies.items ≡ run_replies queue_reply queue_after queue.old commands.now) }
    ensures queue { OnOk result (queue.new ≡ run_state queue_after queue.old commands.now) }
    ensures refused { OnErr result (queue.new ≡ queue.old) }
    ensures memory { commands.now ≡ [] → IsOk result }
{
    run_all(alloc, queue, commands)
}

/// Overwrites the oldest element and returns `true`, or returns `false` if there is none.
fn overwrite_front<T: Copy, S: Table<T>>(queue: &mut MetaQueue<T, S>, item: T) -> bool
    ensures value { result ≡ nat_lt 0 (length queue.old.items) }
    ensures queue { queue.new ≡ queue_set_front queue.old item }
{
    match queue.peek_mut() {
        Some(oldest) => {
            *oldest = item;
            true
        }
        None => false,
    }
}

/// Returns the element at `index`, counted from the oldest.
fn item_at<T: Copy, S: Table<T>>(queue: &MetaQueue<T, S>, index: usize) -> Option<T>
    ensures { result ≡ slice_get queue.now.items index }
{
    if index < queue.len() {
        return Some(queue.get(index));
    }
    None
}
