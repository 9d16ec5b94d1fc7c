//! Commands of vectors.
ghost use Rattle.std.specs.Prelude.{◌≡◌, [], length, set, slice_get, nat_lt, nat_le, if◌then◌else◌, IsOk, IfOk, OnOk, OnErr};
ghost use Rattle.ix_tables.specs.Bounded.{Bounded, with_items};
ghost use Rattle.ix_vector.specs.VectorSteps.{vec_extend, vec_resize, vec_resize_result};
ghost use Rattle.ix_commands.specs.Replies.{option_reply, result_reply, vector_reply_error};
ghost use Rattle.ix_commands.specs.Run.{run_replies, run_state};
ghost use Rattle.ix_commands.specs.VectorRun.{vec_extend_result, vector_reply, vector_after};

use crate::reply::reply_of_option;
use crate::{Reply, ReplyError, Runs, VectorCommand, run_all};
use ix_vector::{Vector, VectorModificationError};
use std::alloc::{AllocError, Global};

/// The commands of a vector, of any kind.
impl<'a, T: Copy, V: Vector<T>> Runs<VectorCommand<'a, T>> for V {
    ghost use Rattle.ix_tables.specs.Bounded.{Bounded};
    ghost use Rattle.ix_commands.specs.VectorRun.{vector_reply, vector_after};

    type Reply = Reply<usize, T>;

    ghost Model = { Bounded T };

    ghost model = { V.bounded };

    ghost reply = { vector_reply };

    ghost after = { vector_after };

    fn run_command(&mut self, command: VectorCommand<'a, T>) -> Reply<usize, T> {
        match command {
            VectorCommand::Push(item) => reply_of_result(self.push(item)),
            VectorCommand::Insert(index, item) => reply_of_result(self.insert(index, item)),
            VectorCommand::Extend(items) => reply_of_result(extend_by_copies(self, items)),
            VectorCommand::Resize(n, item) => reply_of_result(resize_by_copies(self, n, item)),
            VectorCommand::Pop => reply_of_option(self.pop()),
            VectorCommand::Remove(index) => reply_of_option(self.remove(index)),
            VectorCommand::At(index) => reply_of_option(item_at(self, index)),
            VectorCommand::Set(index, item) => Reply::Bool(overwrite(self, index, item)),
            VectorCommand::Truncate(n) => {
                self.truncate(n);
                Reply::Done
            }
            VectorCommand::Clear => {
                self.clear();
                Reply::Done
            }
            VectorCommand::Len => Reply::Number(self.len()),
            VectorCommand::Capacity => Reply::Number(self.capacity()),
            VectorCommand::Empty => Reply::Bool(self.is_empty()),
            VectorCommand::Full => Reply::Bool(self.is_full()),
        }
    }
}

/// Runs the commands on a vector of any kind, in order, and returns the replies to them. Allocates the list of replies
/// from `alloc` before the first command. O(`commands.len()`) beside the calls of the vector.
///
/// Returns `AllocError` if the allocation of the list fails. Then no command was run.
pub fn run_vector<T: Copy, V: Vector<T>>(
    alloc: Global,
    vector: &mut V,
    commands: &[VectorCommand<'_, T>],
) -> Result<Vec<Reply<usize, T>>, AllocError>
    ensures value { IfOk result (λ replies. replies.items
        ≡ run_replies vector_reply vector_after (V.bounded vector.old) commands.now) }
    ensures vector { OnOk result
        (V.bounded vector.new ≡ run_state vector_after (V.bounded vector.old) commands.now) }
    ensures refused { OnErr result (vector.new ≡ vector.old) }
    ensures memory { commands.now ≡ [] → IsOk result }
{
    run_all(alloc, vector, commands)
}

/// Returns the result of a change as a reply.
#[inline]
fn reply_of_result<T: Copy>(outcome: Result<(), VectorModificationError>) -> Reply<usize, T>
    ensures { result ≡ result_reply vector_reply_error outcome }
{
    match outcome {
        Ok(()) => Reply::Done,
        Err(VectorModificationError::OutOfBounds) => Reply::Error(ReplyError::OutOfBounds),
        Err(_) => Reply::Error(ReplyError::InsertWouldExceedCapacity),
    }
}

/// Appends copies of the elements, if there is room for all of them.
fn extend_by_copies<T: Copy, V: Vector<T>>(
    vector: &mut V,
    items: &[T],
) -> Result<(), VectorModificationError>
    ensures value { result ≡ vec_extend_result (V.bounded vector.old) (length items.now) }
    ensures vector { OnOk result
        (V.bounded vector.new ≡ vec_extend (V.bounded vector.old) items.now) }
    ensures refused { OnErr result (vector.new ≡ vector.old) }
{
    if items.len() > vector.capacity() - vector.len() {
        return Err(VectorModificationError::InsertWouldExceedCapacity);
    }
    for item in items {
        vector.push_unchecked(*item);
    }
    Ok(())
}

/// Resizes the vector to `n` elements: truncates it, or appends copies of `item`.
fn resize_by_copies<T: Copy, V: Vector<T>>(
    vector: &mut V,
    n: usize,
    item: T,
) -> Result<(), VectorModificationError>
    ensures value { result ≡ vec_resize_result (V.bounded vector.old) n }
    ensures vector { OnOk result (V.bounded vector.new ≡ vec_resize (V.bounded vector.old) n item) }
    ensures refused { OnErr result (vector.new ≡ vector.old) }
{
    vector.resize_with(n, || item)
}

/// Returns the element at `index`.
fn item_at<T: Copy, V: Vector<T>>(vector: &V, index: usize) -> Option<T>
    ensures { result ≡ slice_get (V.bounded vector.now).items index }
{
    vector.as_slice().get(index).copied()
}

/// Overwrites the element at `index` and returns `true`, or returns `false` if `index` is out of bounds.
fn overwrite<T: Copy, V: Vector<T>>(vector: &mut V, index: usize, item: T) -> bool
    ensures value { result ≡ nat_lt index (length (V.bounded vector.old).items) }
    ensures vector { V.bounded vector.new
        ≡ with_items (V.bounded vector.old) (set (V.bounded vector.old).items index item) }
{
    if index < vector.len() {
        let items = vector.as_mut_slice();
        items[index] = item;
        return true;
    }
    false
}
