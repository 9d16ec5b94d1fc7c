//! Commands of strings.
ghost use Rattle.std.specs.Prelude.{◌≡◌, [], IsOk, IfOk, OnOk, OnErr};
ghost use Rattle.ix_commands.specs.Replies.{result_reply};
ghost use Rattle.ix_commands.specs.Run.{run_replies, run_state};
ghost use Rattle.ix_commands.specs.StringRun.{string_reply, string_after, string_reply_error, string_insert_reply, string_insert_after};

use crate::reply::{reply_of_key, reply_of_option};
use crate::{Reply, ReplyError, Runs, StringCommand, run_all};
use ix_string::{String, StringModificationError};
use std::alloc::{AllocError, Global};

/// The commands of a string, of any kind.
impl<'a, S: String> Runs<StringCommand<'a>> for S {
    ghost use Rattle.std.specs.Prelude.{ℕ};
    ghost use Rattle.ix_tables.specs.Bounded.{Bounded};
    ghost use Rattle.ix_commands.specs.StringRun.{string_reply, string_after};

    type Reply = Reply<usize, u8>;

    ghost Model = { Bounded ℕ };

    ghost model = { S.bounded };

    ghost reply = { string_reply };

    ghost after = { string_after };

    fn run_command(&mut self, command: StringCommand<'a>) -> Reply<usize, u8> {
        match command {
            StringCommand::Push(byte) => reply_of_result(self.push(byte)),
            StringCommand::Append(bytes) => reply_of_result(self.push_bytes(bytes)),
            StringCommand::Insert(index, byte) => insert_within(self, index, &[byte]),
            StringCommand::InsertBytes(index, bytes) => insert_within(self, index, bytes),
            StringCommand::Pop => reply_of_option(self.pop()),
            StringCommand::Remove(index) => reply_of_option(self.remove(index)),
            StringCommand::RemoveRange(index, n) => Reply::Bool(self.remove_range(index, n)),
            StringCommand::Find(needle) => reply_of_key(self.find(needle)),
            StringCommand::Rfind(needle) => reply_of_key(self.rfind(needle)),
            StringCommand::StripPrefix(bytes) => Reply::Bool(self.strip_prefix(bytes)),
            StringCommand::StripSuffix(bytes) => Reply::Bool(self.strip_suffix(bytes)),
            StringCommand::Drop(unwanted) => {
                self.retain(|byte: u8| byte == unwanted);
                Reply::Done
            }
            StringCommand::At(index) => reply_of_option(self.as_bytes().get(index).copied()),
            StringCommand::Truncate(n) => {
                self.truncate(n);
                Reply::Done
            }
            StringCommand::Clear => {
                self.clear();
                Reply::Done
            }
            StringCommand::Len => Reply::Number(self.len()),
            StringCommand::Capacity => Reply::Number(self.capacity()),
            StringCommand::Empty => Reply::Bool(self.is_empty()),
            StringCommand::Full => Reply::Bool(self.is_full()),
        }
    }
}

/// Runs the commands on a string of any kind, in order, and returns the replies to them. Allocates the list of replies
/// from `alloc` before the first command. O(`commands.len()`) beside the calls of the string.
///
/// Returns `AllocError` if the allocation of the list fails. Then no command was run.
pub fn run_string<S: String>(
    alloc: Global,
    string: &mut S,
    commands: &[StringCommand<'_>],
) -> Result<Vec<Reply<usize, u8>>, AllocError>
    ensures value { IfOk result (λ replies.
        replies.items ≡ run_replies string_reply string_after (S.bounded string.old) commands.now) }
    ensures string { OnOk result
        (S.bounded string.new ≡ run_state string_after (S.bounded string.old) commands.now) }
    ensures refused { OnErr result (string.new ≡ string.old) }
    ensures memory { commands.now ≡ [] → IsOk result }
{
    run_all(alloc, string, commands)
}

/// Returns the result of a change as a reply.
#[inline]
fn reply_of_result(outcome: Result<(), StringModificationError>) -> Reply<usize, u8>
    ensures { result ≡ result_reply string_reply_error outcome }
{
    match outcome {
        Ok(()) => Reply::Done,
        Err(StringModificationError::InvalidCharacter) => {
            Reply::Error(ReplyError::InvalidCharacter)
        }
        Err(StringModificationError::InsertWouldExceedCapacity) => {
            Reply::Error(ReplyError::InsertWouldExceedCapacity)
        }
    }
}

/// Inserts the bytes at `index`, unless it is past the end.
fn insert_within<S: String>(string: &mut S, index: usize, bytes: &[u8]) -> Reply<usize, u8>
    ensures value { result ≡ string_insert_reply (S.bounded string.old) index bytes.now }
    ensures string { S.bounded string.new
        ≡ string_insert_after (S.bounded string.old) index bytes.now }
{
    if index > string.len() {
        return Reply::Error(ReplyError::IndexPastEnd);
    }
    reply_of_result(string.insert_bytes(index, bytes))
}
