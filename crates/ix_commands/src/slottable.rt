//! Commands of slot tables.
ghost use Rattle.std.specs.Prelude.{◌≡◌, [], is_some, if◌then◌else◌, IsOk, IfOk, OnOk, OnErr};
ghost use Rattle.ix_slottable.specs.SlotTableState.{value_at};
ghost use Rattle.ix_slottable.specs.SlotTableSteps.{slot_table_set};
ghost use Rattle.ix_commands.specs.Replies.{key_reply};
ghost use Rattle.ix_commands.specs.Run.{run_replies, run_state};
ghost use Rattle.ix_commands.specs.SlotTableRun.{slot_table_reply, slot_table_after, slot_table_from};

use crate::reply::{reply_of_entry, reply_of_option};
use crate::{Reply, Runs, SlotTableCommand, run_all};
use ix_slottable::{MetaSlotTable, SlotTableKey, Storage};
use std::alloc::{AllocError, Global};

/// The commands of a slot table, of any kind.
impl<T: Copy, M: Storage<T>> Runs<SlotTableCommand<T>> for MetaSlotTable<T, M> {
    ghost use Rattle.ix_slottable.specs.SlotTableState.{SlotTableState};
    ghost use Rattle.ix_commands.specs.SlotTableRun.{slot_table_reply, slot_table_after};

    type Reply = Reply<usize, T>;

    ghost Model = { SlotTableState T };

    ghost model = { λ map. map };

    ghost reply = { slot_table_reply };

    ghost after = { slot_table_after };

    fn run_command(&mut self, command: SlotTableCommand<T>) -> Reply<usize, T> {
        match command {
            SlotTableCommand::Insert(value) => reply_of_table_key(self.insert(value)),
            SlotTableCommand::Next => reply_of_table_key(self.next_free_key()),
            SlotTableCommand::InsertAt(key, value) => {
                Reply::Bool(self.insert_at(SlotTableKey::new(key), value))
            }
            SlotTableCommand::Remove(key) => reply_of_option(self.remove(SlotTableKey::new(key))),
            SlotTableCommand::Get(key) => reply_of_option(
                self.get(SlotTableKey::new(key)).copied(),
            ),
            SlotTableCommand::Set(key, value) => Reply::Bool(overwrite(self, key, value)),
            SlotTableCommand::Contains(key) => Reply::Bool(self.contains(SlotTableKey::new(key))),
            SlotTableCommand::From(key) => reply_of_entry(first_entry_from(self, key)),
            SlotTableCommand::Len => Reply::Number(self.len()),
            SlotTableCommand::Capacity => Reply::Number(self.capacity()),
            SlotTableCommand::Empty => Reply::Bool(self.is_empty()),
            SlotTableCommand::Full => Reply::Bool(self.is_full()),
        }
    }
}

/// Runs the commands on a slot table of any kind, in order, and returns the replies to them. Allocates the list of
/// replies from `alloc` before the first command. O(`commands.len()`) beside the calls of the slot table;
/// `SlotTableCommand::From` takes O(capacity).
///
/// Returns `AllocError` if the allocation of the list fails. Then no command was run.
pub fn run_slot_table<T: Copy, M: Storage<T>>(
    alloc: Global,
    map: &mut MetaSlotTable<T, M>,
    commands: &[SlotTableCommand<T>],
) -> Result<Vec<Reply<usize, T>>, AllocError>
    ensures value { IfOk result
        (λ replies. replies.items ≡ run_replies slot_table_reply slot_table_after map.old commands.now) }
    ensures map { OnOk result (map.new ≡ run_state slot_table_after map.old commands.now) }
    ensures refused { OnErr result (map.new ≡ map.old) }
    ensures memory { commands.now ≡ [] → IsOk result }
{
    run_all(alloc, map, commands)
}

/// Returns an optional key of a slot table as a reply.
#[inline]
fn reply_of_table_key<T: Copy>(key: Option<SlotTableKey>) -> Reply<usize, T>
    ensures { result ≡ key_reply key }
{
    match key {
        Some(key) => Reply::Key(key.value()),
        None => Reply::None,
    }
}

/// Overwrites the value at `key` and returns `true`, or returns `false` if there is none.
fn overwrite<T: Copy, M: Storage<T>>(map: &mut MetaSlotTable<T, M>, key: usize, value: T) -> bool
    ensures value { result ≡ is_some (value_at map.old key) }
    ensures map { map.new
        ≡ if is_some (value_at map.old key) then slot_table_set map.old key value else map.old }
{
    match map.get_mut(SlotTableKey::new(key)) {
        Some(held) => {
            *held = value;
            true
        }
        None => false,
    }
}

/// Returns the least held key that is not below `start`, with its value.
fn first_entry_from<T: Copy, M: Storage<T>>(
    map: &MetaSlotTable<T, M>,
    start: usize,
) -> Option<(usize, T)>
    ensures { result ≡ slot_table_from map.now start }
{
    for (key, value) in map.iter() {
        if key.value() >= start {
            return Some((key.value(), *value));
        }
    }
    None
}
