//! Commands of slot maps.
ghost use Rattle.std.specs.Prelude.{◌≡◌, [], List, is_some, if◌then◌else◌, IsOk, IfOk, OnOk, OnErr};
ghost use Rattle.ix_slotmap.specs.Generations.{SlotMapState, slot_map_value, IsSlotMapFormed};
ghost use Rattle.ix_slotmap.specs.SlotMapSteps.{slot_map_set};
ghost use Rattle.ix_commands.specs.Run.{run_replies, run_state};
ghost use Rattle.ix_commands.specs.SlotMapRun.{slot_map_reply, slot_map_after, slot_map_from, DeadStaysDead};
ghost use Rattle.ix_commands.specs.declared.command.SlotMapCommand.{SlotMapCommand};

use crate::reply::{reply_of_entry, reply_of_key, reply_of_option};
use crate::{Reply, Runs, SlotMapCommand, run_all};
use ix_slotmap::{MetaSlotMap, SlotMapKey, SlotMapStorage};
use ix_tables::MaybeMoved;
use std::alloc::{AllocError, Global};

/// The commands of a slot map, of any kind.
impl<T: Copy, M: SlotMapStorage<MaybeMoved<T>>> Runs<SlotMapCommand<T>>
    for MetaSlotMap<T, MaybeMoved<T>, M> {
    ghost use Rattle.ix_slotmap.specs.Generations.{SlotMapState};
    ghost use Rattle.ix_commands.specs.SlotMapRun.{slot_map_reply, slot_map_after};

    type Reply = Reply<SlotMapKey, T>;

    ghost Model = { SlotMapState T };

    ghost model = { λ map. map };

    ghost reply = { slot_map_reply };

    ghost after = { slot_map_after };

    fn run_command(&mut self, command: SlotMapCommand<T>) -> Reply<SlotMapKey, T> {
        match command {
            SlotMapCommand::Insert(value) => reply_of_key(self.insert(value)),
            SlotMapCommand::Next => reply_of_key(self.next_free_key()),
            SlotMapCommand::InsertAt(index, value) => reply_of_key(self.insert_at(index, value)),
            SlotMapCommand::Remove(key) => reply_of_option(self.remove(key)),
            SlotMapCommand::Get(key) => reply_of_option(self.get(key).copied()),
            SlotMapCommand::Set(key, value) => Reply::Bool(overwrite(self, key, value)),
            SlotMapCommand::Contains(key) => Reply::Bool(self.contains(key)),
            SlotMapCommand::From(index) => reply_of_entry(first_entry_from(self, index)),
            SlotMapCommand::Retired => Reply::Number(self.retired()),
            SlotMapCommand::Len => Reply::Number(self.len()),
            SlotMapCommand::Capacity => Reply::Number(self.capacity()),
            SlotMapCommand::Empty => Reply::Bool(self.is_empty()),
            SlotMapCommand::Full => Reply::Bool(self.is_full()),
        }
    }
}

/// Runs the commands on a slot map of any kind, in order, and returns the replies to them. Allocates the list of replies from
/// `alloc` before the first command. O(`commands.len()`) beside the calls of the slot map; `SlotMapCommand::From` takes
/// O(capacity).
///
/// A key that is dead before the commands is dead after them.
///
/// Returns `AllocError` if the allocation of the list fails. Then no command was run.
pub fn run_slot_map<T: Copy, M: SlotMapStorage<MaybeMoved<T>>>(
    alloc: Global,
    map: &mut MetaSlotMap<T, MaybeMoved<T>, M>,
    commands: &[SlotMapCommand<T>],
) -> Result<Vec<Reply<SlotMapKey, T>>, AllocError>
    ensures value { IfOk result
        (λ replies. replies.items ≡ run_replies slot_map_reply slot_map_after map.old commands.now) }
    ensures map { OnOk result (map.new ≡ run_state slot_map_after map.old commands.now) }
    ensures refused { OnErr result (map.new ≡ map.old) }
    ensures memory { commands.now ≡ [] → IsOk result }
    ensures dead { DeadStaysDead map.old commands.now }
{
    prove!(map.len() <= map.capacity());
    run_all(alloc, map, commands)
}

/// States that a key that is dead before any list of commands is dead after it, and has no value then. This function does nothing:
/// its contract is the law.
pub fn dead_law<T>()
    ensures { (map : SlotMapState T) (commands : List (SlotMapCommand T)) → IsSlotMapFormed map
        → DeadStaysDead map commands }
{}

/// Overwrites the value of `key` and returns `true`, or returns `false` if `key` is not held.
fn overwrite<T: Copy, M: SlotMapStorage<MaybeMoved<T>>>(
    map: &mut MetaSlotMap<T, MaybeMoved<T>, M>,
    key: SlotMapKey,
    value: T,
) -> bool
    ensures value { result ≡ is_some (slot_map_value map.old key) }
    ensures map { map.new
        ≡ if is_some (slot_map_value map.old key) then slot_map_set map.old key value else map.old }
{
    match map.get_mut(key) {
        Some(held) => {
            *held = value;
            true
        }
        None => false,
    }
}

/// Returns the first held key whose index is not below `start`, with its value.
fn first_entry_from<T: Copy, M: SlotMapStorage<MaybeMoved<T>>>(
    map: &MetaSlotMap<T, MaybeMoved<T>, M>,
    start: usize,
) -> Option<(SlotMapKey, T)>
    ensures { result ≡ slot_map_from map.now start }
{
    for (key, value) in map.iter() {
        if key.index() >= start {
            return Some((key, *value));
        }
    }
    None
}
