//! Commands of maps.
ghost use Rattle.std.specs.Prelude.{◌≡◌, [], is_some, IsOk, IfOk, OnOk, OnErr};
ghost use Rattle.ix_flatmap.specs.MapState.{map_value};
ghost use Rattle.ix_flatmap.specs.MapSteps.{map_set};
ghost use Rattle.ix_commands.specs.MapRun.{map_reply, map_after};
ghost use Rattle.ix_commands.specs.Replies.{result_reply, map_reply_error};
ghost use Rattle.ix_commands.specs.Run.{run_replies, run_state};

use crate::reply::{reply_of_key, reply_of_option};
use crate::{MapCommand, Reply, ReplyError, Runs, run_all};
use ix_flatmap::{KeyIndex, MapError, MetaMap, Pair};
use ix_slottable::Storage;
use std::alloc::{AllocError, Global};

/// The commands of a map, of any kind.
impl<K: Eq + Copy, V: Copy, M: Storage<Pair<K, V>>, I: KeyIndex<K, V>> Runs<MapCommand<K, V>>
    for MetaMap<Pair<K, V>, M, I> {
    ghost use Rattle.ix_slottable.specs.SlotTableState.{SlotTableState};
    ghost use Rattle.ix_flatmap.specs.declared.flatmap.Pair.{Pair};
    ghost use Rattle.ix_commands.specs.MapRun.{map_reply, map_after};

    type Reply = Reply<K, V>;

    ghost Model = { SlotTableState (Pair K V) };

    ghost model = { λ map. map };

    ghost reply = { map_reply K.eq };

    ghost after = { map_after K.eq };

    fn run_command(&mut self, command: MapCommand<K, V>) -> Reply<K, V> {
        match command {
            MapCommand::Insert(key, value) => reply_of_map_result(self.insert(key, value)),
            MapCommand::Get(key) => reply_of_option(self.get_ref(&key).copied()),
            MapCommand::Set(key, value) => Reply::Bool(overwrite(self, key, value)),
            MapCommand::Remove(key) => reply_of_option(self.remove(&key)),
            MapCommand::Contains(key) => Reply::Bool(self.contains(&key)),
            MapCommand::Key(n) => reply_of_key(self.nth_key(n).copied()),
            MapCommand::Len => Reply::Number(self.len()),
            MapCommand::Empty => Reply::Bool(self.is_empty()),
            MapCommand::Full => Reply::Bool(self.is_full()),
        }
    }
}

/// Runs the commands on a map of any kind, in order, and returns the replies to them. Allocates the list of
/// replies from `alloc` before the first command. O(`commands.len()`) beside the calls of the map.
///
/// Returns `AllocError` if the allocation of the list fails. Then no command was run.
pub fn run_map<K: Eq + Copy, V: Copy, M: Storage<Pair<K, V>>, I: KeyIndex<K, V>>(
    alloc: Global,
    map: &mut MetaMap<Pair<K, V>, M, I>,
    commands: &[MapCommand<K, V>],
) -> Result<Vec<Reply<K, V>>, AllocError>
    ensures value { IfOk result (λ replies.
        replies.items ≡ run_replies (map_reply K.eq) (map_after K.eq) map.old commands.now) }
    ensures map { OnOk result (map.new ≡ run_state (map_after K.eq) map.old commands.now) }
    ensures refused { OnErr result (map.new ≡ map.old) }
    ensures memory { commands.now ≡ [] → IsOk result }
{
    run_all(alloc, map, commands)
}

/// Returns the result of inserting as a reply.
#[inline]
fn reply_of_map_result<K: Copy, V: Copy>(outcome: Result<(), MapError>) -> Reply<K, V>
    ensures { result ≡ result_reply map_reply_error outcome }
{
    match outcome {
        Ok(()) => Reply::Done,
        Err(MapError::KeyAlreadyExists) => Reply::Error(ReplyError::KeyAlreadyExists),
        Err(MapError::IsFull) => Reply::Error(ReplyError::IsFull),
    }
}

/// Overwrites the value of `key` and returns `true`, or returns `false` if the map has no equal key.
fn overwrite<K: Eq + Copy, V: Copy, M: Storage<Pair<K, V>>, I: KeyIndex<K, V>>(
    map: &mut MetaMap<Pair<K, V>, M, I>,
    key: K,
    value: V,
) -> bool
    ensures value { result ≡ is_some (map_value K.eq map.old key) }
    ensures map { map.new ≡ map_set K.eq map.old key value }
{
    match map.get_mut_ref(&key) {
        Some(held) => {
            *held = value;
            true
        }
        None => false,
    }
}
