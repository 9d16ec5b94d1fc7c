//! Checks that the commands of maps can't express: clones, and listings of keys with a callback.
ghost use Rattle.ix_tables.specs.Cloning.{AreEqualClones};

use crate::rows::Row;
use ix_commands::{MapCommand, Reply, Runs};
use ix_flatmap::{CallbackProgression, KeyIndex, MetaMap, Pair};
use ix_slottable::Storage;
use std::alloc::AllocError;
use std::fmt::{Debug, InlineText};
use test_support::{Findings, check_text, reply_of_option};

/// Lists the keys up to the one after `before` others, for which the callback returns `Stop`.
pub fn check_listing<K: Eq + Drop, V: Drop, M: Storage<Pair<K, V>>, I: KeyIndex<K, V>>(
    findings: &Findings,
    map: &MetaMap<Pair<K, V>, M, I>,
    before: usize,
) {
    let mut calls = 0usize;
    map.list_keys(|key| {
        let call = calls;
        findings.expect_at(map.nth_key(call) == Some(key), call, "a key that is listed");
        calls = call.wrapping_add(1);
        if call == before {
            CallbackProgression::Stop
        } else {
            CallbackProgression::Continue
        }
    });
    let wanted = map.len().min(before.saturating_add(1));
    findings.expect_same(calls, wanted, "the number of calls");
}

/// Returns the result of `get`.
fn clone_of<K: Eq + Copy, V: Copy, M: Storage<Pair<K, V>>, I: KeyIndex<K, V>>(
    map: &MetaMap<Pair<K, V>, M, I>,
    key: &K,
) -> Result<Reply<K, V>, AllocError>
    requires { AreEqualClones V.is_clone }
{
    Ok(reply_of_option(map.get(key)?))
}

/// Runs the command of each row in turn, on an empty map, and compares the reply and its text, so that equal keys are told
/// apart. Where a row reads a value, `get` returns a clone of it, and where it reads a key, the keys are listed up to it.
pub fn check_example<
    K: Eq + Copy + Debug,
    V: Copy + PartialEq + Debug,
    M: Storage<Pair<K, V>>,
    I: KeyIndex<K, V>,
>(findings: &Findings, map: &mut MetaMap<Pair<K, V>, M, I>, rows: &[Row<K, V>], place: &str)
    requires { AreEqualClones V.is_clone }
{
    for (number, (command, reply)) in rows.iter().enumerate() {
        let found = map.run_command(*command);
        findings.expect_same_at(found, *reply, number, place);
        let wanted = InlineText::<80>::of(format_args!("{reply:?}"));
        check_text(findings, &found, wanted.as_str());
        match command {
            MapCommand::Get(key) => {
                let found = clone_of(&*map, key);
                findings.expect_same_at(found, Ok(*reply), number, "a clone");
            }
            MapCommand::Key(before) => check_listing(findings, &*map, *before),
            _ => {}
        }
    }
}
