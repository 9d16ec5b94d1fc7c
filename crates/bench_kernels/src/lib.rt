//! Kernels that measure the containers. Each kernel makes a container, runs an operation `rounds` times and returns a checksum. So
//! a bench program can link them beside other libraries, and compare times and results.
#![tactic(auto)]

mod drawn_keys;
mod flat_maps;
mod generator;
mod hash_maps;
mod queues;
mod semantic_strings;
mod sequenced_cells;
mod slot_maps;
mod slot_tables;
mod strings;
mod vectors;

use flat_maps::Layout;
use hash_maps::Room;
use std::alloc::Global;

/// Push and pop on a fixed queue of 64 that holds 20.
#[unsafe(no_mangle)]
pub extern "C" fn ix_bench_queue_fixed(rounds: u64, _param: u64) -> u64 {
    queues::fixed(rounds)
}

/// Push and pop on an allocated queue of `param` that holds 20.
#[unsafe(no_mangle)]
pub extern "C" fn ix_bench_queue_heap(alloc: Global, rounds: u64, param: u64) -> u64 {
    queues::allocated(alloc, rounds, param as usize)
}

/// Push with overflow on a full fixed queue of 64.
#[unsafe(no_mangle)]
pub extern "C" fn ix_bench_overflow_fixed(rounds: u64, _param: u64) -> u64 {
    queues::fixed_overflow(rounds)
}

/// Push with overflow on a full allocated queue of `param`.
#[unsafe(no_mangle)]
pub extern "C" fn ix_bench_overflow_heap(alloc: Global, rounds: u64, param: u64) -> u64 {
    queues::allocated_overflow(alloc, rounds, param as usize)
}

/// Push and pop of elements of 256 bytes on a fixed queue of 16 that holds 5.
#[unsafe(no_mangle)]
pub extern "C" fn ix_bench_queue_big(rounds: u64, _param: u64) -> u64 {
    queues::fixed_large(rounds)
}

/// Push and pop of elements of 256 bytes on an allocated queue of `param` that holds 5.
#[unsafe(no_mangle)]
pub extern "C" fn ix_bench_queue_big_heap(alloc: Global, rounds: u64, param: u64) -> u64 {
    queues::allocated_large(alloc, rounds, param as usize)
}

/// Makes a fixed queue of 64, pushes an element and pops it.
#[unsafe(no_mangle)]
pub extern "C" fn ix_bench_queue_new(rounds: u64, _param: u64) -> u64 {
    queues::made(rounds)
}

/// Remove, insert and get on a fixed slot table of 512 that is half full.
#[unsafe(no_mangle)]
pub extern "C" fn ix_bench_slot_churn_fixed(rounds: u64, _param: u64) -> u64 {
    slot_tables::fixed_churn(rounds)
}

/// Remove, insert and get on an allocated slot table of `param` that is half full.
#[unsafe(no_mangle)]
pub extern "C" fn ix_bench_slot_churn_heap(alloc: Global, rounds: u64, param: u64) -> u64 {
    slot_tables::allocated_churn(alloc, rounds, param as usize)
}

/// `insert_at` of a free key or `remove` of a held one, on an allocated slot table of `param`.
#[unsafe(no_mangle)]
pub extern "C" fn ix_bench_slot_at(alloc: Global, rounds: u64, param: u64) -> u64 {
    slot_tables::at_any_key(alloc, rounds, param as usize)
}

/// Iterates over an allocated slot table of `param`. Every second key is held.
#[unsafe(no_mangle)]
pub extern "C" fn ix_bench_slot_iter(alloc: Global, rounds: u64, param: u64) -> u64 {
    slot_tables::walk(alloc, rounds, param as usize)
}

/// Remove, insert and get on a fixed slot map of 512 that is half full.
#[unsafe(no_mangle)]
pub extern "C" fn ix_bench_slot_map_churn_fixed(rounds: u64, _param: u64) -> u64 {
    slot_maps::fixed_churn(rounds)
}

/// Remove, insert and get on an allocated slot map of `param` that is half full.
#[unsafe(no_mangle)]
pub extern "C" fn ix_bench_slot_map_churn_heap(alloc: Global, rounds: u64, param: u64) -> u64 {
    slot_maps::allocated_churn(alloc, rounds, param as usize)
}

/// `get` of a held key, on a half full allocated slot map of `param`.
#[unsafe(no_mangle)]
pub extern "C" fn ix_bench_slot_map_get(alloc: Global, rounds: u64, param: u64) -> u64 {
    slot_maps::allocated_get(alloc, rounds, param as usize)
}

/// `insert_at` of a free slot or `remove` of a held key, on an allocated slot map of `param`.
#[unsafe(no_mangle)]
pub extern "C" fn ix_bench_slot_map_at(alloc: Global, rounds: u64, param: u64) -> u64 {
    slot_maps::at_any_place(alloc, rounds, param as usize)
}

/// Iterates over an allocated slot map of `param`. Every second slot has a value.
#[unsafe(no_mangle)]
pub extern "C" fn ix_bench_slot_map_iter(alloc: Global, rounds: u64, param: u64) -> u64 {
    slot_maps::walk(alloc, rounds, param as usize)
}

/// Looks up a key of a full allocated flat map of `param`.
#[unsafe(no_mangle)]
pub extern "C" fn ix_bench_flat_get(alloc: Global, rounds: u64, param: u64) -> u64 {
    flat_maps::hits(alloc, rounds, param, Layout::Full)
}

/// Looks up a key that a full allocated flat map of `param` does not have.
#[unsafe(no_mangle)]
pub extern "C" fn ix_bench_flat_miss(alloc: Global, rounds: u64, param: u64) -> u64 {
    flat_maps::misses(alloc, rounds, param, Layout::Full)
}

/// Looks up a key of the first half of an allocated flat map of twice `param`.
#[unsafe(no_mangle)]
pub extern "C" fn ix_bench_flat_get__front(alloc: Global, rounds: u64, param: u64) -> u64 {
    flat_maps::hits(alloc, rounds, param, Layout::Front)
}

/// Looks up a key that is not there, in the first half of an allocated flat map of twice `param`.
#[unsafe(no_mangle)]
pub extern "C" fn ix_bench_flat_miss__front(alloc: Global, rounds: u64, param: u64) -> u64 {
    flat_maps::misses(alloc, rounds, param, Layout::Front)
}

/// Looks up a key of an allocated flat map of `param` and one, whose first slot is free.
#[unsafe(no_mangle)]
pub extern "C" fn ix_bench_flat_get__hole(alloc: Global, rounds: u64, param: u64) -> u64 {
    flat_maps::hits(alloc, rounds, param, Layout::Hole)
}

/// Looks up a key that is not there, in an allocated flat map of `param` and one, whose first slot is free.
#[unsafe(no_mangle)]
pub extern "C" fn ix_bench_flat_miss__hole(alloc: Global, rounds: u64, param: u64) -> u64 {
    flat_maps::misses(alloc, rounds, param, Layout::Hole)
}

/// Looks up a key of an allocated flat map of twice `param`. Every second slot is free.
#[unsafe(no_mangle)]
pub extern "C" fn ix_bench_flat_get__half(alloc: Global, rounds: u64, param: u64) -> u64 {
    flat_maps::hits(alloc, rounds, param, Layout::Half)
}

/// Looks up a key that is not there, in an allocated flat map of twice `param`. Every second slot is free.
#[unsafe(no_mangle)]
pub extern "C" fn ix_bench_flat_miss__half(alloc: Global, rounds: u64, param: u64) -> u64 {
    flat_maps::misses(alloc, rounds, param, Layout::Half)
}

/// Removes a key of a full allocated flat map of `param`, and inserts another one.
#[unsafe(no_mangle)]
pub extern "C" fn ix_bench_flat_exchange(alloc: Global, rounds: u64, param: u64) -> u64 {
    hash_maps::flat_exchanges(alloc, rounds, param)
}

/// Looks up a key of a full allocated hash map of `param`.
#[unsafe(no_mangle)]
pub extern "C" fn ix_bench_hash_get(alloc: Global, rounds: u64, param: u64) -> u64 {
    hash_maps::hits(alloc, rounds, param, Room::Full)
}

/// Looks up a key of an allocated hash map of twice `param`, which is half full.
#[unsafe(no_mangle)]
pub extern "C" fn ix_bench_hash_get__half(alloc: Global, rounds: u64, param: u64) -> u64 {
    hash_maps::hits(alloc, rounds, param, Room::Half)
}

/// Looks up a key that a full allocated hash map of `param` does not have.
#[unsafe(no_mangle)]
pub extern "C" fn ix_bench_hash_miss(alloc: Global, rounds: u64, param: u64) -> u64 {
    hash_maps::misses(alloc, rounds, param, Room::Full)
}

/// Looks up a key that an allocated hash map of twice `param`, which is half full, does not have.
#[unsafe(no_mangle)]
pub extern "C" fn ix_bench_hash_miss__half(alloc: Global, rounds: u64, param: u64) -> u64 {
    hash_maps::misses(alloc, rounds, param, Room::Half)
}

/// Removes a key of a full allocated hash map of `param`, and inserts another one.
#[unsafe(no_mangle)]
pub extern "C" fn ix_bench_hash_exchange(alloc: Global, rounds: u64, param: u64) -> u64 {
    hash_maps::exchanges(alloc, rounds, param, Room::Full)
}

/// Removes a key of an allocated hash map of twice `param`, which is half full, and inserts another one.
#[unsafe(no_mangle)]
pub extern "C" fn ix_bench_hash_exchange__half(alloc: Global, rounds: u64, param: u64) -> u64 {
    hash_maps::exchanges(alloc, rounds, param, Room::Half)
}

/// Looks up a key that a full allocated hash map of `param` drawn keys has.
#[unsafe(no_mangle)]
pub extern "C" fn ix_bench_drawn_get(alloc: Global, rounds: u64, param: u64) -> u64 {
    drawn_keys::hits(alloc, rounds, param, Room::Full)
}

/// Looks up a key that a half full allocated hash map of `param` drawn keys has.
#[unsafe(no_mangle)]
pub extern "C" fn ix_bench_drawn_get__half(alloc: Global, rounds: u64, param: u64) -> u64 {
    drawn_keys::hits(alloc, rounds, param, Room::Half)
}

/// Looks up a key that a full allocated hash map of `param` drawn keys does not have.
#[unsafe(no_mangle)]
pub extern "C" fn ix_bench_drawn_miss(alloc: Global, rounds: u64, param: u64) -> u64 {
    drawn_keys::misses(alloc, rounds, param, Room::Full)
}

/// Looks up a key that a half full allocated hash map of `param` drawn keys does not have.
#[unsafe(no_mangle)]
pub extern "C" fn ix_bench_drawn_miss__half(alloc: Global, rounds: u64, param: u64) -> u64 {
    drawn_keys::misses(alloc, rounds, param, Room::Half)
}

/// Removes a key of a full allocated hash map of `param` drawn keys, and inserts another one.
#[unsafe(no_mangle)]
pub extern "C" fn ix_bench_drawn_exchange(alloc: Global, rounds: u64, param: u64) -> u64 {
    drawn_keys::exchanges(alloc, rounds, param, Room::Full)
}

/// Removes a key of a half full allocated hash map of `param` drawn keys, and inserts another one.
#[unsafe(no_mangle)]
pub extern "C" fn ix_bench_drawn_exchange__half(alloc: Global, rounds: u64, param: u64) -> u64 {
    drawn_keys::exchanges(alloc, rounds, param, Room::Half)
}

/// Two pushes and a pop on a fixed vector of 64.
#[unsafe(no_mangle)]
pub extern "C" fn ix_bench_vec_push_pop(rounds: u64, _param: u64) -> u64 {
    vectors::push_and_pop(rounds)
}

/// Insert and remove at any index of a fixed vector that holds 32.
#[unsafe(no_mangle)]
pub extern "C" fn ix_bench_vec_ins_rem(rounds: u64, _param: u64) -> u64 {
    vectors::insert_and_remove(rounds)
}

/// Extends a fixed vector of 64 by three slices of 16, and clears it.
#[unsafe(no_mangle)]
pub extern "C" fn ix_bench_vec_extend(rounds: u64, _param: u64) -> u64 {
    vectors::extend_and_clear(rounds)
}

/// Makes a fixed vector of 64 and pushes an element.
#[unsafe(no_mangle)]
pub extern "C" fn ix_bench_vec_new(rounds: u64, _param: u64) -> u64 {
    vectors::made(rounds)
}

/// A push on a full vector.
#[unsafe(no_mangle)]
pub extern "C" fn ix_bench_vec_refuse(rounds: u64, _param: u64) -> u64 {
    vectors::refused(rounds)
}

/// Push and pop on an allocated vector of `param` that is half full.
#[unsafe(no_mangle)]
pub extern "C" fn ix_bench_vec_push_pop_heap(alloc: Global, rounds: u64, param: u64) -> u64 {
    vectors::allocated_push_and_pop(alloc, rounds, param as usize)
}

/// Insert and remove at index 0 of an allocated vector of `param` that is half full.
#[unsafe(no_mangle)]
pub extern "C" fn ix_bench_vec_ins_rem_heap(alloc: Global, rounds: u64, param: u64) -> u64 {
    vectors::allocated_insert_and_remove(alloc, rounds, param as usize)
}

/// Appends eight bytes to a fixed string of 123, which is cleared at 120.
#[unsafe(no_mangle)]
pub extern "C" fn ix_bench_str_push(rounds: u64, _param: u64) -> u64 {
    strings::push_words(rounds)
}

/// Finds four bytes in 100.
#[unsafe(no_mangle)]
pub extern "C" fn ix_bench_str_find(rounds: u64, _param: u64) -> u64 {
    strings::find_a_word(rounds)
}

/// Compares two strings of 100 bytes, whose last bytes may differ, for equality.
#[unsafe(no_mangle)]
pub extern "C" fn ix_bench_str_eq(rounds: u64, _param: u64) -> u64 {
    strings::equality(rounds)
}

/// Compares two strings of 100 bytes, whose last bytes may differ, for order.
#[unsafe(no_mangle)]
pub extern "C" fn ix_bench_str_cmp(rounds: u64, _param: u64) -> u64 {
    strings::order(rounds)
}

/// Hashes a string of 100 bytes.
#[unsafe(no_mangle)]
pub extern "C" fn ix_bench_str_hash(rounds: u64, _param: u64) -> u64 {
    strings::hash(rounds)
}

/// Inserts four bytes into a string of 100 bytes at any of the first 64 indexes, and removes them.
#[unsafe(no_mangle)]
pub extern "C" fn ix_bench_str_ins_rem(rounds: u64, _param: u64) -> u64 {
    strings::insert_and_remove(rounds)
}

/// Push and pop of a byte on an allocated string of `param` that is half full.
#[unsafe(no_mangle)]
pub extern "C" fn ix_bench_str_push_pop_heap(alloc: Global, rounds: u64, param: u64) -> u64 {
    strings::allocated_push_and_pop(alloc, rounds, param as usize)
}

/// Looks for four bytes that a full allocated string of `param` does not have.
#[unsafe(no_mangle)]
pub extern "C" fn ix_bench_str_find_heap(alloc: Global, rounds: u64, param: u64) -> u64 {
    strings::allocated_find_absent(alloc, rounds, param as usize)
}

/// Writes a block of `param` bytes, which are 8, 64 or 256, to a sequenced cell.
#[unsafe(no_mangle)]
pub extern "C" fn ix_bench_seq_write(alloc: Global, rounds: u64, param: u64) -> u64 {
    sequenced_cells::writes(alloc, rounds, param)
}

/// Reads a block of `param` bytes, which are 8, 64 or 256, from a sequenced cell.
#[unsafe(no_mangle)]
pub extern "C" fn ix_bench_seq_read(alloc: Global, rounds: u64, param: u64) -> u64 {
    sequenced_cells::reads(alloc, rounds, param)
}

/// Makes a group name of 16 letters.
#[unsafe(no_mangle)]
pub extern "C" fn ix_bench_sem_new(rounds: u64, _param: u64) -> u64 {
    semantic_strings::new_names(rounds)
}

/// Compares two group names of 16 letters that are equal, or differ in the last one.
#[unsafe(no_mangle)]
pub extern "C" fn ix_bench_sem_cmp(rounds: u64, _param: u64) -> u64 {
    semantic_strings::compare_names(rounds)
}
