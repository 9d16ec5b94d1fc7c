//! Kernels on hash maps whose keys look random.
use crate::generator::step;
use crate::hash_maps::{Room, capacity_of};
use ix_maps::HashMap;
use std::alloc::{AllocError, Global};

/// Looks up keys that the map has.
pub fn hits(alloc: Global, rounds: u64, count: u64, room: Room) -> u64 {
    match map_of(alloc, count, room) {
        Ok(map) => look_up(&map, rounds, count, 0),
        Err(AllocError) => 0,
    }
}

/// Looks up keys that the map does not have.
pub fn misses(alloc: Global, rounds: u64, count: u64, room: Room) -> u64 {
    match map_of(alloc, count, room) {
        Ok(map) => look_up(&map, rounds, count, count),
        Err(AllocError) => 0,
    }
}

/// A round removes the key that was inserted first, and inserts another one.
pub fn exchanges(alloc: Global, rounds: u64, count: u64, room: Room) -> u64 {
    match map_of(alloc, count, room) {
        Ok(mut map) => exchange(&mut map, rounds, count),
        Err(AllocError) => 0,
    }
}

/// Returns a number that looks random, another one for each number.
#[inline]
fn drawn(number: u64) -> u64 {
    let product = number.wrapping_mul(6_364_136_223_846_793_005);
    (product ^ product >> 32).wrapping_mul(6_364_136_223_846_793_005)
}

/// Returns a map with the keys that are drawn for the numbers below `count`.
fn map_of(alloc: Global, count: u64, room: Room) -> Result<HashMap<u64, u64>, AllocError> {
    let mut map = HashMap::new(alloc, capacity_of(count, room))?;
    for number in 0..count {
        let _ = map.insert(drawn(number), number);
    }
    Ok(map)
}

/// A round looks up the key that is drawn for a number below `count`, and `more`.
fn look_up(map: &HashMap<u64, u64>, rounds: u64, count: u64, more: u64) -> u64 {
    if count == 0 {
        return 0;
    }
    let mut x: u64 = 1;
    let mut sum: u64 = 0;
    for _ in 0..rounds {
        x = step(x);
        let key = drawn(((x >> 33) % count).wrapping_add(more));
        let value = match map.get_ref(&key) {
            Some(value) => *value,
            None => 1,
        };
        sum = sum.wrapping_add(value);
    }
    sum
}

fn exchange(map: &mut HashMap<u64, u64>, rounds: u64, count: u64) -> u64 {
    let mut sum: u64 = 0;
    for oldest in 0..rounds {
        if let Some(value) = map.remove(&drawn(oldest)) {
            sum = sum.wrapping_add(value);
        }
        let _ = map.insert(drawn(oldest.wrapping_add(count)), oldest);
    }
    sum
}
