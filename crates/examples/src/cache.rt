//! A cache of 64 values by their keys, which evicts the key that was used least recently.
ghost use Rattle.std.specs.Prelude.{◌≡◌, ◌≢◌, ◌↔◌, ◌<◌, ℕ, [], None, Some, IsSome, IsNone, IfSome, drop, length, nat_eq, count_by};
ghost use Rattle.ix_hashmap.specs.KeyLists.{IsInStep, used_last};
ghost use Rattle.ix_hashmap.specs.MapState.{map_value};
ghost use Rattle.ix_hashmap.specs.SlotTableState.{held_count, slot_table_new};
ghost use Rattle.ix_queue.specs.QueueSteps.{queue_front};

use ix_hashmap::FixedSizeHashMap;
use ix_queue::FixedSizeQueue;

/// The value of each key.
pub type Values = FixedSizeHashMap<u64, u64, 64>;

/// Keys, the one that was used least recently first.
pub type Order = FixedSizeQueue<u64, 64>;

/// Values and the order of their keys. They are in step: each key of one is in the other once.
#[derive(Drop)]
pub struct Cache {
    pub values: Values,
    pub order: Order,
    pub ghost in_step: { IsInStep nat_eq (map_value nat_eq values) (held_count values) order.items },
}

impl Cache {
    /// Creates an empty cache.
    pub fn new() -> Self
        ensures values { result.values ≡ slot_table_new 64 }
        ensures order { result.order.items ≡ [] }
    {
        Cache {
            values: Values::new(),
            order: Order::new(),
        }
    }

    /// Returns the value of a key, or `None` if the cache has no such key. The key is then the one that was used last.
    pub fn get(&mut self, key: u64) -> Option<u64>
        ensures value { result ≡ map_value nat_eq self.old.values key }
        ensures values { self.new.values ≡ self.old.values }
        ensures used { IsSome result → self.new.order.items ≡ used_last nat_eq key self.old.order.items }
        ensures refused { IsNone result → self.new ≡ self.old }
    {
        let value = *self.values.get_ref(&key)?;
        touch(&mut self.order, key);
        Some(value)
    }

    /// Sets the value of a key, which is then the one that was used last. If the key is new and there are 64 already, removes the
    /// key that was used least recently, and returns it.
    pub fn put(&mut self, key: u64, value: u64) -> Option<u64>
        ensures holds { map_value nat_eq self.new.values key ≡ Some value }
        ensures kept { (other : ℕ) → other ≢ key → result ≢ Some other
            → map_value nat_eq self.new.values other ≡ map_value nat_eq self.old.values other }
        ensures gone { IfSome result (λ oldest. map_value nat_eq self.new.values oldest ≡ None) }
        ensures oldest { IsSome result → result ≡ queue_front self.old.order }
        ensures full { IsSome result
            ↔ ((length self.old.order.items ≡ 64) × (map_value nat_eq self.old.values key ≡ None)) }
        ensures used { IsNone result → self.new.order.items ≡ used_last nat_eq key self.old.order.items }
        ensures evicted { IsSome result
            → self.new.order.items ≡ used_last nat_eq key (drop 1 self.old.order.items) }
    {
        if self.values.contains(&key) {
            set_held(&mut self.values, &mut self.order, key, value);
            return None;
        }
        let evicted = if self.values.len() == 64 {
            evict(&mut self.values, &mut self.order)
        } else {
            None
        };
        insert_new(&mut self.values, &mut self.order, key, value);
        evicted
    }
}

/// Sets the value of a key that is held, which is then the one that was used last.
fn set_held(values: &mut Values, order: &mut Order, key: u64, value: u64)
    requires held { IsSome (map_value nat_eq values.old key) }
    requires in_step { IsInStep nat_eq (map_value nat_eq values.old) (held_count values.old) order.old.items }
    ensures in_step { IsInStep nat_eq (map_value nat_eq values.new) (held_count values.new)
        order.new.items }
    ensures used { order.new.items ≡ used_last nat_eq key order.old.items }
    ensures holds { map_value nat_eq values.new key ≡ Some value }
    ensures kept { (other : ℕ) → other ≢ key
        → map_value nat_eq values.new other ≡ map_value nat_eq values.old other }
{
    touch(order, key);
    let replaced = values.replace(key, value).is_ok();
    prove!(replaced);
}

/// Inserts a key that is new, as the one that was used last.
fn insert_new(values: &mut Values, order: &mut Order, key: u64, value: u64)
    requires new { map_value nat_eq values.old key ≡ None }
    requires room { length order.old.items < 64 }
    requires free { 0 < length values.old.free }
    requires in_step { IsInStep nat_eq (map_value nat_eq values.old) (held_count values.old) order.old.items }
    ensures in_step { IsInStep nat_eq (map_value nat_eq values.new) (held_count values.new)
        order.new.items }
    ensures used { order.new.items ≡ used_last nat_eq key order.old.items }
    ensures holds { map_value nat_eq values.new key ≡ Some value }
    ensures kept { (other : ℕ) → other ≢ key
        → map_value nat_eq values.new other ≡ map_value nat_eq values.old other }
{
    let inserted = values.insert(key, value).is_ok();
    let pushed = order.push(key);
    prove!(inserted && pushed);
}

/// Moves a key to the back of the queue that has it once.
fn touch(order: &mut Order, key: u64)
    requires { count_by (nat_eq key) order.old.items ≡ 1 }
    ensures items { order.new.items ≡ used_last nat_eq key order.old.items }
    ensures counts { (other : ℕ) → count_by (nat_eq other) order.new.items
        ≡ count_by (nat_eq other) order.old.items }
    ensures len { length order.new.items ≡ length order.old.items }
{
    order.retain(|other| *other != key);
    let _ = order.push(key);
}

/// Removes the key that was used least recently and its value, and returns the key, or `None` if there is none.
fn evict(values: &mut Values, order: &mut Order) -> Option<u64>
    requires in_step { IsInStep nat_eq (map_value nat_eq values.old) (held_count values.old) order.old.items }
    ensures in_step { IsInStep nat_eq (map_value nat_eq values.new) (held_count values.new)
        order.new.items }
    ensures oldest { result ≡ queue_front order.old }
    ensures held { IfSome result (λ oldest. IsSome (map_value nat_eq values.old oldest)) }
    ensures gone { IfSome result (λ oldest. map_value nat_eq values.new oldest ≡ None) }
    ensures kept { (other : ℕ) → result ≢ Some other
        → map_value nat_eq values.new other ≡ map_value nat_eq values.old other }
    ensures rest { order.new.items ≡ drop 1 order.old.items }
    ensures none { IsNone result ↔ (order.old.items ≡ []) }
    ensures room { length order.new.items < 64 }
    ensures free { IsSome result → 0 < length values.new.free }
{
    let oldest = order.pop()?;
    values.remove(&oldest);
    Some(oldest)
}
