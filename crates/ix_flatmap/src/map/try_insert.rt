//! The methods of a map that insert a key unless it has an equal one.
ghost use Rattle.std.specs.Prelude.{◌≡◌, ◌≢◌, ◌+◌, ◌↔◌, [], length, Some, None, IsSome, IsOk, IsErr, IfOk, OnErr, false, unwrap_or};
ghost use Rattle.std.specs.Borrow.{sem, LendsIfOk};
ghost use Rattle.std.specs.Option.{UnwrapsOrElse};
ghost use Rattle.std.specs.Result.{IfErr};
ghost use Rattle.ix_slottable.specs.SlotTableState.{held_count};
ghost use Rattle.ix_flatmap.specs.MapState.{HasDistinctKeys, map_value};
ghost use Rattle.ix_flatmap.specs.MapSteps.{map_insert_result, map_insert, map_replace};

use crate::map::meta_map::seat;
use crate::map::{KeyIndex, Keyed, MapError, MetaMap, Pair};
use ix_slottable::slottable::Storage;
use ix_tables::Table;
use std::mem;

impl<K: Eq + Drop, V: Drop, M: Storage<Pair<K, V>>, I: KeyIndex<K, V>> MetaMap<Pair<K, V>, M, I> {
    ghost use Rattle.ix_flatmap.specs.contracts.map.meta_map.MetaMap.{the_row};
    ghost use Rattle.ix_flatmap.specs.contracts.map.pair.Pair as pair;

    /// Inserts `key` with `value`, or returns both with an error.
    ///
    /// The error is [`MapError::KeyAlreadyExists`] if the map has an equal key, and otherwise [`MapError::IsFull`] if the map is
    /// full.
    #[inline]
    pub fn try_insert(&mut self, key: K, value: V) -> Result<(), (MapError, K, V)>
        ensures inserted { IsOk result ↔ IsOk (map_insert_result K.eq self.old key) }
        ensures error { IfErr result (λ refused.
            IfErr (map_insert_result K.eq self.old key) (λ error. refused.0 ≡ error)) }
        ensures returned { IfErr result (λ refused. (refused.1 ≡ key) × (refused.2 ≡ value)) }
        ensures map { self.new ≡ map_insert K.eq self.old key value }
        ensures absent { IsOk result → map_value K.eq self.old key ≡ None }
        ensures holds { IsOk result → map_value K.eq self.new key ≡ Some value }
        ensures refused { OnErr result (self.new ≡ self.old) }
        ensures kept { (other : K) → K.eq other key ≡ false
            → map_value K.eq self.new other ≡ map_value K.eq self.old other }
        ensures distinct { HasDistinctKeys K.eq self.new }
        ensures count { IsOk result → held_count self.new ≡ held_count self.old + 1 }
        ensures room { IsOk result → length self.new.free + 1 ≡ length self.old.free }
        ensures known { M.Items.Table.IsLen (length self.old.values) }
    {
        let seat = seat(&self.index, &self.pairs, &key);
        if self.index.place(&self.pairs, seat, &key).is_some() {
            return Err((MapError::KeyAlreadyExists, key, value));
        }
        match self
            .index
            .insert(&mut self.pairs, seat, Pair { key, value })
        {
            Ok(_) => Ok(()),
            Err(pair) => Err((MapError::IsFull, pair.key, pair.value)),
        }
    }

    /// Inserts `key` with `value`. If the map has an equal key, gives that key `value` instead, returns its old value, and drops
    /// `key`.
    ///
    /// Returns `key` and `value` as the error if the map is full and has no equal key.
    pub fn replace(&mut self, key: K, value: V) -> Result<Option<V>, (K, V)>
        ensures value { IfOk result (λ old. old ≡ map_value K.eq self.old key) }
        ensures full { IsErr result ↔ ((map_value K.eq self.old key ≡ None) × (self.old.free ≡ [])) }
        ensures returned { IfErr result (λ refused. refused ≡ (key, value)) }
        ensures map { self.new ≡ map_replace K.eq self.old key value }
        ensures holds { IsOk result → map_value K.eq self.new key ≡ Some value }
        ensures refused { OnErr result (self.new ≡ self.old) }
        ensures kept { (other : K) → K.eq other key ≡ false
            → map_value K.eq self.new other ≡ map_value K.eq self.old other }
        ensures count { IsOk result → map_value K.eq self.old key ≡ None
            → held_count self.new ≡ held_count self.old + 1 }
        ensures room { IsOk result → map_value K.eq self.old key ≡ None
            → length self.new.free + 1 ≡ length self.old.free }
        ensures same_count { IsSome (map_value K.eq self.old key)
            → held_count self.new ≡ held_count self.old }
        ensures same_free { IsSome (map_value K.eq self.old key) → self.new.free ≡ self.old.free }
        ensures known { M.Items.Table.IsLen (length self.old.values) }
    {
        let seat = seat(&self.index, &self.pairs, &key);
        if let Some(place) = self.index.place(&self.pairs, seat, &key) {
            return Ok(Some(mem::replace(self.value_mut(place), value)));
        }
        match self
            .index
            .insert(&mut self.pairs, seat, Pair { key, value })
        {
            Ok(_) => Ok(None),
            Err(pair) => Err((pair.key, pair.value)),
        }
    }

    /// Returns a mutable reference to the value of `key`. If the map has no equal key, inserts `key` with the value that `f`
    /// returns. If the map has one, drops `key` and does not call `f`.
    ///
    /// Returns `key` as the error if the map is full and has no equal key. `f` is not called then.
    pub fn get_or_insert_with<F: FnOnce() -> V>(&mut self, key: K, f: F) -> Result<&mut V, K>
        requires { map_value K.eq self.old key ≡ None → self.old.free ≢ [] → F.pre f }
        ensures* writes_back { sem 𝓛
            (LendsIfOk (the_row (pair.the_row K.row V.row) M.row I.row M.Items.row M.Links.row ⟦<Pair<K, V> as Keyed>⟧ M.Items.Table M.Links.Table I.PairIndex)
            V.row self.entry result (map_replace K.eq self.old key) self.old) }
        ensures value { IfOk result (λ value. UnwrapsOrElse (map_value K.eq self.old key) (F.post f) value.now) }
        // If the closure computes a value, a new key has that value.
        ensures computed { (new : V) → ((returned : V) → F.post f returned → returned ≡ new)
            → IfOk result (λ value. value.now ≡ unwrap_or (map_value K.eq self.old key) new) }
        ensures full { IsErr result ↔ ((map_value K.eq self.old key ≡ None) × (self.old.free ≡ [])) }
        ensures returned { IfErr result (λ refused. refused ≡ key) }
        // Whatever value is written, the key has it, and any other key keeps its own.
        ensures holds { (written : V) → IsOk result
            → map_value K.eq (map_replace K.eq self.old key written) key ≡ Some written }
        ensures kept { (written : V) (other : K) → K.eq other key ≡ false
            → map_value K.eq (map_replace K.eq self.old key written) other
            ≡ map_value K.eq self.old other }
        // A new key raises the number of keys by one. A key that the map has leaves it unchanged.
        ensures count { (written : V) → IsOk result → map_value K.eq self.old key ≡ None
            → held_count (map_replace K.eq self.old key written) ≡ held_count self.old + 1 }
        ensures room { (written : V) → IsOk result → map_value K.eq self.old key ≡ None
            → length (map_replace K.eq self.old key written).free + 1 ≡ length self.old.free }
        ensures same_count { (written : V) → IsSome (map_value K.eq self.old key)
            → held_count (map_replace K.eq self.old key written) ≡ held_count self.old }
        ensures same_free { (written : V) → IsSome (map_value K.eq self.old key)
            → (map_replace K.eq self.old key written).free ≡ self.old.free }
        ensures known { M.Items.Table.IsLen (length self.old.values) }
    {
        let seat = seat(&self.index, &self.pairs, &key);
        if let Some(place) = self.index.place(&self.pairs, seat, &key) {
            return Ok(self.value_mut(place));
        }
        let Some(place) = self.pairs.next_free_key() else {
            return Err(key);
        };
        let pair = Pair { key, value: f() };
        match self.index.insert(&mut self.pairs, seat, pair) {
            Ok(_) => Ok(self.value_mut(place)),
            Err(_) => unreachable!(),
        }
    }
}
