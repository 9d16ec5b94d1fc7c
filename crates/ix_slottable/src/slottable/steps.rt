//! The steps that the methods of a slot table consist of.
ghost use Rattle.std.specs.Prelude.{◌≡◌, ◌≢◌, ◌+◌, ◌<◌, ◌≤◌, [], length, take, drop, true, false};
ghost use Rattle.ix_slottable.specs.SlotTableState.{IsHeld, IsKey, IsFree, held_count, entries_from};
ghost use Rattle.ix_slottable.specs.SlotTableSteps.{slot_table_fill, slot_table_insert};
ghost use Rattle.ix_slottable.specs.inner.FreeList.{IsLinkOf};

use crate::slottable::free_list::{first_after_remove, remove, remove_first};
use crate::slottable::{Link, MetaSlotTable, Storage};
use ix_tables::Touches;

impl<T, M: Storage<T>> MetaSlotTable<T, M> {
    /// Returns the link of a key in range.
    #[inline]
    pub(crate) fn link_of(&self, key: usize, touches: &mut Touches) -> Link
        requires { IsKey self.now key }
        ensures link { IsLinkOf result self.now key }
        ensures free { result.previous ≢ key → IsFree self.now key }
        ensures held { result.previous ≡ key → IsHeld self.now key }
        ensures touches { touches.new ≡ touches.old + 1 }
    {
        *self.links.get(key, touches)
    }

    /// Returns `true` if a key in range is free.
    #[inline]
    pub(crate) fn is_free(&self, key: usize, touches: &mut Touches) -> bool
        requires { IsKey self.now key }
        ensures free { result ≡ true → IsFree self.now key }
        ensures held { result ≡ false → IsHeld self.now key }
        ensures below { key < 18446744073709551615 }
        ensures touches { touches.new ≡ touches.old + 1 }
    {
        self.links.get(key, touches).is_free(key)
    }

    /// Returns the least held key that is `start` or greater. There must be one.
    #[doc(hidden)]
    #[inline]
    pub fn held_from(&self, start: usize) -> usize
        requires { 0 < length (entries_from start (drop start self.now.values)) }
        ensures held { IsHeld self.now result }
        ensures below { result < 18446744073709551615 }
        ensures entries { entries_from result (drop result self.now.values)
            ≡ entries_from start (drop start self.now.values) }
    {
        let mut touches = Touches::new();
        // Asked once before the loop: LLVM makes slower code if a loop is the whole body of another loop.
        if !self.is_free(start, &mut touches) {
            return start;
        }
        let mut key = start + 1;
        while self.is_free(key, &mut touches) {
            key += 1;
        }
        key
    }

    /// Returns the greatest held key that is less than `end`. There must be one.
    #[doc(hidden)]
    #[inline]
    pub fn held_before(&self, end: usize) -> usize
        requires within { end ≤ length self.now.values }
        requires some { 0 < length (entries_from 0 (take end self.now.values)) }
        ensures held { IsHeld self.now result }
        ensures below { result < end }
        ensures entries { entries_from 0 (take (result + 1) self.now.values)
            ≡ entries_from 0 (take end self.now.values) }
    {
        let mut touches = Touches::new();
        let last = end - 1;
        // Asked once before the loop, as `held_from` does.
        if !self.is_free(last, &mut touches) {
            return last;
        }
        let mut key = last - 1;
        while self.is_free(key, &mut touches) {
            key -= 1;
        }
        key
    }

    /// Inserts a value at a free key, which has this link and leaves the list of free keys.
    #[inline]
    pub(crate) fn fill(&mut self, key: usize, link: Link, value: T, touches: &mut Touches)
        requires free { IsFree self.old key }
        requires link { IsLinkOf link self.old key }
        ensures map { self.new ≡ slot_table_fill self.old key value }
        ensures count { held_count self.new ≡ held_count self.old + 1 }
        ensures room { length self.new.free + 1 ≡ length self.old.free }
        ensures touches { touches.new ≤ touches.old + 8 }
        ensures rises { touches.old ≤ touches.new }
    {
        remove(&mut self.links, key, link, touches);
        self.first = first_after_remove(self.first, link);
        self.values.put(key, value, touches);
        self.len += 1;
    }

    /// Inserts a value at the first free key. No key is before it in the list, so there is less to do than in
    /// [`MetaSlotTable::fill`].
    #[inline]
    pub(crate) fn fill_first(&mut self, value: T, touches: &mut Touches)
        requires { self.old.free ≢ [] }
        ensures map { self.new ≡ slot_table_insert self.old value }
        ensures touches { touches.new ≤ touches.old + 8 }
        ensures rises { touches.old ≤ touches.new }
    {
        let key = self.first;
        let next = self.links.get(key, touches).next;
        remove_first(&mut self.links, key, next, touches);
        self.first = next;
        self.values.put(key, value, touches);
        self.len += 1;
    }

    /// Replaces the value at a held key.
    #[inline]
    pub(crate) fn replace(&mut self, key: usize, value: T, touches: &mut Touches)
    where
        T: Drop,
        requires { IsHeld self.old key }
        ensures map { self.new ≡ slot_table_fill self.old key value }
        ensures count { held_count self.new ≡ held_count self.old }
        ensures free { self.new.free ≡ self.old.free }
        ensures touches { touches.new ≡ touches.old + 2 }
    {
        *self.values.get_mut(key, touches) = value;
    }
}
