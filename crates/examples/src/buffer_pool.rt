//! A pool of buffers that are lent and given back. After a buffer is given back, the methods return `None` or `false` for its
//! handle.
ghost use Rattle.std.specs.Prelude.{◌≡◌, ◌≢◌, ◌↔◌, ◌+◌, ◌<◌, ◌≤◌, ℕ, List, ◌++◌, false, [], None, Some, IsTrue, IsSome, IsNone, IfSome, length, option_map};
ghost use Rattle.std.specs.Bool.{OnFalse};
ghost use Rattle.ix_maps.specs.Generations.{SlotKey, greatest_generation, slot_map_value, slot_map_new, IsDead};
ghost use Rattle.ix_maps.specs.SlotMapSteps.{slot_map_insert};
ghost use Rattle.ix_maps.specs.SlotTableState.{IsFree};

use ix_cells::{StaticVec, Vector};
use ix_maps::{FixedSizeSlotMap, SlotMapKey};

/// A buffer of at most 256 bytes.
pub type Buffer = StaticVec<u8, 256>;

/// A pool of 8 buffers.
#[derive(Drop)]
pub struct BufferPool {
    /// The buffers that are lent, by their handles.
    pub lent: FixedSizeSlotMap<Buffer, 8>,
    /// The number of buffers that may still be lent.
    pub free: usize,
    pub ghost counted: { free ≡ length lent.slots.free },
}

impl BufferPool {
    /// Creates a pool whose buffers are all free.
    pub fn new() -> Self
        ensures lent { result.lent ≡ slot_map_new 8 0 }
        ensures free { result.free ≡ 8 }
    {
        BufferPool {
            lent: FixedSizeSlotMap::new(),
            free: 8,
        }
    }

    /// Lends an empty buffer and returns its handle, or `None` if no buffer is free.
    pub fn lend(&mut self) -> Option<SlotMapKey>
        ensures lent { IfSome result (λ handle. slot_map_value self.new.lent handle ≡ Some []) }
        ensures was_free { IfSome result (λ handle. IsFree self.old.lent.slots handle.index) }
        ensures none { IsNone result ↔ (self.old.free ≡ 0) }
        ensures free { IsSome result → self.new.free + 1 ≡ self.old.free }
        ensures refused { IsNone result → self.new ≡ self.old }
        ensures kept { (other : SlotKey) → IsSome (slot_map_value self.old.lent other)
            → slot_map_value self.new.lent other ≡ slot_map_value self.old.lent other }
        ensures dead { (other : SlotKey) → IsDead self.old.lent other → IsDead self.new.lent other }
        // No other buffer is lent.
        ensures pool { self.new.lent ≡ slot_map_insert self.old.lent [] }
    {
        let handle = self.lent.insert(Buffer::new())?;
        self.free -= 1;
        Some(handle)
    }

    /// Appends `bytes` to a buffer that is lent. Returns `false` if the handle is of no lent buffer, or if there is no room for all
    /// of them.
    pub fn append(&mut self, handle: SlotMapKey, bytes: &[u8]) -> bool
        ensures appended { IsTrue result → slot_map_value self.new.lent handle
            ≡ option_map (λ buffer. buffer ++ bytes.now) (slot_map_value self.old.lent handle) }
        ensures held { IsTrue result → IsSome (slot_map_value self.old.lent handle) }
        ensures fits { (buffer : List ℕ) → slot_map_value self.old.lent handle ≡ Some buffer
            → (IsTrue result ↔ length buffer + length bytes.now ≤ 256) }
        ensures stale { IsDead self.old.lent handle → result ≡ false }
        ensures refused { OnFalse result (self.new ≡ self.old) }
        ensures free { self.new.free ≡ self.old.free }
        ensures kept { (other : SlotKey) → other ≢ handle
            → slot_map_value self.new.lent other ≡ slot_map_value self.old.lent other }
        ensures dead { (other : SlotKey) → IsDead self.old.lent other → IsDead self.new.lent other }
    {
        match self.lent.get_mut(handle) {
            Some(buffer) => buffer.extend_from_slice(bytes).is_ok(),
            None => false,
        }
    }

    /// Gives a buffer back and returns its bytes, or `None` if the handle is of no lent buffer. A handle that found a buffer is
    /// dead then. The buffer is free, unless its slot has had all of its 2³² handles.
    pub fn give_back(&mut self, handle: SlotMapKey) -> Option<Buffer>
        ensures value { result ≡ slot_map_value self.old.lent handle }
        ensures killed { IsSome result → IsDead self.new.lent handle }
        ensures dead { (other : SlotKey) → IsDead self.old.lent other → IsDead self.new.lent other }
        ensures free { IsSome result → handle.generation < greatest_generation
            → self.new.free ≡ self.old.free + 1 }
        ensures retired { IsSome result → handle.generation ≡ greatest_generation
            → self.new.free ≡ self.old.free }
        ensures refused { IsNone result → self.new ≡ self.old }
        ensures kept { (other : SlotKey) → other ≢ handle
            → slot_map_value self.new.lent other ≡ slot_map_value self.old.lent other }
    {
        let buffer = self.lent.remove(handle)?;
        if handle.generation() < u32::MAX {
            // One of the 8 buffers is neither lent nor free now.
            prove!(self.lent.len() + self.free < 8);
            self.free += 1;
        }
        Some(buffer)
    }
}
