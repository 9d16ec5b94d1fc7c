//! The code that the tests of slot tables and of slot maps share.
use ix_slotmap::SlotMapKey;

/// The greatest generation.
pub const LAST: u32 = 4_294_967_295;

/// Returns the key of this index and generation.
pub fn key(index: usize, generation: u32) -> SlotMapKey {
    SlotMapKey::new(index, generation)
}
