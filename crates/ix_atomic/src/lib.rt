//! Cells that threads share without a lock.
//!
//! A byte-wise atomic cell ([`byte_atomic`]) stores the encoding of a value, one atomic byte at a time. Threads that read
//! and write it at once may mix the bytes of several values, so a reader gets a [`MaybeTorn`].
//!
//! A sequenced cell ([`sequenced`]) has a version beside the bytes, so that its readers can tell whether a value is whole.
#![tactic(auto)]

pub mod byte_atomic;
pub mod sequenced;

pub use byte_atomic::steps::VersionsUsedUp;
pub use byte_atomic::{
    AtomicCopy, AtomicFields, Fields, FixedSizeByteAtomic, MaybeTorn, RelocatableByteAtomic, Ruled,
    UninitByteAtomic, ValueRule, pack_word, unpack_word,
};
pub use sequenced::{
    Interfered, ReaderSeat, SequencedByteAtomic, TryWriteError, Unfinished, WriterSeat,
};
