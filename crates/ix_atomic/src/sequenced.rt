//! A cell that threads write and read without a lock: a sequence lock for several writers.
//!
//! A [`SequencedByteAtomic`] has a version and the encoding of a value, eight bytes a word. The version is even between two writes
//! and odd during one. It begins at 0, and each write raises it by 2.
//!
//! A writer loads the version, and exchanges an even one for the next odd one. At most one writer succeeds, and the others are told
//! that the cell is busy. A reader loads the version, the bytes, and the version again. The value is whole if the reader finds the
//! same even version twice.
//!
//! All finished writes are one history. A seat is a handle for one reader or writer. The holder of a [`WriterSeat`] knows a
//! beginning of the history, and which of its places are the holder's own. No place belongs to two seats.
//! [`merge`](SequencedByteAtomic::merge) and [`merge_reader`](SequencedByteAtomic::merge_reader) bring together what two seats
//! know.
//!
//! The holders of seats write and read, and no one ever waits for another. A writer's seat can't be dropped, so a function that
//! holds one can't return early by `?`. `writer` and `reader` never fail; match the result of a write.
//!
//! iceoryx2-bb-container has no such cell: the documentation of its `MaybeTorn` asks users to bring this synchronization.

mod data_words;
mod errors;
mod rule;
mod seats;
mod sequenced_byte_atomic;

pub use errors::{Interfered, TryWriteError, Unfinished};
pub use seats::{ReaderSeat, WriterSeat};
pub use sequenced_byte_atomic::SequencedByteAtomic;
