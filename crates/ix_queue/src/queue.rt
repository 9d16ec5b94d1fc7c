//! Queues: bounded lists whose elements are appended at the back and removed at the front.
//!
//! [`FixedSizeQueue`] is stored inline, [`Queue`] and [`RelocatableQueue`] allocate only when they are made.

mod clone;
mod drain;
mod get;
mod index;
mod iter;
mod kinds;
mod meta_queue;
mod order;
mod remove;
mod retain;

pub use drain::Drain;
pub use iter::{IntoIter, Iter};
pub use kinds::{FixedSizeQueue, Queue, QueueFamily, RelocatableQueue, UninitQueue};
pub use meta_queue::MetaQueue;
