//! Queues: first in, first out, with a capacity that is set when they are made.
//!
//! A queue is generic over the [`Table`](ix_tables::Table) that holds its elements, and the kinds of storage are aliases of one
//! type. Contracts see a bounded list.
#![tactic(auto)]

pub mod queue;

pub use ix_tables::RelocatableContainer;
pub use queue::{FixedSizeQueue, MetaQueue, Queue, QueueFamily, RelocatableQueue, UninitQueue};
