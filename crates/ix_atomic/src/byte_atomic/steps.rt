//! The step machine of byte cells: the loads that a list of steps allows, and their consequences.
//!
//! A thread writes a value byte by byte, while another one reads it byte by byte. Here such steps are values, in a list in
//! the order in which they happen. [`replay`] tells whether each load has the byte that was stored before it. [`plain_read_law`]
//! states which bytes a read then loads if no write interrupts it.
//!
//! [`replay_versioned`] and [`versioned_read_law`] do the same for a writer that raises a version before and after each write. A
//! reader that loads the same even version before and after the bytes has one value.
//!
//! All functions are pure: they do not allocate, and start no thread.

mod byte_step;
mod plain;
mod versioned;
mod versions;

pub use plain::{Act, Step, plain_read_law, replay};
pub use versioned::{VersionedStep, replay_versioned, versioned_read_law};
pub use versions::{VersionsUsedUp, next_versions};
