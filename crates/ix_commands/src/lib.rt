//! Commands of containers, the replies to them, and runs of commands.
//!
//! A command names a call of a container, and a reply is the result of the call. A list of commands runs on any kind of its
//! container. The contract of a run is the fold of the container's model.
#![tactic(auto)]

mod command;
mod map;
mod queue;
mod reply;
mod runs;
mod slotmap;
mod slottable;
mod string;
mod vector;

pub use command::{
    MapCommand, MapCommand as FlatCommand, QueueCommand, SlotMapCommand,
    SlotMapCommand as SlotCommand, SlotTableCommand, SlotTableCommand as TableCommand,
    StringCommand, StringCommand as TextCommand, VectorCommand, VectorCommand as VecCommand,
};
pub use map::{run_map, run_map as run_flat};
pub use queue::run_queue;
pub use reply::{Reply, ReplyError};
pub use runs::{Runs, run_all};
pub use slotmap::{dead_law, run_slot_map, run_slot_map as run_slot};
pub use slottable::{run_slot_table, run_slot_table as run_table};
pub use string::{run_string, run_string as run_text};
pub use vector::{run_vector, run_vector as run_vec};
