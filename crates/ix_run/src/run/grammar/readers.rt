//! Lines as commands: a reader for the lines of each container.

mod flatmap;
mod queue;
mod slotmap;
mod slottable;
mod string;
mod vector;

pub use flatmap::read_map_command;
pub use queue::read_queue_command;
pub use slotmap::read_slot_map_command;
pub use slottable::read_slot_table_command;
pub use string::read_string_command;
pub use vector::read_vector_command;
