//! The grammar of lines: which header or command a line spells.

mod header;
mod name_table;
mod readers;
mod reading;
mod words;

pub use header::{Container, FixedCapacity, Header, Storage, read_header};
pub use readers::{
    read_map_command, read_queue_command, read_slot_map_command, read_slot_table_command,
    read_string_command, read_vector_command,
};
pub use reading::read_number;
