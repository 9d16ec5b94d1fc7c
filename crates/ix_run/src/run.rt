//! Scripts: lines are read as commands of `ix_commands`, and replies are written as lines.

mod containers;
mod devices;
mod grammar;
mod laws;
mod replies;
mod scripts;

pub use devices::{MAX_CAPACITY, MAX_LINE_LEN, MAX_NUMBERS, ScriptFault, exit_status, fault_line};
pub use grammar::{
    Container, FixedCapacity, Header, Storage, read_header, read_map_command,
    read_map_command as read_flat_command, read_number, read_queue_command, read_slot_map_command,
    read_slot_map_command as read_slot_command, read_slot_table_command,
    read_slot_table_command as read_table_command, read_string_command,
    read_string_command as read_text_command, read_vector_command,
    read_vector_command as read_vec_command,
};
pub use ix_commands::{
    FlatCommand, MapCommand, QueueCommand, Reply, ReplyError, Runs, SlotCommand, SlotMapCommand,
    SlotTableCommand, StringCommand, TableCommand, TextCommand, VecCommand, VectorCommand,
    dead_law, run_all, run_flat, run_map, run_queue, run_slot, run_slot_map, run_slot_table,
    run_string, run_table, run_text, run_vec, run_vector,
};
pub use laws::{line_law, reply_law, script_law, spelling_law};
pub use scripts::script;
