//! The devices of a script: a reader that is taken line by line, and a writer with replies before it.

mod fault;
mod input;
mod limits;
mod line_buffer;
mod line_reader;
mod partial_line;
mod reply_buffer;
mod reply_writer;

pub use fault::{ScriptFault, exit_status, fault_line};
pub use limits::{MAX_CAPACITY, MAX_LINE_LEN, MAX_NUMBERS};
pub(crate) use line_reader::LineReader;
pub(crate) use reply_buffer::{ReplyBuffer, ReplyPart};
pub(crate) use reply_writer::ReplyWriter;
