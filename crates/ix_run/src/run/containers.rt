//! The containers of scripts: making each of them, and serving lines on it.

mod flatmap;
mod making;
mod queue;
mod served;
mod serving;
mod slotmap;
mod slottable;
mod string;
mod vector;

pub(crate) use making::serve_header;
pub(crate) use serving::next_header;
