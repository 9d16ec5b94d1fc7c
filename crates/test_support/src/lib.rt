//! The code that the crates of tests share:
//!
//! - [`Findings`] note the unexpected results of a test;
//! - [`check_rows`] runs a table of commands and the replies to them, and [`reply_of_option`] and [`reply_of_key`] make such
//!   replies;
//! - items note their drops;
//! - [`hash_of`], [`order_of`] and [`check_text`] know a value by a trait alone;
//! - [`fed_by`] returns the digits that a value feeds to a hasher;
//! - [`check_memory_sizes`] checks how many bytes a container allocates, [`check_drawn_sizes`] has ample memory, and
//!   [`check_capacities`] also has sizes for which no memory is enough;
//! - [`check_equality`] compares maps of any kind;
//! - [`Counting`] is a table that counts the calls of its methods;
//! - [`devices`] fail.
//!
//! ```text
//! let notes = Notes::new(0);
//! drop(Noted::new(3, &notes));
//! drop(Noted::new(5, &notes));
//! notes.drops();    // 35
//! ```
#![tactic(auto)]

mod blocks;
mod by_traits;
mod counting;
pub mod devices;
mod drawn_sizes;
mod findings;
mod maps;
mod noted;
mod recorder;
mod replies;
mod rows;

pub use blocks::check_memory_sizes;
pub use by_traits::{check_display, check_printed, check_text, hash_of, order_of};
pub use counting::{Counting, CountingTable, Tally};
pub use drawn_sizes::{LARGE, check_capacities, check_drawn_sizes};
pub use findings::Findings;
pub use maps::check_equality;
pub use noted::{Noted, Notes};
pub use recorder::fed_by;
pub use replies::{reply_of_key, reply_of_option};
pub use rows::{check_rows, check_tables, made};
