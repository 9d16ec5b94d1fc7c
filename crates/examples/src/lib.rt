//! Examples of the library, each in a file of its own, which docs/EXAMPLES.md lists.
#![tactic(auto)]

pub mod arena;
pub mod buffer_pool;
pub mod cache;
pub mod configuration;
pub mod directory;
pub mod groups;
pub mod iteration;
pub mod json_message;
pub mod keep_even;
pub mod log_position;
pub mod message;
pub mod own_fields;
pub mod peers;
pub mod queues;
pub mod registry;
pub mod rising_limit;
pub mod rolling_window;
pub mod scheduler;
pub mod scripts;
pub mod service_sessions;
pub mod session_table;
pub mod sessions_by_name;
pub mod shared_range;
pub mod station;
pub mod strings;
pub mod temperature;
pub mod three_errors;
pub mod unit_name;
pub mod vectors;
