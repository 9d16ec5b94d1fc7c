//! The conclusions of a caller from the contracts of its calls, with no proof written, or one line.
#![tactic(auto)]

/// Structs in cells, and properties of all values of a cell.
pub mod cells;
/// Calls with a closure that computes a test or a value.
pub mod closures;
/// Calls with a condition.
pub mod conditions;
/// The number of elements of a container, how many more fit, and the capacity of inline kinds.
pub mod counts;
/// The capacity of inline queues.
pub mod inline_queues;
/// The capacity of inline tables and maps, and that a new one has no key.
pub mod known;
/// The number of keys of a map, and how many more fit.
pub mod map_counts;
/// The elements of a queue.
pub mod members;
/// Strings: the maximum number of bytes, and bytes that are removed.
pub mod strings;
/// Vectors: elements that are changed in place, and the maximum number of elements.
pub mod vectors;
/// Names as keys.
pub mod words;
