//! Tests of containers in types of a user: in structs, enums, tuples and other containers. Each is passed by value through a
//! generic function and to another thread. All are in `unproved/`, where they are only run. Structs that are proved are in the crate
//! of examples.
#![tactic(auto)]
