//! An example of each method and type of slot tables, slot maps, flat maps, hash maps and their storages, as a user writes it, and
//! the bytes that a slot of any container takes. A line `Shows` above an example names what it shows as the reference does. All are
//! in `unproved/`, where they are only run.
#![tactic(auto)]
