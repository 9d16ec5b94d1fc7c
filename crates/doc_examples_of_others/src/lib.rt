//! An example of each method and type of the library except maps, as a user writes it: of vectors, strings, tables, queues,
//! options, names, JSON, cells, commands and scripts. A line `Shows` above an example names what it shows as the reference does.
//! The examples here are proved too, since they call methods with a condition that little other proved code meets. Those in
//! `unproved/` are only run.
#![tactic(auto)]

#[cfg(test)]
mod byte_cells;
#[cfg(test)]
mod lines;
#[cfg(test)]
mod options;
#[cfg(test)]
mod tables;
