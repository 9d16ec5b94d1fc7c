//! Tests of byte-wise atomic cells and sequenced cells beside their contracts: the encoding of each type, bytes that are torn, each
//! function once, and threads that share a cell. A type with an encoding is here too, as a user would write it. In unproved/, which
//! no proof reads: further lists of steps, pairs and arrays, the printed errors, and sizes.
#![tactic(auto)]

#[cfg(test)]
mod cell_tests;
#[cfg(test)]
mod encoding_tests;
#[cfg(test)]
mod foo;
#[cfg(test)]
mod readings;
#[cfg(test)]
mod sequenced_tests;
#[cfg(test)]
mod sequenced_threads;
#[cfg(test)]
mod several_writers;
#[cfg(test)]
mod steps;
#[cfg(test)]
mod thread_tests;
#[cfg(test)]
mod word_tests;
