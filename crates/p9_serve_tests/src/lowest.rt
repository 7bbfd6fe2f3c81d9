//! Tests of the lowest crates: of p9_base and p9_clean, of what p9_testing refuses, of the first frame of a stream of
//! p9_wire, and of errors of p9_words.

mod base;
mod clean;
mod frames;
mod testing;
mod words;
