//! Tests of the guard: scripts with each request for memory refused in turn, and memory that is freed.

mod again;
mod plays;
mod runs;
mod scripts;
mod stops;
mod texts;
mod worlds;
