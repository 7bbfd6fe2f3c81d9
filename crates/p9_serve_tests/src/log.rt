//! Tests of p9_log: the bytes of a log's file, a draft that takes the place of a log, and what is recovered
//! where a block was torn, and where each call of the device fails in turn. Tests of p9_disk: a log in a
//! file of a folder.

mod devices;
mod failing;
mod files;
mod logs;
mod told;
