//! The exit statuses of a program.

/// All is done.
pub const DONE: u8 = 0;

/// What was asked is refused.
pub const REFUSED: u8 = 1;

/// The words are no command line.
pub const BAD_COMMAND_LINE: u8 = 2;

/// An allocation failed.
pub const OUT_OF_MEMORY: u8 = 3;

/// Input or output failed.
pub const INPUT_OR_OUTPUT_FAILED: u8 = 4;
