//! The exit statuses of the program.

/// The command did its work; of a judgement, that it is a yes.
pub const DONE: u8 = 0;

/// The input has a fault; or the judgement is a no, or the certificate has a gap.
pub const REFUSED: u8 = 1;

/// The words are no command line.
pub const BAD_COMMAND_LINE: u8 = 2;

/// An allocation failed.
pub const OUT_OF_MEMORY: u8 = 3;

/// Input or output failed, or a listener can't be made.
pub const INPUT_OR_OUTPUT_FAILED: u8 = 4;
