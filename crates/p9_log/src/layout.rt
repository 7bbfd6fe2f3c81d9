//! How a file of blocks is laid out. A block is a sync gate, a write gate, the number of its bytes in
//! eight bytes, the lowest first, and its bytes. A gate is open where it is 1.

/// How many bytes the gates and the size of a block have. So much room is in front of the bytes of a
/// block in a buffer.
pub const HEAD: usize = 10;

/// How many bytes the gates of the next block have. So much room is behind the bytes of a block in a
/// buffer.
pub const TAIL: usize = 2;

// A block without bytes, whose sync gate is closed, and the gates of the next block.
pub(crate) const MARK: [u8; 12] = [0, 1, 0, 0, 0, 0, 0, 0, 0, 0, 1, 0];

// The gates behind a block: behind what isn't synced the sync gate may be open.
pub(crate) const NEXT: [u8; TAIL] = [1, 0];

// The gates of a block. Of one that is added to a log only the second is written, and it is written last.
pub(crate) const OPEN: [u8; 2] = [1, 1];

// Where the file lacks at most so many bytes for a block, it is made longer ahead of the block, by up to twice as many zeros: a
// system keeps large pieces of a file at less cost than many small ones. A block for which it lacks more makes it longer by itself.
pub(crate) const AHEAD: usize = 1 << 16;

// What is written ahead of the blocks of a log.
pub(crate) const ZEROS: [u8; 2 * AHEAD] = [0; 2 * AHEAD];

// The most bytes of a block, and the greatest offset at which the blocks of a log end, where one is
// added or the log is opened.
pub(crate) const MOST: usize = 1 << 60;
