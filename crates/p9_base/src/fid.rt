//! The number that is no fid.

/// The fid that names no file, as the afid of an attach without authentication, as attach(5).
pub const NOFID: u32 = 0xFFFF_FFFF;
