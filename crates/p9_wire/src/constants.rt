//! The numbers of the protocol, as intro(5). `NOTAG`, `IOHDRSZ` and the message types
//! have their names from the header file of fcall(2).

/// The greatest number of bytes in a frame, its size among them. An msize is at most this.
pub const MSIZE_MAX: u32 = 1_048_576;

/// The tag of a Tversion, which belongs to no other message.
pub const NOTAG: u16 = 0xFFFF;

/// The bytes before a body: `size[4] type[1] tag[2]`.
pub const HEADER: usize = 7;

/// The bytes of an Rread before its data: its header and their count.
pub const READ_HEADER: usize = HEADER + 4;

/// The bytes of a frame that a read or a write leaves to what is not data: an iounit is the msize
/// less these.
pub const IOHDRSZ: u32 = 24;

/// The bytes of a qid: `type[1] vers[4] path[8]`.
pub const QID: usize = 13;

// The numbers of the message types. An Rauth (103) is never sent, and a Terror (106) is illegal, so
// neither is here.
pub const TVERSION: u8 = 100;

pub const RVERSION: u8 = 101;

pub const TAUTH: u8 = 102;

pub const TATTACH: u8 = 104;

pub const RATTACH: u8 = 105;

pub const RERROR: u8 = 107;

pub const TFLUSH: u8 = 108;

pub const RFLUSH: u8 = 109;

pub const TWALK: u8 = 110;

pub const RWALK: u8 = 111;

pub const TOPEN: u8 = 112;

pub const ROPEN: u8 = 113;

pub const TCREATE: u8 = 114;

pub const RCREATE: u8 = 115;

pub const TREAD: u8 = 116;

pub const RREAD: u8 = 117;

pub const TWRITE: u8 = 118;

pub const RWRITE: u8 = 119;

pub const TCLUNK: u8 = 120;

pub const RCLUNK: u8 = 121;

pub const TREMOVE: u8 = 122;

pub const RREMOVE: u8 = 123;

pub const TSTAT: u8 = 124;

pub const RSTAT: u8 = 125;

pub const TWSTAT: u8 = 126;

pub const RWSTAT: u8 = 127;
