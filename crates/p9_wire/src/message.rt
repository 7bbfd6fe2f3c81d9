//! What a message says, apart from its tag.

use p9_base::Qid;
use p9_fields::{Names, Qids, Stat};

/// What a client asks, in the order of the manual. Texts and data are slices of the frame.
#[derive(Drop)]
pub enum TMsg<'a> {
    /// Begins a session, as version(5): the greatest frame that the client will send or take, and
    /// the dialect that it speaks.
    Version {
        msize: u32,
        version: &'a str,
    },
    /// Asks for a fid to authenticate through, as attach(5).
    Auth {
        afid: u32,
        uname: &'a str,
        aname: &'a str,
    },
    /// Makes a fid for the root of a tree, as attach(5). `afid` is `NOFID` without authentication.
    Attach {
        fid: u32,
        afid: u32,
        uname: &'a str,
        aname: &'a str,
    },
    /// Asks that the message with this tag be given up, as flush(5).
    Flush {
        oldtag: u16,
    },
    /// Makes `newfid` stand for the file to which at most sixteen names lead from `fid`, as
    /// walk(5).
    Walk {
        fid: u32,
        newfid: u32,
        names: Names<'a>,
    },
    /// Makes a fid ready for reading or writing, as open(5).
    Open {
        fid: u32,
        mode: u8,
    },
    /// Makes a file in a directory and opens it, as open(5).
    Create {
        fid: u32,
        name: &'a str,
        perm: u32,
        mode: u8,
    },
    /// Asks for at most `count` bytes from an offset on, as read(5).
    Read {
        fid: u32,
        offset: u64,
        count: u32,
    },
    /// Gives bytes to be from an offset on, as read(5).
    Write {
        fid: u32,
        offset: u64,
        bytes: &'a [u8],
    },
    /// Forgets a fid, as clunk(5).
    Clunk {
        fid: u32,
    },
    /// Removes a file and forgets its fid, as remove(5).
    Remove {
        fid: u32,
    },
    /// Asks for the stat of a file, as stat(5).
    Stat {
        fid: u32,
    },
    /// Changes the stat of a file, as stat(5).
    Wstat {
        fid: u32,
        stat: Stat<'a>,
    },
}

/// What a server answers, in the order of the manual. Texts and data are slices of the frame.
#[derive(Drop)]
pub enum RMsg<'a> {
    /// The session's greatest frame and its dialect, `unknown` where it has none, as version(5).
    Version { msize: u32, version: &'a str },
    /// The root's qid, as attach(5).
    Attach { qid: Qid },
    /// Why the request is refused, as error(5). It may answer any request.
    Error { ename: &'a str },
    /// Nothing will be sent for the flushed tag any more, as flush(5).
    Flush,
    /// The qids of the names that were walked, at most sixteen, as walk(5).
    Walk { qids: Qids },
    /// The file's qid, and the most bytes that one message reads or writes, as open(5).
    Open { qid: Qid, iounit: u32 },
    /// The same of a new file, as open(5).
    Create { qid: Qid, iounit: u32 },
    /// The bytes that were read, as read(5).
    Read { bytes: &'a [u8] },
    /// How many bytes were written, as read(5).
    Write { count: u32 },
    /// The fid is forgotten, as clunk(5).
    Clunk,
    /// The file is removed, as remove(5).
    Remove,
    /// The stat of the file, as stat(5).
    Stat { stat: Stat<'a> },
    /// It is changed, as stat(5).
    Wstat,
}
