//! The words that begin a line, with the fields that are after each.

ghost use Rattle.std.specs.Prelude.{◌≡◌, codes};
ghost use Rattle.p9_words.specs.Verb.{fields_of, type_of, verb_text};

use crate::form::{Form, Width};
use crate::key::Key;

/// The word that begins a line: the name of a message of 9P2000.
#[derive(Clone, Copy, Debug, PartialEq, Eq)]
pub enum Verb {
    Tversion,
    Rversion,
    Tauth,
    Tattach,
    Rattach,
    Rerror,
    Tflush,
    Rflush,
    Twalk,
    Rwalk,
    Topen,
    Ropen,
    Tcreate,
    Rcreate,
    Tread,
    Rread,
    Twrite,
    Rwrite,
    Tclunk,
    Rclunk,
    Tremove,
    Rremove,
    Tstat,
    Rstat,
    Twstat,
    Rwstat,
}

const U8: Form = Form::Number(Width::U8);

const U16: Form = Form::Number(Width::U16);

const U32: Form = Form::Number(Width::U32);

const U64: Form = Form::Number(Width::U64);

/// Every message.
pub(crate) const VERBS: [Verb; 26] = [
    Verb::Tversion,
    Verb::Rversion,
    Verb::Tauth,
    Verb::Tattach,
    Verb::Rattach,
    Verb::Rerror,
    Verb::Tflush,
    Verb::Rflush,
    Verb::Twalk,
    Verb::Rwalk,
    Verb::Topen,
    Verb::Ropen,
    Verb::Tcreate,
    Verb::Rcreate,
    Verb::Tread,
    Verb::Rread,
    Verb::Twrite,
    Verb::Rwrite,
    Verb::Tclunk,
    Verb::Rclunk,
    Verb::Tremove,
    Verb::Rremove,
    Verb::Tstat,
    Verb::Rstat,
    Verb::Twstat,
    Verb::Rwstat,
];

impl Verb {
    /// The word.
    pub fn text(self) -> &'static str
        ensures { result.now ≡ verb_text self }
    {
        match self {
            Verb::Tversion => "Tversion",
            Verb::Rversion => "Rversion",
            Verb::Tauth => "Tauth",
            Verb::Tattach => "Tattach",
            Verb::Rattach => "Rattach",
            Verb::Rerror => "Rerror",
            Verb::Tflush => "Tflush",
            Verb::Rflush => "Rflush",
            Verb::Twalk => "Twalk",
            Verb::Rwalk => "Rwalk",
            Verb::Topen => "Topen",
            Verb::Ropen => "Ropen",
            Verb::Tcreate => "Tcreate",
            Verb::Rcreate => "Rcreate",
            Verb::Tread => "Tread",
            Verb::Rread => "Rread",
            Verb::Twrite => "Twrite",
            Verb::Rwrite => "Rwrite",
            Verb::Tclunk => "Tclunk",
            Verb::Rclunk => "Rclunk",
            Verb::Tremove => "Tremove",
            Verb::Rremove => "Rremove",
            Verb::Tstat => "Tstat",
            Verb::Rstat => "Rstat",
            Verb::Twstat => "Twstat",
            Verb::Rwstat => "Rwstat",
        }
    }

    /// The number of the message's type.
    pub fn kind(self) -> u8
        ensures { result ≡ type_of self }
    {
        match self {
            Verb::Tversion => 100,
            Verb::Rversion => 101,
            Verb::Tauth => 102,
            Verb::Tattach => 104,
            Verb::Rattach => 105,
            Verb::Rerror => 107,
            Verb::Tflush => 108,
            Verb::Rflush => 109,
            Verb::Twalk => 110,
            Verb::Rwalk => 111,
            Verb::Topen => 112,
            Verb::Ropen => 113,
            Verb::Tcreate => 114,
            Verb::Rcreate => 115,
            Verb::Tread => 116,
            Verb::Rread => 117,
            Verb::Twrite => 118,
            Verb::Rwrite => 119,
            Verb::Tclunk => 120,
            Verb::Rclunk => 121,
            Verb::Tremove => 122,
            Verb::Rremove => 123,
            Verb::Tstat => 124,
            Verb::Rstat => 125,
            Verb::Twstat => 126,
            Verb::Rwstat => 127,
        }
    }

    /// The message's fields after its tag, in order: the word before each, and what it holds.
    pub fn fields(self) -> &'static [(Key, Form)]
        ensures { result.now ≡ fields_of self }
    {
        match self {
            Verb::Tversion => &[(Key::Msize, U32), (Key::Version, Form::Text)],
            Verb::Rversion => &[(Key::Msize, U32), (Key::Version, Form::Text)],
            Verb::Tauth => &[
                (Key::Afid, U32),
                (Key::Uname, Form::Text),
                (Key::Aname, Form::Text),
            ],
            Verb::Tattach => &[
                (Key::Fid, U32),
                (Key::Afid, U32),
                (Key::Uname, Form::Text),
                (Key::Aname, Form::Text),
            ],
            Verb::Rattach => &[(Key::Qid, Form::Qid)],
            Verb::Rerror => &[(Key::Ename, Form::Text)],
            Verb::Tflush => &[(Key::Oldtag, U16)],
            Verb::Rflush => &[],
            Verb::Twalk => &[
                (Key::Fid, U32),
                (Key::Newfid, U32),
                (Key::Nwname, Form::Names),
            ],
            Verb::Rwalk => &[(Key::Nwqid, Form::Qids)],
            Verb::Topen => &[(Key::Fid, U32), (Key::Mode, U8)],
            Verb::Ropen => &[(Key::Qid, Form::Qid), (Key::Iounit, U32)],
            Verb::Tcreate => &[
                (Key::Fid, U32),
                (Key::Name, Form::Text),
                (Key::Perm, Form::Octal),
                (Key::Mode, U8),
            ],
            Verb::Rcreate => &[(Key::Qid, Form::Qid), (Key::Iounit, U32)],
            Verb::Tread => &[(Key::Fid, U32), (Key::Offset, U64), (Key::Count, U32)],
            Verb::Rread => &[(Key::Count, Form::Data)],
            Verb::Twrite => &[
                (Key::Fid, U32),
                (Key::Offset, U64),
                (Key::Count, Form::Data),
            ],
            Verb::Rwrite => &[(Key::Count, U32)],
            Verb::Tclunk => &[(Key::Fid, U32)],
            Verb::Rclunk => &[],
            Verb::Tremove => &[(Key::Fid, U32)],
            Verb::Rremove => &[],
            Verb::Tstat => &[(Key::Fid, U32)],
            Verb::Rstat => &[(Key::Stat, Form::Stat)],
            Verb::Twstat => &[(Key::Fid, U32), (Key::Stat, Form::Stat)],
            Verb::Rwstat => &[],
        }
    }
}
