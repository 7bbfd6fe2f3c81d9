//! The words that are before the fields of a message.

ghost use Rattle.std.specs.Prelude.{◌≡◌};
ghost use Rattle.p9_words.specs.Key.{key_text};

/// A word that is before a field of a message, or of a stat.
#[derive(Clone, Copy, Debug, PartialEq, Eq)]
pub enum Key {
    Tag,
    Msize,
    Version,
    Afid,
    Uname,
    Aname,
    Fid,
    Oldtag,
    Newfid,
    Nwname,
    Mode,
    Name,
    Perm,
    Offset,
    Count,
    Stat,
    Qid,
    Ename,
    Nwqid,
    Iounit,
    StatQid,
    StatMode,
    Atime,
    Mtime,
    Length,
    Kind,
    Dev,
}

impl Key {
    /// The word.
    pub fn text(self) -> &'static str
        ensures { result.now ≡ key_text self }
    {
        match self {
            Key::Tag => "tag",
            Key::Msize => "msize",
            Key::Version => "version",
            Key::Afid => "afid",
            Key::Uname => "uname",
            Key::Aname => "aname",
            Key::Fid => "fid",
            Key::Oldtag => "oldtag",
            Key::Newfid => "newfid",
            Key::Nwname => "nwname",
            Key::Mode => "mode",
            Key::Name => "name",
            Key::Perm => "perm",
            Key::Offset => "offset",
            Key::Count => "count",
            Key::Stat => "stat",
            Key::Qid => "qid",
            Key::Ename => "ename",
            Key::Nwqid => "nwqid",
            Key::Iounit => "iounit",
            Key::StatQid => "q",
            Key::StatMode => "m",
            Key::Atime => "at",
            Key::Mtime => "mt",
            Key::Length => "l",
            Key::Kind => "t",
            Key::Dev => "d",
        }
    }
}
