//! What is told of a file, as stat(5).

ghost use Rattle.std.specs.Prelude.{◌≡◌, ◌<◌, ◌^◌, length};
ghost use Rattle.p9_fields.specs.Fields.{stat_len};
ghost use Rattle.p9_fields.specs.Stat.{stat_view};

use p9_base::Qid;

/// The bytes of a stat whose four texts are empty, its own size among them.
pub const STAT_FIXED: usize = 49;

/// What a server reports of a file, or a client asks to change, as stat(5). The fields are in the
/// order of their bytes.
#[derive(Clone, Copy, Debug)]
pub struct Stat<'a> {
    /// The manual's `type`, that of the server's device, for the kernel's use.
    pub kind: u16,
    /// The server's number among those of its type, for the kernel's use.
    pub dev: u32,
    /// The file's identity and version.
    pub qid: Qid,
    /// Permissions and flags.
    pub mode: u32,
    /// When the contents were last read, in seconds since 1970.
    pub atime: u32,
    /// When the contents were last changed, in seconds since 1970.
    pub mtime: u32,
    /// The length of the contents in bytes.
    pub length: u64,
    /// The last name of the file's path, or `/` for the root of its server.
    pub name: &'a str,
    /// The owner's name.
    pub uid: &'a str,
    /// The group's name.
    pub gid: &'a str,
    /// The name of the user who last changed the contents.
    pub muid: &'a str,
}

impl Stat<'_> {
    /// How many bytes the stat takes, its own size among them, as stat(5).
    pub fn size(&self) -> usize
        requires name { length self.now.name.now < 2 ^ 16 }
        requires uid { length self.now.uid.now < 2 ^ 16 }
        requires gid { length self.now.gid.now < 2 ^ 16 }
        requires muid { length self.now.muid.now < 2 ^ 16 }
        ensures { result ≡ stat_len (stat_view self.now) }
    {
        STAT_FIXED + self.name.len() + self.uid.len() + self.gid.len() + self.muid.len()
    }
}
