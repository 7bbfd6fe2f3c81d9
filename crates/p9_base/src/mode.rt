//! A node's mode: its kind and its permissions, as intro(5) and stat(5).

ghost use Rattle.std.specs.Prelude.{◌≡◌, ◌≢◌, ◌<◌, ◌^◌, IfSome, IfNone};
ghost use Rattle.p9_base.specs.Mode.{flags_among, flags_bits, is_dir, kind_among, kind_bits};
ghost use Rattle.p9_base.specs.Mode.{kind_of, mode_bits, mode_of, permissions_bits};
ghost use Rattle.p9_base.specs.Mode.{permissions_end};
ghost use Rattle.p9_base.specs.Mode.{permissions_of, qid_kind, rights_bits, rights_of};
ghost use Rattle.p9_base.specs.declared.mode.Kind.{Kind};
ghost use Rattle.p9_base.specs.declared.mode.Mode.{Mode};

/// The mode's bit of a directory.
pub const DMDIR: u32 = 0x8000_0000;
/// The mode's bit of a file that is written at its end alone.
pub const DMAPPEND: u32 = 0x4000_0000;
/// The mode's bit of a file that is open once at a time.
pub const DMEXCL: u32 = 0x2000_0000;
/// The mode's bit of a file that need not be kept.
pub const DMTMP: u32 = 0x0400_0000;

/// What one class of users may do with a file: read it, write it, execute it. In a directory these
/// are to list it, to change its entries, and to search it.
#[derive(Clone, Copy, Debug, PartialEq, Eq)]
pub struct Rights {
    pub read: bool,
    pub write: bool,
    pub execute: bool,
}

/// The rights of a file's owner, of its group's members, and of all others.
#[derive(Clone, Copy, Debug, PartialEq, Eq)]
pub struct Permissions {
    pub owner: Rights,
    pub group: Rights,
    pub others: Rights,
}

/// What distinguishes files.
#[derive(Clone, Copy, Debug, PartialEq, Eq)]
pub struct FileFlags {
    /// Each write goes to the file's end, whatever its offset.
    pub append_only: bool,
    /// One fid at a time may have the file open.
    pub exclusive: bool,
    /// The file need not be kept. This has no effect besides being kept.
    pub temporary: bool,
}

/// A directory, or a file with its flags. A directory has none of a file's flags.
#[derive(Clone, Copy, Debug, PartialEq, Eq)]
pub enum Kind {
    Directory,
    File(FileFlags),
}

/// A node's mode. In messages a mode is a number, of which only some are modes of nodes.
#[derive(Clone, Copy, Debug, PartialEq, Eq)]
pub struct Mode {
    pub kind: Kind,
    pub permissions: Permissions,
}

impl Rights {
    // The bits of a class, below 8: read 4, write 2, execute 1.
    fn bits(self) -> u32
        ensures value { result ≡ rights_bits self }
        ensures short { result < 8 }
    {
        4 * u32::from(self.read) + 2 * u32::from(self.write) + u32::from(self.execute)
    }

    // The rights of these bits, of which there are three.
    fn from_bits(bits: u32) -> Rights
        requires { bits < 8 }
        ensures bits { rights_bits result ≡ bits }
        ensures value { result ≡ rights_of bits }
    {
        Rights {
            read: bits / 4 == 1,
            write: bits / 2 % 2 == 1,
            execute: bits % 2 == 1,
        }
    }
}

impl Permissions {
    /// The low nine bits of a mode: three for each class, the owner's first.
    pub fn bits(self) -> u32
        ensures value { result ≡ permissions_bits self }
        ensures short { result < permissions_end }
    {
        0o100 * self.owner.bits() + 0o10 * self.group.bits() + self.others.bits()
    }

    /// The permissions of these bits, of which there are nine.
    pub fn from_bits(bits: u32) -> Permissions
        requires { bits < permissions_end }
        ensures bits { permissions_bits result ≡ bits }
        ensures value { result ≡ permissions_of bits }
    {
        Permissions {
            owner: Rights::from_bits(bits / 0o100),
            group: Rights::from_bits(bits / 0o10 % 0o10),
            others: Rights::from_bits(bits % 0o10),
        }
    }
}

impl Kind {
    // The bits of a mode above its permissions.
    fn bits(self) -> u32
        ensures value { result ≡ kind_bits self }
    {
        match self {
            Kind::Directory => DMDIR,
            Kind::File(flags) => flags.bits(),
        }
    }

    // The kind of which these are the bits.
    fn from_bits(bits: u32) -> Option<Kind>
        ensures some { IfSome result (λ kind. kind_bits kind ≡ bits) }
        ensures none { IfNone result ((kind : Kind) → kind_bits kind ≢ bits) }
        ensures value { result ≡ kind_of bits }
    {
        let kind = Kind::among(bits);
        if kind.bits() == bits {
            Some(kind)
        } else {
            None
        }
    }

    // The one kind of which these may be the bits.
    fn among(bits: u32) -> Kind
        ensures only { (kind : Kind) → kind_bits kind ≡ bits → kind ≡ result }
        ensures value { result ≡ kind_among bits }
    {
        if bits >= DMDIR {
            Kind::Directory
        } else {
            Kind::File(FileFlags::among(bits))
        }
    }
}

impl FileFlags {
    // The bits of these flags in a mode.
    fn bits(self) -> u32
        ensures { result ≡ flags_bits self }
    {
        DMAPPEND * u32::from(self.append_only)
            + DMEXCL * u32::from(self.exclusive)
            + DMTMP * u32::from(self.temporary)
    }

    // The flags that are set among the bits of a mode.
    fn among(bits: u32) -> FileFlags
        ensures { result ≡ flags_among bits }
    {
        FileFlags {
            append_only: bits & DMAPPEND != 0,
            exclusive: bits & DMEXCL != 0,
            temporary: bits & DMTMP != 0,
        }
    }
}

impl Mode {
    /// The mode of these bits, or `None` exactly where they are no node's mode: where a bit is set
    /// that has no meaning, or a directory has one of a file's flags.
    pub fn from_bits(bits: u32) -> Option<Mode>
        ensures some { IfSome result (λ mode. mode_bits mode ≡ bits) }
        ensures none { IfNone result ((mode : Mode) → mode_bits mode ≢ bits) }
        ensures value { result ≡ mode_of bits }
    {
        let permissions = bits % 0o1000;
        let kind = Kind::from_bits(bits - permissions)?;
        Some(Mode {
            kind,
            permissions: Permissions::from_bits(permissions),
        })
    }

    /// The bits that a message carries for this mode.
    pub fn bits(self) -> u32
        ensures value { result ≡ mode_bits self }
        ensures inverse { (mode : Mode) → mode_bits mode ≡ result → mode ≡ self }
    {
        self.kind.bits() + self.permissions.bits()
    }

    /// Whether it is a directory's mode.
    pub fn is_dir(self) -> bool
        ensures { result ≡ is_dir self }
    {
        match self.kind {
            Kind::Directory => true,
            Kind::File(_) => false,
        }
    }

    /// The type that a qid has for this mode: the mode's high byte.
    pub fn qid_kind(self) -> u8
        ensures { result ≡ qid_kind self }
    {
        (self.bits() >> 24) as u8
    }
}
