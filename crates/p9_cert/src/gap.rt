//! Why a certificate is not closed.

ghost use Rattle.std.specs.Prelude.{◌≡◌};
ghost use Rattle.p9_cert.specs.Gap.{member_fault_text, row_fault_text};

use p9_base::NodeRef;
use std::error::Error;
use std::fmt;

/// What is wrong with a member of a place. Where several faults apply, the member has the one that
/// is first here.
#[derive(Clone, Copy, Debug, PartialEq, Eq)]
pub enum MemberFault {
    /// It is inside a hidden directory.
    Inside,
    /// It is hidden, and some listed user may read, write or search it.
    Open,
    /// It is hidden, and some listed user rules it, and so may change its mode.
    Owned,
    /// It is hidden and no root, and some listed user may write the directory that it is in, or
    /// rules that.
    Removable,
    /// It is a directory that some listed user may search or rules, and no row of the certificate.
    Missing,
}

impl MemberFault {
    /// The word that a gap's line has for it.
    pub fn text(self) -> &'static str
        ensures { result.now ≡ member_fault_text self }
    {
        match self {
            MemberFault::Inside => "inside",
            MemberFault::Open => "open",
            MemberFault::Owned => "owned",
            MemberFault::Removable => "removable",
            MemberFault::Missing => "missing",
        }
    }
}

/// What is wrong with a row of a certificate. Where several faults apply, the row has the one that
/// is first here.
#[derive(Clone, Copy, Debug, PartialEq, Eq)]
pub enum RowFault {
    /// No directory has its number: a file, or nothing.
    Absent,
    /// It is hidden.
    Hidden,
    /// It is inside a hidden directory.
    Inside,
}

impl RowFault {
    /// The word that a gap's line has for it.
    pub fn text(self) -> &'static str
        ensures { result.now ≡ row_fault_text self }
    {
        match self {
            RowFault::Absent => "absent",
            RowFault::Hidden => "hidden",
            RowFault::Inside => "inside",
        }
    }
}

/// Why a certificate is not closed. It is shown as its line: `gap table S N`, `gap row R KIND`,
/// `gap root member S N KIND` or `gap row R child S N member S N KIND`, with servers and nodes by
/// their numbers, and rows counted from 1.
#[derive(Clone, Copy, Debug, PartialEq, Eq)]
pub enum Gap {
    /// This key or member of the mount table is no node that was made.
    Table(NodeRef),
    /// This row is no directory that listed users may be shown.
    Row {
        row: u64,
        kind: RowFault,
    },
    /// This member of the root place is not safe.
    Root {
        member: NodeRef,
        kind: MemberFault,
    },
    /// This member of a place, the child of this row, is not safe.
    Child {
        row: u64,
        child: NodeRef,
        member: NodeRef,
        kind: MemberFault,
    },
}

impl fmt::Display for Gap {
    ghost use Rattle.std.specs.Prelude.{Some};
    ghost use Rattle.p9_cert.specs.Gap.{gap_text};

    ghost output = { λ gap. Some (gap_text gap) };

    fn fmt<W: fmt::Write>(&self, f: &mut fmt::Formatter<W>) -> fmt::Result {
        match self {
            Gap::Table(at) => write!(f, "gap table {} {}", at.server, at.number),
            Gap::Row { row, kind } => write!(f, "gap row {row} {}", kind.text()),
            Gap::Root { member, kind } => write!(
                f,
                "gap root member {} {} {}",
                member.server,
                member.number,
                kind.text()
            ),
            Gap::Child {
                row,
                child,
                member,
                kind,
            } => write!(
                f,
                "gap row {row} child {} {} member {} {} {}",
                child.server,
                child.number,
                member.server,
                member.number,
                kind.text()
            ),
        }
    }
}

impl Error for Gap {}
