//! What listed users can change.

use p9_base::NodeRef;

/// How some listed user can change a node, or let others know of it by what he does. Where several
/// apply, it is the one that is first here.
#[derive(Clone, Copy, Debug, PartialEq, Eq)]
pub enum ChangeKind {
    /// He may write it, or rules it and so may change its mode.
    Alterable,
    /// He may write the directory that it is in, or rules that, and so may remove and rename it.
    Removable,
    /// It is a file of exclusive use, and he may read, write or execute it. One who opens it is told
    /// whether another has it open.
    Exclusive,
}

/// A node that some listed user can change, and that listed users come to as a member of a place.
#[derive(Clone, Copy, Debug, PartialEq, Eq)]
pub struct Change {
    /// The place.
    pub place: NodeRef,
    /// The node, which is the first of the place's members that can be changed.
    pub member: NodeRef,
    /// How it can be changed.
    pub kind: ChangeKind,
}
