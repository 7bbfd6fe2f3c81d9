//! What is laid out: boxes, and the links between them.

use crate::rect::Rect;
use p9_base::NodeRef;

/// A node that gets a box: how many directories it is in, and how wide its text is.
#[derive(Clone, Copy)]
pub struct Item {
    pub node: NodeRef,
    pub depth: u64,
    pub width: u64,
}

/// The box of a node, and the column that it is in, counted from 0.
#[derive(Clone, Copy)]
pub struct Placed {
    pub node: NodeRef,
    pub column: usize,
    pub rect: Rect,
}

/// What a link says.
#[derive(Clone, Copy)]
pub enum LinkKind {
    /// The second node is in the first.
    Entry,
    /// The second node is a member of what is mounted at the first: that of a position, from 1, of so
    /// many, by the row of this position in the mount table.
    Member {
        row: usize,
        position: usize,
        of: usize,
        create: bool,
    },
}

/// A link between two boxes, by their positions.
#[derive(Clone, Copy)]
pub struct Link {
    pub from: usize,
    pub to: usize,
    pub kind: LinkKind,
}
