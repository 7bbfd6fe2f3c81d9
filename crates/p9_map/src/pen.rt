//! Where the next box goes.

ghost use Rattle.std.specs.Prelude.{◌≡◌, ◌+◌, ◌*◌, ◌^◌, ◌<◌, ◌≤◌};

use crate::item::{Item, Placed};
use crate::rect::{HEIGHT, Rect, WIDTH_MIN};

/// How far below a box the next one begins.
pub(crate) const ROW: u64 = 34;

/// How far a box is to the right of that of its directory.
const INDENT: u64 = 24;

/// How deep the boxes are at the most with which a column begins behind its height.
const BREAK_DEPTH: u64 = 1;

/// The greatest depth that is shown by an indent, and the greatest width.
const DEPTH_MAX: u64 = 200;

const WIDTH_MAX: u64 = 2000;

/// Where the boxes begin, from the top.
pub(crate) const TOP: u64 = 98;

/// How wide the box of an item is, with how far it is to the right of the least deep ones.
pub(crate) fn box_width(item: Item) -> u64 {
    indent(item.depth)
        .saturating_add(WIDTH_MIN)
        .saturating_add(item.width.min(WIDTH_MAX))
}

// How far a box of this depth is to the right of the least deep ones.
fn indent(depth: u64) -> u64
    ensures { result ≤ 4800 }
{
    INDENT * depth.min(DEPTH_MAX)
}

/// A column, and where its next box begins.
#[derive(Clone, Copy)]
pub(crate) struct Corner {
    pub column: usize,
    pub left: u64,
    pub top: u64,
}

/// Where a column ends: before the first box behind a height that is a root or in one, and before each
/// box behind another.
#[derive(Clone, Copy)]
pub(crate) struct Ends {
    pub early: u64,
    pub late: u64,
}

impl Ends {
    // Whether a column ends before a box of this depth, whose top would be at this height.
    fn end_before(self, depth: u64, top: u64) -> bool {
        top >= self.late || (top >= self.early && depth <= BREAK_DEPTH)
    }
}

/// The boxes so far, as far as the next one needs to know them: the server of the last one, and where
/// the next one of that server begins.
#[derive(Clone, Copy)]
pub(crate) struct Pen {
    pub count: u64,
    server: u16,
    ends: Ends,
    pub corner: Corner,
    /// What all boxes lie within.
    pub right: u64,
    pub bottom: u64,
    ghost columns: { corner.column ≤ count },
    ghost left_most: { corner.left ≤ 10000 * (count + 1) },
    ghost top_most: { corner.top ≤ 10000 * (count + 1) },
    ghost right_most: { right ≤ 10000 * (count + 1) },
}

impl Pen {
    ghost use Rattle.p9_map.specs.Pen.{IsBefore, IsClear};
    ghost use Rattle.p9_map.specs.Rect.{AreApart};
    ghost use Rattle.p9_map.specs.declared.rect.Rect.{Rect};

    /// Before the first box, which is one of this server.
    pub fn new(server: u16, left: u64, ends: Ends) -> Pen
        requires { left < 1000 }
        ensures { result.count ≡ 0 }
    {
        let corner = Corner {
            column: 0,
            left,
            top: TOP,
        };
        Pen {
            count: 0,
            server,
            ends,
            corner,
            right: 0,
            bottom: 0,
        }
    }

    /// Places a box. One of another server begins a column, so far to the right of the last one, and so
    /// does one before which a column ends.
    pub fn place(&mut self, item: Item, gutter: u64) -> Placed
        requires few { self.old.count < 2 ^ 50 }
        requires gutter { 0 < gutter }
        requires gutter_most { gutter < 1000 }
        ensures count { self.new.count ≡ self.old.count + 1 }
        ensures node { result.node ≡ item.node }
        ensures apart { (r : Rect) → IsBefore r self.old → AreApart r result.rect }
        ensures kept { (r : Rect) → IsBefore r self.old → IsBefore r self.new }
        ensures own { IsBefore result.rect self.new }
    {
        let corner = self.corner_for(item, gutter);
        let left = corner.left + indent(item.depth);
        let rect = Rect {
            left,
            top: corner.top,
            right: left + WIDTH_MIN + item.width.min(WIDTH_MAX),
            bottom: corner.top + HEIGHT,
        };
        *self = Pen {
            count: self.count + 1,
            server: item.node.server,
            ends: self.ends,
            corner: Corner {
                top: corner.top + ROW,
                ..corner
            },
            right: self.right.max(rect.right),
            bottom: self.bottom.max(rect.bottom),
        };
        Placed {
            node: item.node,
            column: corner.column,
            rect,
        }
    }

    // Where the next box begins, if it is that of this item.
    fn corner_for(self, item: Item, gutter: u64) -> Corner
        requires few { self.count < 2 ^ 50 }
        requires gutter { 0 < gutter }
        requires gutter_most { gutter < 1000 }
        ensures column { result.column ≤ self.count + 1 }
        ensures left { result.left ≤ 10000 * (self.count + 1) + 1000 }
        ensures top { result.top ≤ 10000 * (self.count + 1) }
        ensures clear { (r : Rect) → IsBefore r self → IsClear r result }
    {
        let goes_on = item.node.server == self.server;
        if goes_on && !self.ends.end_before(item.depth, self.corner.top) {
            return self.corner;
        }
        Corner {
            column: self.corner.column + 1,
            left: self.right + gutter,
            top: TOP,
        }
    }
}
