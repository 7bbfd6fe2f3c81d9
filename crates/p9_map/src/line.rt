//! Where the lines between the boxes lie.

ghost use Rattle.std.specs.Prelude.{◌≡◌, All, IfOk, map};
ghost use Rattle.p9_map.specs.Line.{IsBetween, IsJoined};
ghost use Rattle.p9_map.specs.Rect.{IsOnBorder};

use crate::item::{Link, LinkKind, Placed};
use crate::rect::{Point, Side};
use p9_base::NoMemory;
use std::alloc::Allocator;

/// How far the lanes are from each other, in which lines go up and down between columns.
pub(crate) const LANE: u64 = 11;

/// How far the first lane is from the boxes of the column before it.
pub(crate) const LANE_FIRST: u64 = 34;

/// How many lanes there are before those, for lines to what is in a directory of another column.
const ENTRY_LANES: usize = 3;

/// How far the first of these is from the boxes of the column before it, and each from the next.
const ENTRY_LANE_FIRST: u64 = 12;

const ENTRY_LANE: u64 = 7;

/// At which height the first of these goes from column to column, above all boxes, and how much higher
/// each next one.
const ENTRY_HEIGHT: u64 = 92;

const ENTRY_RISE: u64 = 5;

/// How many lanes there are between two columns.
pub(crate) const LANES: usize = 20;

/// A line between two boxes. It begins at its first point, goes to the side as far as `out`, up or
/// down to `across`, to the side as far as `into`, up or down to the height of its second point, and
/// to the side again.
#[derive(Clone, Copy)]
pub struct Line {
    pub link: Link,
    pub start: Point,
    pub end: Point,
    pub out: u64,
    pub across: u64,
    pub into: u64,
}

/// The lines of links.
pub(crate) fn lines_of<A: Allocator + Copy>(
    alloc: A,
    boxes: &[Placed],
    links: &[Link],
) -> Result<Vec<Line, A>, NoMemory>
    requires { All (IsBetween boxes.now) links.now }
    ensures links { IfOk result (λ lines. map (λ l. l.link) lines.items ≡ links.now) }
    ensures joined { IfOk result (λ lines. All (IsJoined boxes.now) lines.items) }
{
    let mut lines = Vec::new(alloc);
    for link in links {
        lines.push(line_of(boxes, *link))?;
    }
    Ok(lines)
}

// The line of a link.
fn line_of(boxes: &[Placed], link: Link) -> Line
    requires { IsBetween boxes.now link }
    ensures link { result.link ≡ link }
    ensures joined { IsJoined boxes.now result }
{
    let (from, to) = (boxes[link.from], boxes[link.to]);
    match link.kind {
        LinkKind::Entry if from.column == to.column => entry_line(link, from, to),
        LinkKind::Entry => far_entry_line(boxes, link, from, to),
        LinkKind::Member { row, .. } => member_line(boxes, link, row, from, to),
    }
}

// The line from a directory to what is in it.
fn entry_line(link: Link, from: Placed, to: Placed) -> Line
    ensures link { result.link ≡ link }
    ensures starts { IsOnBorder from.rect result.start }
    ensures ends { IsOnBorder to.rect result.end }
{
    let start = from.rect.foot();
    let end = to.rect.beside(Side::Left, 11);
    Line {
        link,
        start,
        end,
        out: start.x,
        across: end.y,
        into: start.x,
    }
}

// The line from a directory to what is in it, in another column: above all boxes, in one of three lanes,
// so that those of two directories are seldom the same.
fn far_entry_line(boxes: &[Placed], link: Link, from: Placed, to: Placed) -> Line
    ensures link { result.link ≡ link }
    ensures starts { IsOnBorder from.rect result.start }
    ensures ends { IsOnBorder to.rect result.end }
{
    let number = (link.from % ENTRY_LANES) as u64;
    let lane = ENTRY_LANE_FIRST + ENTRY_LANE * number;
    let height = ENTRY_HEIGHT - ENTRY_RISE * number;
    let (leaves, comes) = sides(from.column, to.column);
    let start = from.rect.beside(leaves, 11);
    let end = to.rect.beside(comes, 11);
    let out_of = gutter(boxes, beside(from.column, leaves));
    let into_of = gutter(boxes, beside(to.column, comes));
    Line {
        link,
        start,
        end,
        out: out_of.saturating_add(lane),
        across: if out_of == into_of { end.y } else { height },
        into: into_of.saturating_add(lane),
    }
}

// The line from a key of the mount table to a member. It leaves and comes from the side on which the
// other box is. Between the columns it goes in the lane of its row.
fn member_line(boxes: &[Placed], link: Link, row: usize, from: Placed, to: Placed) -> Line
    ensures link { result.link ≡ link }
    ensures starts { IsOnBorder from.rect result.start }
    ensures ends { IsOnBorder to.rect result.end }
{
    let lane = LANE_FIRST + LANE * (row % LANES) as u64;
    let (leaves, comes) = sides(from.column, to.column);
    let start = from.rect.beside(leaves, 4);
    let end = to.rect.beside(comes, 10 + 4 * (row % 3) as u64);
    let out_of = gutter(boxes, beside(from.column, leaves));
    let into_of = gutter(boxes, beside(to.column, comes));
    let across = if out_of == into_of {
        end.y
    } else {
        to.rect.top.saturating_sub(6)
    };
    Line {
        link,
        start,
        end,
        out: out_of.saturating_add(lane),
        across,
        into: into_of.saturating_add(lane),
    }
}

// The sides on which a line leaves a box of one column and comes to one of another.
fn sides(from: usize, to: usize) -> (Side, Side) {
    if from < to {
        (Side::Right, Side::Left)
    } else if to < from {
        (Side::Left, Side::Right)
    } else {
        (Side::Right, Side::Right)
    }
}

// The column before which the space at this side of a column is.
fn beside(column: usize, side: Side) -> usize {
    match side {
        Side::Left => column,
        Side::Right => column.saturating_add(1),
    }
}

// Where the space before a column begins: to the right of all boxes of the columns before it.
fn gutter(boxes: &[Placed], column: usize) -> u64 {
    let mut right = 0;
    for placed in boxes {
        if placed.column < column {
            right = placed.rect.right.max(right);
        }
    }
    right
}
