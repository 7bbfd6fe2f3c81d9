//! Where boxes and lines lie.

ghost use Rattle.std.specs.Prelude.{◌≡◌, ◌≤◌, All, AllPairs, IfOk, length, map};
ghost use Rattle.p9_map.specs.Line.{IsBetween, IsJoined};
ghost use Rattle.p9_map.specs.Rect.{AreApart, IsWithin};

use crate::boxes::{Boxes, place_all};
use crate::item::{Item, Link, Placed};
use crate::line::{LANE, LANE_FIRST, LANES, Line, lines_of};
use p9_base::NoMemory;
use std::alloc::Allocator;

/// The most items that are laid out. No list of so many fits into memory.
pub const ITEMS_MAX: usize = 1 << 50;

/// The boxes and the lines of a picture, and how wide and high it is.
#[derive(Drop)]
pub struct Layout<A: Allocator> {
    pub boxes: Vec<Placed, A>,
    pub lines: Vec<Line, A>,
    pub width: u64,
    pub height: u64,
}

/// Lays out items and the links between them, with lanes for so many rows of the mount table. Items
/// of one server are together.
///
/// The boxes are those of the items, in order. No two of them overlap, and all lie within the width
/// and the height. The lines are those of the links, in order. Each begins on the border of its first
/// box and ends on that of its second. The only error is that an allocation fails.
pub fn lay_out<A: Allocator + Copy>(
    alloc: A,
    items: &[Item],
    links: &[Link],
    rows: usize,
) -> Result<Layout<A>, NoMemory>
    requires few { length items.now ≤ ITEMS_MAX }
    requires links { All (IsBetween items.now) links.now }
    ensures nodes { IfOk result (λ l. map (λ b. b.node) l.boxes.items
        ≡ map (λ i. i.node) items.now) }
    ensures apart { IfOk result (λ l. AllPairs (λ a b. AreApart a.rect b.rect) l.boxes.items) }
    ensures within { IfOk result (λ l. All (λ b. IsWithin l.width l.height b.rect) l.boxes.items) }
    ensures links { IfOk result (λ l. map (λ x. x.link) l.lines.items ≡ links.now) }
    ensures joined { IfOk result (λ l. All (IsJoined l.boxes.items) l.lines.items) }
{
    let gutter = 2 * LANE_FIRST + LANE * rows.min(LANES) as u64;
    let Boxes {
        boxes,
        right,
        bottom,
    } = place_all(alloc, items, gutter)?;
    let lines = lines_of(alloc, boxes.as_slice(), links)?;
    Ok(Layout {
        boxes,
        lines,
        width: right.saturating_add(gutter),
        height: bottom.saturating_add(20),
    })
}
