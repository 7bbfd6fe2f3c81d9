//! Where the boxes lie.

ghost use Rattle.std.specs.Prelude.{◌≡◌, ◌^◌, ◌<◌, ◌≤◌, All, AllPairs, IfOk, length, map};
ghost use Rattle.p9_map.specs.Rect.{AreApart, IsWithin};

use crate::item::{Item, Placed};
use crate::pen::{Ends, Pen, ROW, TOP, box_width};
use p9_base::NoMemory;
use std::alloc::Allocator;

// How many boxes a column has at the least before it ends.
const ROWS_MIN: u64 = 20;

// How many columns a server has at the most, but for those that are twice as wide.
const COLUMNS_MAX: u64 = 1000;

/// The boxes, and what they lie within.
#[derive(Drop)]
pub(crate) struct Boxes<A: Allocator> {
    pub boxes: Vec<Placed, A>,
    pub right: u64,
    pub bottom: u64,
}

/// The boxes of items, in columns that are so far from each other.
pub(crate) fn place_all<A: Allocator + Copy>(
    alloc: A,
    items: &[Item],
    gutter: u64,
) -> Result<Boxes<A>, NoMemory>
    requires few { length items.now ≤ 2 ^ 50 }
    requires gutter { 0 < gutter }
    requires gutter_most { gutter < 1000 }
    ensures nodes { IfOk result (λ b. map (λ p. p.node) b.boxes.items
        ≡ map (λ i. i.node) items.now) }
    ensures apart { IfOk result (λ b. AllPairs (λ p q. AreApart p.rect q.rect) b.boxes.items) }
    ensures within { IfOk result (λ b. All (λ p. IsWithin b.right b.bottom p.rect) b.boxes.items) }
{
    let mut boxes = Vec::new(alloc);
    let server = items.first().map_or(0, |item| item.node.server);
    let mut pen = Pen::new(server, gutter, ends(items, gutter));
    for item in items {
        boxes.push(pen.place(*item, gutter))?;
    }
    Ok(Boxes {
        boxes,
        right: pen.right,
        bottom: pen.bottom,
    })
}

// Where columns end, so that all together are about as wide as they are high.
fn ends(items: &[Item], gutter: u64) -> Ends {
    let count = items.len() as u64;
    let height = ROW.saturating_mul(count);
    let width = all_widths(items)
        .checked_div(count)
        .unwrap_or(0)
        .saturating_add(gutter);
    let rows = count
        .checked_div(columns(width, height))
        .unwrap_or(0)
        .saturating_add(1)
        .max(ROWS_MIN);
    let early = ROW.saturating_mul(rows);
    Ends {
        early: TOP.saturating_add(early),
        late: TOP.saturating_add(early).saturating_add(early / 2),
    }
}

// How wide all boxes are together.
fn all_widths(items: &[Item]) -> u64 {
    let mut width = 0u64;
    for item in items {
        width = width.saturating_add(box_width(*item));
    }
    width
}

// The least number of columns of this width that are together as wide as each is high, where one would
// be so high.
fn columns(width: u64, height: u64) -> u64 {
    for columns in 1..COLUMNS_MAX {
        if columns.saturating_mul(columns).saturating_mul(width) >= height {
            return columns;
        }
    }
    COLUMNS_MAX
}
