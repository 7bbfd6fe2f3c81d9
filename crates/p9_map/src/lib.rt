//! A picture of an input of p9, as SVG: each server in columns of boxes, mounts as arrows, what is hidden
//! with a lock, what clients can reach in green, and the walk of a breach in red.
//!
//! The picture is made in three parts. A [`plan_of`] says which nodes have boxes, and in which order. A
//! [`lay_out`] says where the boxes and the lines between them lie. What is drawn is text, so each name
//! in it is [`escaped`].
#![tactic(auto, unfolding(p9_base::specs::Results::need))]

mod boxes;
mod claim;
mod drawing;
mod escape;
mod fault;
mod item;
mod label;
mod layout;
mod legend;
mod line;
mod link;
mod mark;
mod order;
mod pen;
mod picture;
mod plan;
mod rect;
mod scene;
mod standing;
mod svg;
mod walk;

pub use escape::escaped;
pub use item::{Item, Link, LinkKind, Placed};
pub use layout::{ITEMS_MAX, Layout, lay_out};
pub use line::Line;
pub use order::Spot;
pub use picture::map;
pub use plan::{BOXES_MAX, Plan, plan_of};
pub use rect::{Point, Rect};
