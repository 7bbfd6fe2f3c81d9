//! Points and rectangles of a picture.

ghost use Rattle.std.specs.Prelude.{◌+◌, ◌≤◌};

/// How high a box is.
pub(crate) const HEIGHT: u64 = 22;

/// How wide a box is at the least.
pub(crate) const WIDTH_MIN: u64 = 40;

/// A point. `x` counts from the left, `y` from the top.
#[derive(Clone, Copy)]
pub struct Point {
    pub x: u64,
    pub y: u64,
}

/// A rectangle, by its sides. It is at least as wide and high as the least box.
#[derive(Clone, Copy)]
pub struct Rect {
    pub left: u64,
    pub top: u64,
    pub right: u64,
    pub bottom: u64,
    ghost wide: { left + 40 ≤ right },
    ghost high: { top + 22 ≤ bottom },
}

/// A side of a box.
#[derive(Clone, Copy)]
pub(crate) enum Side {
    Left,
    Right,
}

impl Rect {
    ghost use Rattle.p9_map.specs.Rect.{IsOnBorder};

    /// The point of the lower side from which lines go down to what is in a directory.
    pub(crate) fn foot(self) -> Point
        ensures { IsOnBorder self result }
    {
        Point {
            x: self.left + 10,
            y: self.bottom,
        }
    }

    /// A point of the left or right side, so far from the top.
    pub(crate) fn beside(self, side: Side, below: u64) -> Point
        requires { below ≤ 22 }
        ensures { IsOnBorder self result }
    {
        let y = self.top + below;
        match side {
            Side::Left => Point { x: self.left, y },
            Side::Right => Point { x: self.right, y },
        }
    }
}
