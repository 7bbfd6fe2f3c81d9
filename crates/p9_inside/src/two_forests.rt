//! Two forests that are the same without what is inside hidden directories.

ghost use Rattle.p9_inside.specs.TwoForests.{InsideInBoth, NextInBoth, SeenInBoth};

/// A node that is not inside in one of them is the same node in the other, and not inside there.
pub fn seen_in_both()
    ensures { SeenInBoth }
{}

/// A number is that of a node in both or in neither exactly where it is inside in both or in
/// neither.
pub fn inside_in_both()
    ensures { InsideInBoth }
{}

/// Each server's next number is the same in both.
pub fn next_in_both()
    ensures { NextInBoth }
{}
