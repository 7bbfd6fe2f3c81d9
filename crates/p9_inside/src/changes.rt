//! Changes outside do not touch what is inside.

ghost use Rattle.p9_inside.specs.Changes.{ServerChangeSpares, ChangeSpares, MarkSpares};
ghost use Rattle.p9_inside.specs.Changes.{TouchSpares, OwnerSpares, WriteSpares, CutSpares};
ghost use Rattle.p9_inside.specs.Changes.{WstatSpares, ServerDropSpares, DropSpares};
ghost use Rattle.p9_inside.specs.Changes.{ServerAddSpares, AddSpares, NewSpares, InTurnSpares};
ghost use Rattle.p9_inside.specs.Changes.{ServerParentDecides, ParentDecides, ServerNextIsFree};
ghost use Rattle.p9_inside.specs.Changes.{NextIsFree};

/// A change of a node that is not inside, which leaves it where it is, spares the insides.
pub fn change_spares_insides()
    ensures server { ServerChangeSpares }
    ensures forest { ChangeSpares }
{}

/// So do the changes that have names: the mark of who changed the node and when, the time of a
/// reading, a directory's owner, a write, a cut, and all that a wstat changes.
pub fn named_changes_spare_insides()
    ensures mark { MarkSpares }
    ensures touch { TouchSpares }
    ensures owner { OwnerSpares }
    ensures write { WriteSpares }
    ensures cut { CutSpares }
    ensures wstat { WstatSpares }
{}

/// Taking out a node that is not inside spares the insides. If it was hidden, its number stays
/// so; by [`only_nodes_hide`](crate::only_nodes_hide) it hides nothing any more.
pub fn drop_spares_insides()
    ensures server { ServerDropSpares }
    ensures forest { DropSpares }
{}

/// Adding a node to a directory that is neither hidden nor inside spares the insides.
pub fn add_spares_insides()
    ensures server { ServerAddSpares }
    ensures forest { AddSpares }
    ensures new { NewSpares }
{}

/// Two changes of which each spares the insides spare them in turn.
pub fn changes_in_turn_spare_insides()
    ensures { InTurnSpares }
{}

/// A new node is inside exactly where its parent is hidden or inside.
pub fn parent_decides()
    ensures server { ServerParentDecides }
    ensures forest { ParentDecides }
{}

/// The number that a new node gets was neither hidden nor inside before, if each hidden number was
/// given to a node.
pub fn next_is_free()
    ensures server { ServerNextIsFree }
    ensures forest { NextIsFree }
{}
