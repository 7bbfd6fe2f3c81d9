//! What inside means.

ghost use Rattle.p9_inside.specs.Meaning.{ServerPassIsChain, PassIsChain, NothingInsideItself};
ghost use Rattle.p9_inside.specs.Meaning.{InsideByParent};
ghost use Rattle.p9_inside.specs.Meaning.{ServerInsidesAreSplit, InsidesAreSplit};
ghost use Rattle.p9_inside.specs.Meaning.{ServerBarredIsHiddenOrInside, BarredIsHiddenOrInside};
ghost use Rattle.p9_inside.specs.Meaning.{ServerOnlyNodesHide, OnlyNodesHide};

/// The pass over the nodes by rising number finds exactly those in whose chain of parents a hidden
/// directory is.
pub fn pass_is_chain()
    ensures server { ServerPassIsChain }
    ensures forest { PassIsChain }
{}

/// What is in a chain of parents has a smaller number, so nothing is inside itself.
pub fn nothing_inside_itself()
    ensures { NothingInsideItself }
{}

/// A node is inside exactly where its parent is hidden or inside. A node without a parent is not,
/// nor is a number without a node.
pub fn inside_by_parent()
    ensures { InsideByParent }
{}

/// The insides are the nodes inside, and leaving them out leaves the others.
pub fn insides_are_split()
    ensures server { ServerInsidesAreSplit }
    ensures forest { InsidesAreSplit }
{}

/// What the pass gathers are the hidden numbers and those of the nodes inside.
pub fn barred_is_hidden_or_inside()
    ensures server { ServerBarredIsHiddenOrInside }
    ensures forest { BarredIsHiddenOrInside }
{}

/// A hidden number that has no node hides nothing: hidden lists that differ only in such numbers
/// have the same insides.
pub fn only_nodes_hide()
    ensures server { ServerOnlyNodesHide }
    ensures forest { OnlyNodesHide }
{}
