//! Whether a node is hidden, or inside a hidden directory.

ghost use Rattle.std.specs.Prelude.{◌≡◌, ◌<◌, AllPairs, IsTrue, option_and_then};
ghost use Rattle.p9_tree.specs.Forest.{node_of};
ghost use Rattle.p9_tree.specs.Inside.{is_hidden, is_inside};
ghost use Rattle.p9_policy.specs.Barred.{AreNotBarred};
ghost use Rattle.p9_policy.specs.Rows.{is_below, is_row};

use crate::rows::is_row;
use p9_base::NodeRef;
use p9_tree::{Forest, Tree};

/// Whether the node is a hidden directory.
pub fn is_hidden(hidden: &[NodeRef], at: NodeRef) -> bool
    ensures { result ≡ is_hidden at hidden.now }
{
    is_among(hidden, at)
}

// Whether the node is among these.
fn is_among(nodes: &[NodeRef], at: NodeRef) -> bool
    ensures { result ≡ is_row nodes.now at }
{
    nodes.iter().any(|other| *other == at)
}

/// Whether the node, which has this parent, is inside a hidden directory. Its parents are looked
/// at, upward, as far as the first of them that is known: one of the rows, which are shown, or one
/// that is hidden.
pub fn is_inside<T: Tree>(
    forest: &Forest<T>,
    hidden: &[NodeRef],
    shown: &[NodeRef],
    at: NodeRef,
    parent: Option<u64>,
) -> bool
    requires parent { parent ≡ option_and_then (λ n. n.parent) (node_of at forest.now) }
    requires rising { AllPairs (λ a b. IsTrue (is_below a b)) shown.now }
    requires shown { AreNotBarred hidden.now forest.now shown.now }
    ensures { result ≡ is_inside at hidden.now forest.now }
{
    forest.well_formed();
    let mut above = parent;
    while let Some(parent) = above {
        let dir = at.beside(parent);
        if is_row(shown, dir) {
            return false;
        }
        if is_hidden(hidden, dir) {
            return true;
        }
        above = parent_of(forest, dir);
    }
    false
}

// The number of the directory that the node is in.
fn parent_of<T: Tree>(forest: &Forest<T>, at: NodeRef) -> Option<u64>
    ensures { result ≡ option_and_then (λ n. n.parent) (node_of at forest.now) }
{
    forest.node(at)?.parent()
}
