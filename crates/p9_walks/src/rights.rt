//! Rights in the directory that a file is in, as intro(5).

ghost use Rattle.std.specs.Prelude.{◌≡◌};
ghost use Rattle.p9_space.specs.Rights.{who_view};
ghost use Rattle.p9_step.specs.Rights.{may_write, may_write_parent};

use p9_base::NodeRef;
use p9_space::{TO_WRITE, Who, may};
use p9_tree::{Forest, Node, Tree};

/// Whether the user may write the node, which exists.
pub fn may_write<T: Tree>(who: Who<'_, T::Alloc>, forest: &Forest<T>, at: NodeRef) -> bool
    ensures { result ≡ may_write (who_view who.entry) forest.now at }
{
    match forest.node(at) {
        Some(node) => may(who, node, TO_WRITE),
        None => false,
    }
}

/// Whether the user may change the entries of the directory that the file is in. A root is
/// in none.
pub fn may_write_parent<T: Tree>(
    who: Who<'_, T::Alloc>,
    forest: &Forest<T>,
    at: NodeRef,
    file: &Node<T::Alloc>,
) -> bool
    ensures { result ≡ may_write_parent (who_view who.entry) forest.now at file.now }
{
    match file.parent() {
        Some(number) => may_write(who, forest, at.beside(number)),
        None => false,
    }
}
