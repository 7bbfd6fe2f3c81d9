//! How many nodes there are, and about how many bytes they take.

use p9_tree::{Forest, Tree};

// About how many bytes a snapshot has for a node, beside the bytes of a file.
const NODE: usize = 100;

/// How many files and directories the trees have.
pub(crate) fn nodes_of<T: Tree>(forest: &Forest<T>) -> usize {
    let mut count = 0usize;
    for tree in forest.trees() {
        count = count.saturating_add(nodes_in(tree));
    }
    count
}

// How many files and directories a tree has.
fn nodes_in<T: Tree>(tree: &T) -> usize {
    let mut count = 0usize;
    for number in 0..tree.next() {
        if tree.node(number).is_some() {
            count = count.saturating_add(1);
        }
    }
    count
}

/// About how many bytes a snapshot of the trees has.
pub(crate) fn size_of<T: Tree>(forest: &Forest<T>) -> usize {
    let mut size = 0usize;
    for tree in forest.trees() {
        size = size.saturating_add(size_in(tree));
    }
    size
}

// About how many bytes a snapshot has for a tree.
fn size_in<T: Tree>(tree: &T) -> usize {
    let mut size = 0usize;
    for number in 0..tree.next() {
        if let Some(node) = tree.node(number) {
            size = size.saturating_add(NODE).saturating_add(node.bytes().len());
        }
    }
    size
}
