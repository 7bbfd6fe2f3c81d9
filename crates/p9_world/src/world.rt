//! A world, as the lines of its text make it.

ghost use Rattle.std.specs.Prelude.{◌≡◌, IsFalse, IsTrue};
ghost use Rattle.p9_world.specs.World.{IsWorld, are_given, takes_forest};

use p9_base::{Groups, NodeRef, User};
use p9_tree::{Forest, Tree};
use std::marker::Model;

/// What a user describes: servers with their trees and names, users, groups, hidden directories and
/// variables.
///
/// The forest is well-formed, as every [`Forest`] is. Each tree has one name, which no other has,
/// and each hidden number lies below its server's next number. Contracts see a world as the plain
/// lists.
#[derive(Drop)]
pub struct World<T: Tree> {
    /// The servers' trees, by number.
    pub forest: Forest<T>,
    /// The users, in the order of their lines.
    pub users: Vec<User, T::Alloc>,
    /// The groups, in the order of their lines.
    pub groups: Groups<T::Alloc>,
    /// The hidden directories, in the order of their lines.
    pub hidden: Vec<NodeRef, T::Alloc>,
    /// The variables with their values, in the order of their lines.
    pub vars: Vec<(String<T::Alloc>, String<T::Alloc>), T::Alloc>,
    /// The servers' names, by number.
    pub servers: Vec<String<T::Alloc>, T::Alloc>,
}

impl<T: Tree> Model for World<T> {
    ghost use Rattle.p9_world.specs.World.{IsWorld, World as WorldOf, world_view};

    ghost Value = { WorldOf };

    ghost view = { λ w. world_view w.forest w.users.items w.groups
        w.hidden.items w.vars.items w.servers.items };

    ghost invariant = { λ w. IsWorld (world_view w.forest w.users.items
        w.groups w.hidden.items w.vars.items w.servers.items) };
}

impl<T: Tree> World<T> {
    /// Each tree has one name, which no other has, and each hidden number lies below its server's
    /// next number. This does nothing when it runs; it is for a caller that has to know so.
    pub fn well_formed(&self)
        ensures { IsWorld self.now }
    {
        let _forest = &self.forest;
    }

    /// Puts another forest in the place of the trees, where it has as many servers, and each hidden
    /// number lies below its server's next one. Returns whether it did. Else the forest is dropped,
    /// and the world is unchanged.
    pub fn go_on_with(&mut self, forest: Forest<T>) -> bool
        ensures result { result ≡ takes_forest forest self.old }
        ensures yes { IsTrue result → self.new ≡ record self.old { forest = forest } }
        ensures no { IsFalse result → self.new ≡ self.old }
    {
        if forest.trees().len() != self.servers.len() || !are_made(&self.hidden, &forest) {
            return false;
        }
        self.forest = forest;
        true
    }
}

// Whether each of these numbers lies below its server's next one.
fn are_made<T: Tree>(nodes: &[NodeRef], forest: &Forest<T>) -> bool
    ensures { result ≡ are_given nodes.now forest.now }
{
    nodes
        .iter()
        .all(|node| node.number < forest.next_of(node.server))
}
