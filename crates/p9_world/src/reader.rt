//! A world as far as its text is read.

ghost use Rattle.std.specs.Prelude.{◌≡◌};
ghost use Rattle.p9_world.specs.World.{IsWorld, empty_world};

use crate::last_dir::LastDir;
use crate::positions::Positions;
use crate::world::World;
use p9_base::{Groups, NodeRef, User};
use p9_tree::{Forest, Tree};
use std::collections::BTreeSet;
use std::marker::Model;

/// A world as far as its text is read. Beside the lists of the [`World`] it has what finds a second
/// line of a name without going over the lines before: the positions of users, variables and
/// servers by their names, and the hidden directories in order. It has the directory of the last
/// server's last line too, from which that of the next line is found.
///
/// It is seen as the world.
#[derive(Drop)]
pub(crate) struct Reader<T: Tree> {
    pub trees: Vec<T, T::Alloc>,
    pub users: Vec<User, T::Alloc>,
    pub groups: Groups<T::Alloc>,
    pub hidden: Vec<NodeRef, T::Alloc>,
    pub vars: Vec<(String<T::Alloc>, String<T::Alloc>), T::Alloc>,
    pub servers: Vec<String<T::Alloc>, T::Alloc>,
    pub user_positions: Positions<T::Alloc>,
    pub variable_positions: Positions<T::Alloc>,
    pub server_positions: Positions<T::Alloc>,
    pub hidden_set: BTreeSet<NodeRef, T::Alloc>,
    pub last_dir: LastDir<T::Alloc>,
}

impl<T: Tree> Model for Reader<T> {
    ghost use Rattle.std.specs.Prelude.{map};
    ghost use Rattle.p9_world.specs.World.{World as WorldOf, world_view};
    ghost use Rattle.p9_world.specs.Reader.{IsReader};

    ghost Value = { WorldOf };

    ghost view = { λ r. world_view (map T.state r.trees.items) r.users.items r.groups
        r.hidden.items r.vars.items r.servers.items };

    ghost invariant = { λ r. IsReader (world_view (map T.state r.trees.items) r.users.items
        r.groups r.hidden.items r.vars.items r.servers.items) r.user_positions r.variable_positions
        r.server_positions r.hidden_set r.last_dir };
}

impl<T: Tree> Reader<T> {
    /// The world of no lines. This takes no memory.
    pub fn new(alloc: T::Alloc) -> Reader<T>
        ensures { result ≡ empty_world }
    {
        Reader {
            trees: Vec::new(alloc),
            users: Vec::new(alloc),
            groups: Groups::new(alloc),
            hidden: Vec::new(alloc),
            vars: Vec::new(alloc),
            servers: Vec::new(alloc),
            user_positions: Positions::new(alloc),
            variable_positions: Positions::new(alloc),
            server_positions: Positions::new(alloc),
            hidden_set: BTreeSet::new(alloc),
            last_dir: LastDir::root(alloc),
        }
    }

    /// The world, once its text is read.
    pub fn into_world(self) -> World<T>
        ensures { result ≡ self }
    {
        World {
            forest: Forest::new(self.trees),
            users: self.users,
            groups: self.groups,
            hidden: self.hidden,
            vars: self.vars,
            servers: self.servers,
        }
    }
}
