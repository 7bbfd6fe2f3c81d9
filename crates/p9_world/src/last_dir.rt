//! The directory of the line before.

ghost use Rattle.std.specs.Prelude.{◌≡◌, []};
ghost use Rattle.p9_world.specs.LastDir.{IsWhereNamesLead};
ghost use Rattle.p9_world.specs.Path.{dir_of};

use crate::path::dir_from;
use p9_base::Name;
use p9_tree::Tree;
use std::alloc::Allocator;

/// The directory of the last file or directory that joined a server: the names that lead to it
/// from the server's root, and its number. The directory of the next one is looked for from there.
#[derive(Drop)]
pub(crate) struct LastDir<A: Allocator + Copy> {
    pub names: Vec<Name, A>,
    pub number: u64,
}

impl<A: Allocator + Copy> LastDir<A> {
    /// The root. This takes no memory.
    pub fn root(alloc: A) -> LastDir<A>
        ensures names { result.names.items ≡ [] }
        ensures number { result.number ≡ 0 }
    {
        LastDir {
            names: Vec::new(alloc),
            number: 0,
        }
    }

    /// The number of the directory that the names lead to, from the root on. Where they begin with
    /// the names of this directory, only those after them are looked up.
    pub fn dir_of<T: Tree>(&self, tree: &T, names: &[Name]) -> Option<u64>
        requires { IsWhereNamesLead self.now (T.state tree.now) }
        ensures { result ≡ dir_of names.now (T.state tree.now) }
    {
        match names.strip_prefix(self.names.as_slice()) {
            Some(rest) => dir_from(tree, self.number, rest),
            None => dir_from(tree, 0, names),
        }
    }
}
