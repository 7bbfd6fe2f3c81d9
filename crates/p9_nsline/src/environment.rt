//! What a namespace file is run in.

ghost use Rattle.std.specs.Prelude.{◌≡◌, ◌∷◌, ◌<◌, [], IfOk, IfSome, None, length, map, position};
ghost use Rattle.std.specs.Prelude.{string_bytes};
ghost use Rattle.std.specs.Option.{option_copied};
ghost use Rattle.std.specs.Str.{bytes_eq};
ghost use Rattle.p9_tree.specs.Forest.{is_dir_of, node_of};
ghost use Rattle.p9_space.specs.Walk.{walk};
ghost use Rattle.p9_nsline.specs.Answer.{Gives, walk_stop};
ghost use Rattle.p9_nsline.specs.Find.{path_fault, server_root};
ghost use Rattle.p9_nsline.specs.Environment.{environment_view};
ghost use Rattle.p9_nsline.specs.Variable.{expanded};

use crate::fault::{OpFault, Stop};
use crate::variable::expand;
use p9_base::{Fault, NoMemory, NodeRef, SERVERS_MAX};
use p9_space::{MountTable, Trail, Who, resolve};
use p9_tree::{Forest, Node, Tree};
use std::alloc::Allocator;
use std::marker::Model;

/// What no operation changes: the trees of the servers, the variables and the servers' names.
#[derive(Drop)]
pub struct Environment<'a, T: Tree> {
    alloc: T::Alloc,
    forest: &'a Forest<T>,
    vars: &'a [(String<T::Alloc>, String<T::Alloc>)],
    servers: &'a [String<T::Alloc>],
}

impl<'a, T: Tree> Model for Environment<'a, T> {
    ghost use Rattle.p9_nsline.specs.Environment.{Environment as EnvironmentOf, environment_view};

    ghost Value = { EnvironmentOf };

    ghost view = { λ s. environment_view s.forest.now s.vars.now s.servers.now };
}

impl<'a, T: Tree> Environment<'a, T> {
    /// The environment of these trees, variables and servers' names. This takes no memory.
    pub fn new(
        alloc: T::Alloc,
        forest: &'a Forest<T>,
        vars: &'a [(String<T::Alloc>, String<T::Alloc>)],
        servers: &'a [String<T::Alloc>],
    ) -> Environment<'a, T>
        ensures { result ≡ environment_view forest.now vars.now servers.now }
    {
        Environment {
            alloc,
            forest,
            vars,
            servers,
        }
    }

    /// The allocator of all that grows.
    pub fn alloc(&self) -> T::Alloc {
        self.alloc
    }

    /// The word with the variables' values put in.
    pub fn expand(&self, word: &str) -> Result<String<T::Alloc>, NoMemory>
        ensures { IfOk result (λ text. string_bytes text ≡ expanded self.now.vars word.now) }
    {
        expand(self.alloc, word, self.vars)
    }

    /// The root of the server of this name, or [`OpFault::UnknownServer`].
    pub fn server_root(&self, name: &str) -> Result<NodeRef, OpFault>
        ensures { result ≡ server_root self.now.servers name.now }
    {
        server_root(self.servers, name)
    }

    /// The trail of one place.
    pub fn trail_at(&self, place: NodeRef) -> Result<Trail<T::Alloc>, NoMemory>
        ensures { IfOk result (λ trail. trail ≡ place ∷ []) }
    {
        Trail::at(self.alloc, place)
    }

    /// A walk along names from a trail. No permission is needed.
    pub fn walk(
        &self,
        table: &MountTable<T::Alloc>,
        start: &Trail<T::Alloc>,
        names: &[&str],
    ) -> Result<Trail<T::Alloc>, Stop>
        ensures { Gives (path_fault (walk self.now.forest table.now None start.now (map
            (λ n. n.now) names.now))) result }
    {
        match resolve(self.forest, table, start, names, nobody(start)) {
            Ok(trail) => Ok(trail),
            Err(fault) => Err(walk_stop(fault)),
        }
    }

    /// The node, if it exists.
    pub fn node(&self, at: NodeRef) -> Option<&'a Node<T::Alloc>>
        ensures { option_copied result ≡ node_of at self.now.forest }
    {
        self.forest.node(at)
    }

    /// Whether it is a directory that exists.
    pub fn is_dir(&self, at: NodeRef) -> bool
        ensures { result ≡ is_dir_of at self.now.forest }
    {
        match self.forest.node(at) {
            Some(node) => node.is_dir(),
            None => false,
        }
    }
}

// Why a walk ends.
fn walk_stop(fault: Fault) -> Stop
    ensures { result ≡ walk_stop fault }
{
    match fault {
        Fault::OutOfMemory => Stop::NoMemory,
        _ => Stop::Refused(OpFault::Path(fault)),
    }
}

fn server_root<A: Allocator>(servers: &[String<A>], name: &str) -> Result<NodeRef, OpFault>
    ensures { result ≡ server_root (map string_bytes servers.now) name.now }
{
    let numbered = &servers[..servers.len().min(SERVERS_MAX)];
    match server_number(numbered, name) {
        Some(number) => Ok(NodeRef {
            server: number as u16,
            number: 0,
        }),
        None => Err(OpFault::UnknownServer),
    }
}

fn server_number<A: Allocator>(servers: &[String<A>], name: &str) -> Option<usize>
    ensures number { result ≡ position (λ server. bytes_eq
        (string_bytes server) name.now) servers.now }
    ensures within { IfSome result (λ number. number < length servers.now) }
{
    servers.iter().position(|server| is_named(server, name))
}

fn is_named<A: Allocator>(server: &String<A>, name: &str) -> bool
    ensures { result ≡ bytes_eq (string_bytes server.now) name.now }
{
    server.as_str() == name
}

// Nobody walks the trail: no permission is asked.
fn nobody<A: Allocator + Copy>(_trail: &Trail<A>) -> Option<Who<'_, A>>
    ensures { result ≡ None }
{
    None
}
