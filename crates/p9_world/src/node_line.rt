//! Which line of a world's text makes which node.

ghost use Rattle.std.specs.Prelude.{◌≡◌, ◌++◌, IfOk, OnOk, map};
ghost use Rattle.p9_base.specs.Statement.{statement_view};
ghost use Rattle.p9_tree.specs.Forest.{next_of};
ghost use Rattle.p9_world.specs.Entry.{last_number};
ghost use Rattle.p9_world.specs.NodeLine.{is_dir_line, last_of, made_by, node_lines_of};
ghost use Rattle.p9_world.specs.NodeLine.{with_node_line};
ghost use Rattle.p9_world.specs.World.{empty_world};

use crate::error::Stop;
use crate::read::read_line;
use crate::reader::Reader;
use p9_base::{NoMemory, NodeRef, Statement, statements};
use p9_tree::Tree;
use std::alloc::Allocator;

/// A line of a world's text that makes a node, or changes a root.
#[derive(Clone, Copy, Debug, PartialEq, Eq)]
pub struct NodeLine {
    /// The node.
    pub at: NodeRef,
    /// The number of the line, from 1.
    pub line: u64,
}

/// The lines of a world's text that make nodes or change roots, in order. A bad line makes nothing.
///
/// The only error is a failed allocation.
pub fn node_lines<T: Tree>(alloc: T::Alloc, text: &str) -> Result<Vec<NodeLine, T::Alloc>, NoMemory>
    ensures { IfOk result (λ lines. lines.items ≡ node_lines_of text.now) }
{
    let mut world: Reader<T> = Reader::new(alloc);
    node_lines_from(alloc, &mut world, text)
}

// The same of a text that is read into the world of no lines.
fn node_lines_from<T: Tree>(
    alloc: T::Alloc,
    world: &mut Reader<T>,
    text: &str,
) -> Result<Vec<NodeLine, T::Alloc>, NoMemory>
    requires { world.old ≡ empty_world }
    ensures { IfOk result (λ lines. lines.items ≡ node_lines_of text.now) }
{
    let mut lines = Vec::new(alloc);
    for statement in &statements(alloc, text)? {
        read_noted(alloc, world, statement, &mut lines)?;
    }
    Ok(lines)
}

// Makes the change of a statement, and notes its line where it makes a node or changes a root.
fn read_noted<T: Tree, A: Allocator>(
    alloc: T::Alloc,
    world: &mut Reader<T>,
    statement: &Statement<'_, A>,
    lines: &mut Vec<NodeLine, T::Alloc>,
) -> Result<(), NoMemory>
    ensures { OnOk result (with_node_line (record { world = world.old; lines = lines.old.items })
        (statement_view statement.now)
        ≡ record { world = world.new; lines = lines.new.items }) }
{
    let (servers, next) = (world.servers.len(), last_next(world));
    let words = statement.words.as_slice();
    match read_line(alloc, world, words) {
        Ok(()) => {
            if let Some(at) = made_by(words, servers, next, world) {
                let line = statement.line;
                lines.push(NodeLine { at, line })?;
            }
            Ok(())
        }
        Err(Stop::Refused(_)) => Ok(()),
        Err(Stop::NoMemory) => Err(NoMemory),
    }
}

// The node that a line of these words made, or whose root it changed, in a world that had so many
// servers and this next number of the last one.
fn made_by<T: Tree>(words: &[&str], servers: usize, next: u64, world: &Reader<T>) -> Option<NodeRef>
    ensures { result ≡ made_by (map (λ w. w.now) words.now) servers next world.now }
{
    let number = if world.servers.len() > servers {
        0
    } else if last_next(world) > next {
        next
    } else if is_dir_line(words) {
        0
    } else {
        return None;
    };
    let server = last_server(world)?;
    Some(NodeRef { server, number })
}

// The number of the last server, if there is one.
fn last_server<T: Tree>(world: &Reader<T>) -> Option<u16>
    ensures { result ≡ last_of world.now }
{
    match world.servers.len().checked_sub(1) {
        Some(last) => Some(last as u16),
        None => None,
    }
}

// The next number of the last server; 0 where there is none.
fn last_next<T: Tree>(world: &Reader<T>) -> u64
    ensures { result ≡ next_of (last_number world.now) world.now.forest }
{
    match world.trees.last() {
        Some(tree) => tree.next(),
        None => 0,
    }
}

// Whether a line of these words is a directory's.
fn is_dir_line(words: &[&str]) -> bool
    ensures { result ≡ is_dir_line (map (λ w. w.now) words.now) }
{
    match words {
        [word, ..] => *word == "dir",
        [] => false,
    }
}
