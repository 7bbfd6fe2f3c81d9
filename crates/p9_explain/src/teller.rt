//! Words about the nodes of a world.

ghost use Rattle.std.specs.Prelude.{◌≡◌, ◌++◌, IfOk, OnOk};
ghost use Rattle.std.specs.String.{string_bytes};
ghost use Rattle.p9_prepared.specs.Path.{path_of};
ghost use Rattle.p9_shown.specs.Text.{shown_text};

use crate::bound::bind_line;
use crate::member::hidden_dir;
use crate::source::Source;
use p9_base::{NoMemory, NodeRef};
use p9_prepared::{Section, path_of};
use p9_shown::{AsShown, push_shown, shown};
use p9_tree::{Node, Tree};
use p9_world::World;
use std::alloc::Allocator;

/// Tells of a world, and of the input that it was read from.
#[derive(Drop)]
pub(crate) struct Teller<'a, 'b, T: Tree> {
    pub source: &'a Source<'b, T::Alloc>,
    pub world: &'a World<T>,
}

impl<T: Tree> Teller<'_, '_, T> {
    /// Adds the path of a node.
    pub fn path(&self, text: &mut String<T::Alloc>, at: NodeRef) -> Result<(), NoMemory> {
        push_path(text, self.world, at)
    }

    /// Adds the path of the hidden directory that a node is inside of.
    pub fn inside(&self, text: &mut String<T::Alloc>, at: NodeRef) -> Result<(), NoMemory> {
        self.path(text, hidden_dir(self.world, at))
    }

    /// Adds `, bound at PATH (NAME:L)` for a place and a node that is bound there by this line, if that
    /// isn't its own place, and ends the line.
    pub fn end_line(
        &self,
        text: &mut String<T::Alloc>,
        place: Option<NodeRef>,
        at: NodeRef,
    ) -> Result<(), NoMemory> {
        match place {
            Some(place) if place != at => {
                push(text, ", bound at ")?;
                self.path(text, place)?;
                self.bind(text, place, at)?;
            }
            _ => {}
        }
        push(text, "\n")
    }

    // Adds ` (NAME:L)` for the line of the namespace file that binds a node at a place.
    fn bind(
        &self,
        text: &mut String<T::Alloc>,
        place: NodeRef,
        at: NodeRef,
    ) -> Result<(), NoMemory> {
        let Some(ns) = self.source.text(Section::Ns) else {
            return Ok(());
        };
        let Some(line) = bind_line(*text.allocator(), self.world, ns, place, at)? else {
            return Ok(());
        };
        push(text, " (")?;
        self.source.push_line(text, Section::Ns, line)?;
        push(text, ")")
    }

    /// Adds `NAME:L, MODE OWNER GROUP` for a node: the line that made it, and what it says. What isn't
    /// there has no words, and a node of the sample world no line.
    pub fn made(&self, text: &mut String<T::Alloc>, at: NodeRef) -> Result<(), NoMemory> {
        let world = self.world;
        let Some(node) = world.forest.node(at) else {
            return Ok(());
        };
        self.say_line_of(text, at)?;
        push_rights(text, node)
    }

    // Adds the line that made a node.
    fn say_line_of(&self, text: &mut String<T::Alloc>, at: NodeRef) -> Result<(), NoMemory> {
        match self.source.line_of(at) {
            Some(line) => self.source.push_line(text, Section::World, line),
            None => push(text, "the sample world"),
        }
    }
}

// Adds the mode, the owner and the group of a node.
fn push_rights<A: Allocator + Copy>(text: &mut String<A>, node: &Node<A>) -> Result<(), NoMemory> {
    let bits = node.mode().permissions.bits();
    let (owner, group) = (AsShown(node.uid().as_str()), AsShown(node.gid().as_str()));
    write!(text, ", {bits:03o} {owner} {group}")?;
    Ok(())
}

/// Adds the path of a node, as it is shown.
pub(crate) fn push_path<T: Tree>(
    text: &mut String<T::Alloc>,
    world: &World<T>,
    at: NodeRef,
) -> Result<(), NoMemory>
    ensures { OnOk result (string_bytes text.new
        ≡ string_bytes text.old ++ shown_text (path_of world.now at)) }
{
    let path = path_of(*text.allocator(), world, at)?;
    push_shown(path.as_str(), text)?;
    Ok(())
}

/// The path of a node, as it is shown.
pub(crate) fn shown_path<T: Tree>(
    alloc: T::Alloc,
    world: &World<T>,
    at: NodeRef,
) -> Result<String<T::Alloc>, NoMemory>
    ensures { IfOk result (λ path. string_bytes path ≡ shown_text (path_of world.now at)) }
{
    let path = path_of(alloc, world, at)?;
    Ok(shown(alloc, path.as_str())?)
}

/// Adds so many blanks to a text.
pub(crate) fn push_blanks<A: Allocator + Copy>(
    text: &mut String<A>,
    count: usize,
) -> Result<(), NoMemory> {
    push(text, " ".repeat(*text.allocator(), count)?.as_str())
}

/// Adds words to a text, and drops them.
pub(crate) fn add<A: Allocator + Copy>(
    text: &mut String<A>,
    words: String<A>,
) -> Result<(), NoMemory>
    ensures { OnOk result (string_bytes text.new ≡ string_bytes text.old ++ string_bytes words) }
{
    push(text, words.as_str())
}

/// Adds words to a text.
pub(crate) fn push<A: Allocator + Copy>(text: &mut String<A>, words: &str) -> Result<(), NoMemory>
    ensures { OnOk result (string_bytes text.new ≡ string_bytes text.old ++ words.now) }
{
    text.push_str(words)?;
    Ok(())
}
