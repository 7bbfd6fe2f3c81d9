//! The hidden directories that leak beside the first.

ghost use Rattle.std.specs.Prelude.{◌≡◌, IfOk, filter, not};
ghost use Rattle.p9_base.specs.NodeRef.{same_node};

use crate::breach::breach_words;
use crate::member::hidden_dir;
use crate::source::Source;
use crate::teller::{add, push};
use p9_base::{NoMemory, NodeRef};
use p9_judge::{Breach, Verdict, judge};
use p9_prepared::NameSpace;
use p9_space::MountTable;
use p9_tree::Tree;
use p9_world::World;
use std::alloc::{AllocError, Allocator};

// How many further leaks are told at most.
const LEAKS_MAX: usize = 100;

/// What is said of the hidden directories that leak beside the first: of each the walk to it. A
/// directory that leaks is taken as one that isn't hidden, when the others are judged.
pub(crate) fn other_leaks<T: Tree>(
    alloc: T::Alloc,
    source: &Source<'_, T::Alloc>,
    space: NameSpace<T>,
    first: NodeRef,
) -> Result<String<T::Alloc>, NoMemory> {
    let NameSpace {
        world,
        table,
        reports: _,
    } = space;
    let mut text = String::new(alloc);
    push_leaks(&mut text, source, world, &table, first)?;
    Ok(text)
}

// Adds what is said of the leaks after the first.
fn push_leaks<T: Tree>(
    text: &mut String<T::Alloc>,
    source: &Source<'_, T::Alloc>,
    world: World<T>,
    table: &MountTable<T::Alloc>,
    first: NodeRef,
) -> Result<(), NoMemory> {
    let alloc = *text.allocator();
    let mut world = without_hidden(alloc, world, first)?;
    for _ in 0..LEAKS_MAX {
        match push_leak(text, source, &world, table)? {
            Some(leak) => world = without_hidden(alloc, world, leak)?,
            None => return Ok(()),
        }
    }
    push(text, "also: more hidden directories may be within reach\n")
}

// Adds what is said of the first leak of a world, if it has one. Returns the directory that leaks.
fn push_leak<T: Tree>(
    text: &mut String<T::Alloc>,
    source: &Source<'_, T::Alloc>,
    world: &World<T>,
    table: &MountTable<T::Alloc>,
) -> Result<Option<NodeRef>, NoMemory> {
    if world.hidden.is_empty() {
        return Ok(None);
    }
    let alloc = *text.allocator();
    match judge(alloc, world, table)? {
        Verdict::Yes(_) => Ok(None),
        Verdict::No(breach) => {
            let pushed = push_also(text, source, world, &breach);
            let dir = hidden_dir(world, breach.member);
            drop(breach);
            pushed?;
            Ok(Some(dir))
        }
    }
}

// Adds a further breach in words.
fn push_also<T: Tree>(
    text: &mut String<T::Alloc>,
    source: &Source<'_, T::Alloc>,
    world: &World<T>,
    breach: &Breach<T::Alloc>,
) -> Result<(), NoMemory> {
    push(text, "also: ")?;
    add(
        text,
        breach_words(*text.allocator(), source, world, breach)?,
    )
}

// The world in which a directory is not hidden.
fn without_hidden<T: Tree>(
    alloc: T::Alloc,
    world: World<T>,
    dir: NodeRef,
) -> Result<World<T>, NoMemory> {
    world.well_formed();
    let kept = others(alloc, world.hidden.as_slice(), dir)?;
    let World {
        forest,
        users,
        groups,
        hidden: _,
        vars,
        servers,
    } = world;
    Ok(World {
        forest,
        users,
        groups,
        hidden: kept,
        vars,
        servers,
    })
}

// The directories but for this one.
fn others<A: Allocator + Copy>(
    alloc: A,
    dirs: &[NodeRef],
    dir: NodeRef,
) -> Result<Vec<NodeRef, A>, AllocError>
    ensures { IfOk result (λ kept. kept.items ≡ filter (λ other. not (same_node other dir)) dirs.now) }
{
    let mut kept = Vec::new(alloc);
    for other in dirs {
        if *other != dir {
            kept.push(*other)?;
        }
    }
    Ok(kept)
}
