//! What is wrong with the member that a breach leads to, and who reaches it.

ghost use Rattle.std.specs.Prelude.{◌≡◌, false, IfOk};
ghost use Rattle.std.specs.Option.{option_copied, option_map_or};
ghost use Rattle.std.specs.String.{string_bytes};
ghost use Rattle.p9_tree.specs.Forest.{node_of};
ghost use Rattle.p9_space.specs.Rights.{who_view};
ghost use Rattle.p9_cert.specs.Listed.{may_use};
ghost use Rattle.p9_judge.specs.declared.breach.BreachKind.TheVariants.{Removable};
ghost use Rattle.p9_map.specs.Fault.{fault_note, may_words, reacher, reacher_name, reaches};

use p9_base::{NoMemory, NodeRef, User};
use p9_judge::BreachKind;
use p9_shown::shown;
use p9_space::{TO_EXECUTE, TO_READ, TO_WRITE, Who, may, rules};
use p9_tree::{Node, Tree};
use p9_world::World;
use std::alloc::Allocator;

/// What is wrong with the member that a breach of this kind leads to: with the first listed user who
/// reaches it.
pub(crate) fn fault_note<T: Tree>(
    alloc: T::Alloc,
    world: &World<T>,
    at: NodeRef,
    kind: BreachKind,
) -> Result<String<T::Alloc>, NoMemory>
    ensures { IfOk result (λ note. string_bytes note ≡ fault_note world.now at kind) }
{
    if matches!(kind, BreachKind::Inside) {
        return Ok(String::from_str(alloc, "inside a hidden directory")?);
    }
    let mut note = reacher_name(alloc, world, at, kind)?;
    note.push_str(may_words(kind))?;
    Ok(note)
}

// What a breach of this kind lets who reaches its member do.
fn may_words(kind: BreachKind) -> &'static str
    ensures { result.now ≡ may_words kind }
{
    match kind {
        BreachKind::Inside => "",
        BreachKind::Open => " may use it",
        BreachKind::Owned => " may change its mode",
        BreachKind::Removable => " may remove it",
    }
}

// The name of the first listed user who reaches the member.
fn reacher_name<T: Tree>(
    alloc: T::Alloc,
    world: &World<T>,
    at: NodeRef,
    kind: BreachKind,
) -> Result<String<T::Alloc>, NoMemory>
    ensures { IfOk result (λ name. string_bytes name ≡ reacher_name world.now at kind) }
{
    match reacher(world, at, kind) {
        Some(user) => Ok(shown(alloc, user.as_str())?),
        None => Ok(String::from_str(alloc, "a listed user")?),
    }
}

// The first listed user who reaches the member.
fn reacher<T: Tree>(world: &World<T>, at: NodeRef, kind: BreachKind) -> Option<&User>
    ensures { option_copied result ≡ reacher world.now at kind }
{
    world
        .users
        .iter()
        .find(|user| is_reached(world, at, kind, user))
}

// Whether the user reaches the member, if it exists.
fn is_reached<T: Tree>(world: &World<T>, at: NodeRef, kind: BreachKind, user: &User) -> bool
    ensures { result ≡ option_map_or
        (reaches world.now at kind (record { user = user.now; groups = world.now.groups }))
        (node_of at world.now.forest) false }
{
    let who = Who {
        user,
        groups: &world.groups,
    };
    match world.forest.node(at) {
        Some(node) => reaches(world, at, kind, who, node),
        None => false,
    }
}

// Whether the user has a right by which a node is reached.
fn reaches<T: Tree>(
    world: &World<T>,
    at: NodeRef,
    kind: BreachKind,
    who: Who<'_, T::Alloc>,
    node: &Node<T::Alloc>,
) -> bool
    ensures { result ≡ reaches world.now at kind (who_view who.entry) node.now }
{
    match kind {
        BreachKind::Inside => false,
        BreachKind::Open => may_use(who, node),
        BreachKind::Owned => rules(who, node),
        BreachKind::Removable => may_remove(world, at, who, node),
    }
}

// Whether the user may read, write or search the node.
fn may_use<A: Allocator, B: Allocator + Copy>(who: Who<'_, B>, node: &Node<A>) -> bool
    ensures { result ≡ may_use node.now (who_view who.entry) }
{
    may(who, node, TO_READ) || may(who, node, TO_WRITE) || may(who, node, TO_EXECUTE)
}

// Whether the user may alter the directory that the node is in.
fn may_remove<T: Tree>(
    world: &World<T>,
    at: NodeRef,
    who: Who<'_, T::Alloc>,
    node: &Node<T::Alloc>,
) -> bool
    ensures { result ≡ reaches world.now at Removable (who_view who.entry) node.now }
{
    let Some(number) = node.parent() else {
        return false;
    };
    match world.forest.node(at.beside(number)) {
        Some(dir) => may(who, dir, TO_WRITE) || rules(who, dir),
        None => false,
    }
}
