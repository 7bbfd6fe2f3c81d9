//! Walks along names, as walk(5).

ghost use Rattle.std.specs.Prelude.{◌≡◌, ◌<◌, ◌≤◌, ◌⊎◌, Ok, Err, Option, OnOk, OnErr, IfOk, IfErr};
ghost use Rattle.std.specs.Prelude.{IfSome, codes, false, length, map, None, Some};
ghost use Rattle.std.specs.Option.{option_and_then, option_copied, option_map};
ghost use Rattle.std.specs.List.{list_any};
ghost use Rattle.std.specs.Str.{bytes_eq};
ghost use Rattle.p9_base.specs.declared.fault.Fault.TheVariants.{OutOfMemory, PhaseError};
ghost use Rattle.p9_space.specs.Found.{IsThere, place_of};
ghost use Rattle.p9_table.specs.Place.{file_of, file_ref};
ghost use Rattle.p9_table.specs.Rights.{Who as WhoOf, who_view};
ghost use Rattle.p9_table.specs.Table.{members_of, row_position};
ghost use Rattle.p9_table.specs.Trail.{IsTrail, here, places_max, stepped, upward};
ghost use Rattle.p9_space.specs.Walk.{child_among, child_ref, dir_fault, is_alive, is_alive_dir};
ghost use Rattle.p9_space.specs.Walk.{is_searched, may_search, named_among, named_child};
ghost use Rattle.p9_space.specs.Walk.{step_among, step_of, walk};
ghost use Rattle.p9_table.specs.declared.trail.Step.TheVariants.{To};
ghost use Rattle.p9_tree.specs.Forest.{node_of};

use crate::channel::{Channels, advance};
use p9_base::{Fault, Name, NodeRef};
use p9_table::{Member, MountTable, PLACES_MAX, Step, TO_EXECUTE, Trail, Who, above, may};
use p9_tree::{Forest, Node, Tree};
use std::alloc::Allocator;

// Whether the user may search the directory. Without a user everybody may.
fn may_search<A: Allocator, B: Allocator + Copy>(who: Option<Who<'_, B>>, node: &Node<A>) -> bool
    ensures { result ≡ may_search (option_map who_view who.entry) node.now }
{
    match who {
        Some(who) => may(who, node, TO_EXECUTE),
        None => true,
    }
}

// A child that a walk finds.
#[derive(Clone, Copy)]
struct Child<'a, A: Allocator> {
    place: NodeRef,
    node: &'a Node<A>,
}

// What a walk by a name finds in one member of a place, or in all of them.
#[derive(Clone, Copy)]
struct Found<'a, A: Allocator> {
    // One exists.
    alive: bool,
    // One that exists is a directory.
    dir: bool,
    // The user may search one of these directories.
    searched: bool,
    // The child of the name in the first of those that has one.
    child: Option<Child<'a, A>>,
}

// What a walk finds in a member. Without a name there is no child.
fn find_in<'a, T: Tree, A: Allocator + Copy>(
    forest: &'a Forest<T>,
    member: &Member,
    name: Option<&Name>,
    who: Option<Who<'_, A>>,
) -> Found<'a, T::Alloc>
    ensures alive { result.alive ≡ is_alive forest.now member.now }
    ensures dir { result.dir ≡ is_alive_dir forest.now member.now }
    ensures searched { result.searched ≡ is_searched forest.now (option_map who_view who.entry)
        member.now }
    ensures child { option_map place_of result.child ≡ named_child forest.now
        (option_map who_view who.entry) (option_copied name.entry) member.now }
    ensures node { IfSome result.child (IsThere forest.now) }
{
    let Some(node) = forest.node(member.node) else {
        return Found {
            alive: false,
            dir: false,
            searched: false,
            child: None,
        };
    };
    let dir = node.is_dir();
    let searched = dir && may_search(who, node);
    Found {
        alive: true,
        dir,
        searched,
        child: if searched {
            child_in(forest, member.node, name)
        } else {
            None
        },
    }
}

// The node of the name in the directory, and its place. Without a name there is none.
fn child_in<'a, T: Tree>(
    forest: &'a Forest<T>,
    dir: NodeRef,
    name: Option<&Name>,
) -> Option<Child<'a, T::Alloc>>
    ensures place { option_map place_of result
        ≡ option_and_then (child_ref forest.now dir) (option_copied name.entry) }
    ensures node { IfSome result (IsThere forest.now) }
{
    forest.well_formed();
    let node = forest.child(dir, name?)?;
    Some(Child {
        place: dir.beside(node.number()),
        node,
    })
}

// What a walk finds in the members, up to the first that has a child of the name.
fn find_among<'a, T: Tree, A: Allocator + Copy>(
    forest: &'a Forest<T>,
    members: &[Member],
    name: Option<&Name>,
    who: Option<Who<'_, A>>,
) -> Found<'a, T::Alloc>
    ensures alive { result.alive ≡ list_any (is_alive forest.now) members.now }
    ensures dir { result.dir ≡ list_any (is_alive_dir forest.now) members.now }
    ensures searched { result.searched ≡ list_any (is_searched forest.now
        (option_map who_view who.entry)) members.now }
    ensures child { option_map place_of result.child ≡ named_among forest.now
        (option_map who_view who.entry) (option_copied name.entry) members.now }
    ensures node { IfSome result.child (IsThere forest.now) }
{
    let mut alive = false;
    let mut dir = false;
    let mut searched = false;
    for member in members {
        let found = find_in(forest, member, name, who);
        if found.child.is_some() {
            return found;
        }
        alive = alive || found.alive;
        dir = dir || found.dir;
        searched = searched || found.searched;
    }
    Found {
        alive,
        dir,
        searched,
        child: None,
    }
}

// The same for any text: one that is no valid name belongs to no node.
fn find_by<'a, T: Tree, A: Allocator + Copy>(
    forest: &'a Forest<T>,
    members: &[Member],
    name: &str,
    who: Option<Who<'_, A>>,
) -> Found<'a, T::Alloc>
    ensures alive { result.alive ≡ list_any (is_alive forest.now) members.now }
    ensures dir { result.dir ≡ list_any (is_alive_dir forest.now) members.now }
    ensures searched { result.searched ≡ list_any (is_searched forest.now
        (option_map who_view who.entry)) members.now }
    ensures child { option_map place_of result.child ≡ child_among forest.now
        (option_map who_view who.entry) name.now members.now }
    ensures node { IfSome result.child (IsThere forest.now) }
{
    match Name::new(name) {
        Some(name) => find_among(forest, members, Some(&name), who),
        None => {
            forest.well_formed();
            find_among(forest, members, None, who)
        }
    }
}

// The child to which a name other than `..` leads from the members of the last place.
fn find_child<'a, T: Tree, A: Allocator + Copy>(
    forest: &'a Forest<T>,
    trail: &[NodeRef],
    members: &[Member],
    name: &str,
    who: Option<Who<'_, A>>,
) -> Result<Child<'a, T::Alloc>, Fault>
    requires other { bytes_eq name.now (codes "..") ≡ false }
    requires trail { IsTrail trail.now }
    ensures ok { IfOk result (λ child. step_among forest.now (option_map who_view who.entry)
        trail.now name.now members.now ≡ Ok (To child.place)) }
    ensures err { IfErr result (λ fault. step_among forest.now (option_map who_view who.entry)
        trail.now name.now members.now ≡ Err fault) }
    ensures node { IfOk result (IsThere forest.now) }
    ensures places { OnOk result (length trail.now < places_max) }
{
    let found = find_by(forest, members, name, who);
    if !found.alive {
        return Err(Fault::PhaseError);
    }
    if !found.dir {
        return Err(Fault::NotDirectory);
    }
    if !found.searched {
        return Err(Fault::PermissionDenied);
    }
    match found.child {
        None => Err(Fault::NotFound),
        Some(child) => {
            if trail.len() == PLACES_MAX {
                Err(Fault::PathTooDeep)
            } else {
                Ok(child)
            }
        }
    }
}

/// Why no walk goes on from the members of a place, if so: none exists, [`Fault::PhaseError`]; or
/// none that exists is a directory, [`Fault::NotDirectory`].
pub fn dir_fault<T: Tree>(forest: &Forest<T>, members: &[Member]) -> Option<Fault>
    ensures { result ≡ dir_fault forest.now members.now }
{
    let mut alive = false;
    for member in members {
        if let Some(node) = forest.node(member.node) {
            if node.is_dir() {
                return None;
            }
            alive = true;
        }
    }
    if alive {
        Some(Fault::NotDirectory)
    } else {
        Some(Fault::PhaseError)
    }
}

/// Where a step of a walk arrives.
#[derive(Drop)]
pub struct Arrival<'a, A: Allocator + Copy> {
    /// The step.
    pub step: Step,
    /// The position of the row of the place that it leads to, if it has one.
    pub row: Option<usize>,
    /// The file of that place.
    pub at: NodeRef,
    /// The node of that file.
    pub file: &'a Node<A>,
}

/// Where `..` arrives from the members of the last place, by the row of the place above.
pub(crate) fn arrive_up<'a, T: Tree, A: Allocator + Copy>(
    forest: &'a Forest<T>,
    table: &MountTable<A>,
    trail: &[NodeRef],
    members: &[Member],
    row: Option<usize>,
) -> Result<Arrival<'a, T::Alloc>, Fault>
    requires members { members.now ≡ members_of (here trail.now) table.now }
    requires trail { IsTrail trail.now }
    requires row { row ≡ row_position (here (upward trail.now)) table.now }
    ensures ok { (who : Option WhoOf) → IfOk result (λ arrival.
        step_of forest.now table.now who trail.now (codes "..") ≡ Ok arrival.step) }
    ensures err { (who : Option WhoOf) → IfErr result (λ fault.
        step_of forest.now table.now who trail.now (codes "..") ≡ Err fault) }
    ensures row { IfOk result (λ arrival. arrival.row
        ≡ row_position (here (stepped trail.now arrival.step)) table.now) }
    ensures at { IfOk result (λ arrival. arrival.at
        ≡ file_ref (here (stepped trail.now arrival.step)) table.now) }
    ensures file { IfOk result (λ arrival. node_of arrival.at forest.now ≡ Some arrival.file.now) }
    ensures places { IfOk result (λ arrival. length (stepped trail.now arrival.step) ≤ places_max) }
{
    if let Some(fault) = dir_fault(forest, members) {
        return Err(fault);
    }
    arrive_at(forest, table, Step::Up, above(trail), row)
}

/// Where any other name arrives from the members of the last place. The row of the new place is
/// looked up once. Where it has none, its file is the child that was found.
pub(crate) fn arrive_down<'a, T: Tree, A: Allocator + Copy, B: Allocator + Copy>(
    forest: &'a Forest<T>,
    table: &MountTable<A>,
    trail: &[NodeRef],
    members: &[Member],
    name: &str,
    who: Option<Who<'_, B>>,
) -> Result<Arrival<'a, T::Alloc>, Fault>
    requires members { members.now ≡ members_of (here trail.now) table.now }
    requires trail { IsTrail trail.now }
    requires other { bytes_eq name.now (codes "..") ≡ false }
    ensures ok { IfOk result (λ arrival. step_of forest.now table.now
        (option_map who_view who.entry) trail.now name.now ≡ Ok arrival.step) }
    ensures err { IfErr result (λ fault. step_of forest.now table.now
        (option_map who_view who.entry) trail.now name.now ≡ Err fault) }
    ensures row { IfOk result (λ arrival. arrival.row
        ≡ row_position (here (stepped trail.now arrival.step)) table.now) }
    ensures at { IfOk result (λ arrival. arrival.at
        ≡ file_ref (here (stepped trail.now arrival.step)) table.now) }
    ensures file { IfOk result (λ arrival. node_of arrival.at forest.now ≡ Some arrival.file.now) }
    ensures places { IfOk result (λ arrival. length (stepped trail.now arrival.step) ≤ places_max) }
{
    let Child { place, node } = find_child(forest, trail, members, name, who)?;
    match table.position(place) {
        None => Ok(Arrival {
            step: Step::To(place),
            row: None,
            at: place,
            file: node,
        }),
        row => arrive_at(forest, table, Step::To(place), place, row),
    }
}

// The arrival at a place, by its row.
fn arrive_at<'a, T: Tree, A: Allocator + Copy>(
    forest: &'a Forest<T>,
    table: &MountTable<A>,
    step: Step,
    place: NodeRef,
    row: Option<usize>,
) -> Result<Arrival<'a, T::Alloc>, Fault>
    requires { row ≡ row_position place table.now }
    ensures step { IfOk result (λ arrival. arrival.step ≡ step) }
    ensures row { IfOk result (λ arrival. arrival.row ≡ row) }
    ensures at { IfOk result (λ arrival. arrival.at ≡ file_ref place table.now) }
    ensures file { IfOk result (λ arrival. node_of arrival.at forest.now ≡ Some arrival.file.now) }
    ensures err { IfErr result (λ fault. (fault ≡ PhaseError)
        × (file_of place table.now forest.now ≡ None)) }
{
    let at = table.file_at(row, place);
    match forest.node(at) {
        Some(file) => Ok(Arrival {
            step,
            row,
            at,
            file,
        }),
        None => Err(Fault::PhaseError),
    }
}

/// Walks from a trail along names, each any text; the answer is a trail of its own. The fault is
/// that of the first step that is refused, as [`crate::find_arrival_on`] says, or [`Fault::OutOfMemory`].
pub fn resolve<T: Tree, A: Allocator + Copy, B: Allocator + Copy>(
    forest: &Forest<T>,
    table: &MountTable<A>,
    start: &Trail<B>,
    names: &[&str],
    who: Option<Who<'_, B>>,
) -> Result<Trail<B>, Fault>
    ensures ok { IfOk result (λ trail. walk forest.now table.now (option_map who_view who.entry)
        start.now (map (λ n. n.now) names.now) ≡ Ok trail) }
    ensures err { IfErr result (λ fault. (fault ≡ OutOfMemory) ⊎
        (walk forest.now table.now (option_map who_view who.entry) start.now
        (map (λ n. n.now) names.now) ≡ Err fault)) }
{
    let mut channels = Channels::of(table, start)?;
    advance(forest, table, &mut channels, names, who)?;
    Ok(channels.into_trail())
}
