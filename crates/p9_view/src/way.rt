//! Where names lead from a place.

ghost use Rattle.std.specs.Prelude.{◌≡◌, ◌++◌, ◌∷◌, [], IfOk, IsTrue, List, OnOk, is_some};
ghost use Rattle.std.specs.Prelude.{None, Some, ℕ, if◌then◌else◌};
ghost use Rattle.std.specs.Map.{lookup};
ghost use Rattle.std.specs.Option.{option_map, option_or};
ghost use Rattle.std.specs.Str.{bytes_eq};
ghost use Rattle.p9_base.specs.Name.{is_name};
ghost use Rattle.p9_base.specs.NodeRef.{beside};
ghost use Rattle.p9_space.specs.Rights.{who_view};
ghost use Rattle.p9_space.specs.Walk.{child_ref, is_searched, may_search, named_child};
ghost use Rattle.p9_view.specs.Passing.{is_passed};
ghost use Rattle.p9_view.specs.Tour.{access_below, way_below};
ghost use Rattle.p9_view.specs.declared.way.Access.TheVariants.{AfterMode};
ghost use Rattle.p9_view.specs.Way.{access_by, arrives, way_by, ways_among, ways_from, ways_into};

use crate::passing::is_passed;
use indexmap::IndexMap;
use p9_base::{Name, NoMemory, NodeRef};
use p9_space::{Member, MountTable, TO_EXECUTE, Who, may};
use p9_tree::{Forest, Node, Tree};
use std::alloc::Allocator;
use std::hash::{BuildHasherDefault, FoldHasher};

/// Where a walk by a path goes.
#[derive(Clone, Copy, Debug, PartialEq, Eq)]
pub enum Access {
    /// To the entry of the path.
    Now,
    /// To the entry once the user has changed a mode: he may not search a directory on the way, but
    /// rules it.
    AfterMode,
    /// Elsewhere: an earlier member that the user may search has a child of the same name.
    Behind,
}

/// A way that leads on from a place.
#[derive(Clone, Copy)]
pub(crate) struct Way {
    pub name: Name,
    /// The place that it leads to: a key of the mount table.
    pub place: NodeRef,
    /// Where a walk goes that comes to the one place and then goes on by the name.
    pub access: Access,
}

impl Access {
    /// Where a walk goes along a way, where a walk to the place that it leads on from goes as this
    /// says.
    pub(crate) fn below(self, above: Access) -> Access
        ensures { result ≡ access_below above self }
    {
        match above {
            Access::Now => self,
            Access::AfterMode => self.after_mode(),
            Access::Behind => Access::Behind,
        }
    }

    // The same behind a directory whose mode has to be changed.
    fn after_mode(self) -> Access
        ensures { result ≡ access_below AfterMode self }
    {
        match self {
            Access::Now | Access::AfterMode => Access::AfterMode,
            Access::Behind => Access::Behind,
        }
    }
}

impl Way {
    /// The same way, where a walk to the place that it leads on from goes as this says.
    pub fn below(self, above: Access) -> Way
        ensures { result ≡ way_below above self }
    {
        Way {
            access: self.access.below(above),
            ..self
        }
    }
}

// Children by their names.
type Children<A> = IndexMap<Name, NodeRef, BuildHasherDefault<FoldHasher>, A>;

/// The ways that lead on from a place: through each member that is a directory which exists and which
/// the user may search or rules, in the order of the members, to each child by rising number. Without
/// a user it goes through all directories. A child whose place has no file is left out.
///
/// The only error is that an allocation fails.
pub(crate) fn ways_from<T: Tree>(
    alloc: T::Alloc,
    forest: &Forest<T>,
    table: &MountTable<T::Alloc>,
    who: Option<Who<'_, T::Alloc>>,
    place: NodeRef,
) -> Result<Vec<Way, T::Alloc>, NoMemory>
    ensures { IfOk result (λ ways. ways.items
        ≡ ways_from forest.now table.now (option_map who_view who.entry) place) }
{
    let members = table.members(place);
    ways_among(alloc, forest, table, who, members.as_slice())
}

// The ways through members.
fn ways_among<T: Tree>(
    alloc: T::Alloc,
    forest: &Forest<T>,
    table: &MountTable<T::Alloc>,
    who: Option<Who<'_, T::Alloc>>,
    members: &[Member],
) -> Result<Vec<Way, T::Alloc>, NoMemory>
    ensures { IfOk result (λ ways. ways.items
        ≡ ways_among forest.now table.now (option_map who_view who.entry) [] members.now) }
{
    let mut children = IndexMap::new(alloc);
    let mut ways = Vec::new(alloc);
    for member in members {
        add_ways_through(forest, table, who, &children, member, &mut ways)?;
        add_children_of(forest, who, member, &mut children)?;
    }
    let _count = children.len();
    Ok(ways)
}

// Adds the ways through a member, if it is passed. A walk by the name of an earlier child goes to that.
fn add_ways_through<T: Tree>(
    forest: &Forest<T>,
    table: &MountTable<T::Alloc>,
    who: Option<Who<'_, T::Alloc>>,
    earlier: &Children<T::Alloc>,
    member: &Member,
    ways: &mut Vec<Way, T::Alloc>,
) -> Result<(), NoMemory>
    ensures { OnOk result (ways.new.items ≡ ways.old.items
        ++ (if is_passed forest.now (option_map who_view who.entry) member.now
        then ways_into forest.now table.now
        (λ name. is_some (lookup (bytes_eq name) earlier.now.entries))
        (is_searched forest.now (option_map who_view who.entry) member.now) member.now.node
        else [])) }
{
    if is_passed(forest, who, member) {
        let searched = is_searched(forest, member, who);
        add_ways(forest, table, earlier, searched, member.node, ways)?;
    }
    Ok(())
}

// Adds the children of a member, if the user may search it, but for those whose names are there.
fn add_children_of<T: Tree>(
    forest: &Forest<T>,
    who: Option<Who<'_, T::Alloc>>,
    member: &Member,
    children: &mut Children<T::Alloc>,
) -> Result<(), NoMemory>
    ensures { OnOk result ((name : List ℕ) → lookup (bytes_eq name) children.new.entries
        ≡ option_or (lookup (bytes_eq name) children.old.entries)
        (named_child forest.now (option_map who_view who.entry) (Some name) member.now)) }
{
    if is_searched(forest, member, who) {
        add_children(forest, member.node, children)?;
    }
    Ok(())
}

// Adds the ways to the children of a directory, which the user may search or not. A walk by the name
// of an earlier child goes to that.
fn add_ways<T: Tree>(
    forest: &Forest<T>,
    table: &MountTable<T::Alloc>,
    earlier: &Children<T::Alloc>,
    searched: bool,
    dir: NodeRef,
    ways: &mut Vec<Way, T::Alloc>,
) -> Result<(), NoMemory>
    ensures { OnOk result (ways.new.items ≡ ways.old.items ++ ways_into forest.now table.now
        (λ name. is_some (lookup (bytes_eq name) earlier.now.entries)) searched dir) }
{
    forest.well_formed();
    let mut floor = None;
    while let Some(child) = forest.after(dir, floor) {
        add_way(forest, table, way_to(earlier, searched, dir, child), ways)?;
        floor = Some(child.number());
    }
    Ok(())
}

// The way to a child of a directory.
fn way_to<A: Allocator, B: Allocator + Copy>(
    earlier: &Children<B>,
    searched: bool,
    dir: NodeRef,
    child: &Node<A>,
) -> Way
    requires { IsTrue (is_name child.now.name) }
    ensures { result ≡ way_by (λ name. is_some (lookup (bytes_eq name) earlier.now.entries)) searched
        dir child.now }
{
    let name = Name::new(child.name()).unwrap();
    Way {
        name,
        place: dir.beside(child.number()),
        access: access_by(earlier.contains_key(&name), searched),
    }
}

// Where a walk goes by the name of a child of a directory that the user may search or not; an earlier
// child may have the name.
fn access_by(behind: bool, searched: bool) -> Access
    ensures { result ≡ access_by behind searched }
{
    if behind {
        Access::Behind
    } else if searched {
        Access::Now
    } else {
        Access::AfterMode
    }
}

// Adds a way, if its place has a file.
fn add_way<T: Tree>(
    forest: &Forest<T>,
    table: &MountTable<T::Alloc>,
    way: Way,
    ways: &mut Vec<Way, T::Alloc>,
) -> Result<(), NoMemory>
    ensures { OnOk result (ways.new.items ≡ ways.old.items
        ++ (if arrives forest.now table.now way then way ∷ [] else [])) }
{
    if forest.node(table.file(way.place)).is_some() {
        ways.push(way)?;
    }
    Ok(())
}

/// Whether the member is a directory that exists and that the user may search. Without a user
/// everybody may.
pub(crate) fn is_searched<T: Tree>(
    forest: &Forest<T>,
    member: &Member,
    who: Option<Who<'_, T::Alloc>>,
) -> bool
    ensures { result ≡ is_searched forest.now (option_map who_view who.entry) member.now }
{
    match forest.node(member.node) {
        Some(node) => node.is_dir() && may_search(who, node),
        None => false,
    }
}

// Whether the user may search the directory. Without a user everybody may.
fn may_search<A: Allocator, B: Allocator + Copy>(who: Option<Who<'_, B>>, dir: &Node<A>) -> bool
    ensures { result ≡ may_search (option_map who_view who.entry) dir.now }
{
    match who {
        Some(who) => may(who, dir, TO_EXECUTE),
        None => true,
    }
}

// Adds the children of a directory, but for those whose names are there.
fn add_children<T: Tree>(
    forest: &Forest<T>,
    dir: NodeRef,
    children: &mut Children<T::Alloc>,
) -> Result<(), NoMemory>
    ensures { OnOk result ((name : List ℕ) → lookup (bytes_eq name) children.new.entries
        ≡ option_or (lookup (bytes_eq name) children.old.entries)
        (child_ref forest.now dir name)) }
{
    forest.well_formed();
    let mut floor = None;
    while let Some(child) = forest.after(dir, floor) {
        add_child(dir, child, children)?;
        floor = Some(child.number());
    }
    Ok(())
}

// Adds a child, unless its name is there.
fn add_child<A: Allocator, B: Allocator + Copy>(
    dir: NodeRef,
    child: &Node<A>,
    children: &mut Children<B>,
) -> Result<(), NoMemory>
    requires { IsTrue (is_name child.now.name) }
    ensures { OnOk result ((name : List ℕ) → lookup (bytes_eq name) children.new.entries
        ≡ option_or (lookup (bytes_eq name) children.old.entries)
        (if bytes_eq child.now.name name then Some (beside dir child.now.number) else None)) }
{
    let name = Name::new(child.name()).unwrap();
    if !children.contains_key(&name) {
        children.insert(name, dir.beside(child.number()))?;
    }
    Ok(())
}
