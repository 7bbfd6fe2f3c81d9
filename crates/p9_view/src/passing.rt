//! Who passes a place.

ghost use Rattle.std.specs.Prelude.{◌≡◌, ◌++◌, [], IfOk, IfSome, IsTrue, List, OnOk, Some, false, filter, length, option_copied, ℕ};
ghost use Rattle.std.specs.List.{cons_option, list_any};
ghost use Rattle.std.specs.Option.{option_map};
ghost use Rattle.p9_cert.specs.Listed.{may_pass};
ghost use Rattle.p9_space.specs.Rights.{who_view};
ghost use Rattle.p9_space.specs.Walk.{is_searched};
ghost use Rattle.p9_view.specs.Passing.{is_passed, is_passed_by, is_public, may_pass_by, passers};
ghost use Rattle.p9_view.specs.Passing.{passers_text, passing_text, user_text, users_text};
ghost use Rattle.p9_view.specs.Ranks.{HasAdded, IsOfGroup};

use crate::ranks::Ranks;
use crate::text::print_shown;
use crate::way::is_searched;
use p9_base::{Groups, NoMemory, User};
use p9_cert::{Classes, may_pass};
use p9_space::{Member, Who};
use p9_tree::{Forest, Node, Tree};
use p9_world::World;
use std::alloc::{AllocError, Allocator};
use std::collections::BTreeSet;

/// A view of a name space: that of a user, or without one that of all listed users.
#[derive(Drop)]
pub(crate) struct View<'a, A: Allocator + Copy> {
    /// The user.
    pub who: Option<Who<'a, A>>,
    // Without one, the listed users, unless one is listed twice.
    ranks: Option<Ranks<A>>,
}

impl<'a, A: Allocator + Copy> View<'a, A> {
    /// The view of a user, or of all of these. The only error is that an allocation fails.
    pub fn of(alloc: A, users: &[User], who: Option<Who<'a, A>>) -> Result<View<'a, A>, NoMemory>
        ensures who { IfOk result (λ view. view.who ≡ who.entry) }
        ensures ranks { IfOk result (λ view. IfSome view.ranks (λ ranks.
            ranks.users.keys ≡ users.now)) }
    {
        let ranks = match who {
            Some(_) => None,
            None => Ranks::of(alloc, users)?,
        };
        Ok(View { who, ranks })
    }
}

/// Prints by whom a place with these members is passed; for a user, that he may not search it. Where
/// an allocation fails, a part of it may be there.
pub(crate) fn print_passing<T: Tree>(
    world: &World<T>,
    view: &View<'_, T::Alloc>,
    members: &[Member],
    out: &mut Vec<u8, T::Alloc>,
) -> Result<(), NoMemory>
    requires { IfSome view.now.ranks (λ ranks. ranks.users.keys ≡ world.now.users) }
    ensures { OnOk result (out.new.items ≡ out.old.items
        ++ passing_text world.now (option_map who_view view.now.who) members.now) }
{
    match view.who {
        Some(who) => {
            out.extend_from_slice(user_text(&world.forest, who, members).as_bytes())?;
            Ok(())
        }
        None => print_passers(world, view.ranks.as_ref(), members, out),
    }
}

// What is said of a user who may not search a place.
fn user_text<T: Tree>(
    forest: &Forest<T>,
    who: Who<'_, T::Alloc>,
    members: &[Member],
) -> &'static str
    ensures { result.now ≡ user_text forest.now (who_view who.entry) members.now }
{
    if searches(forest, who, members) {
        ""
    } else if passes(forest, who, members) {
        " (ruled, not searched)"
    } else {
        " (not passable)"
    }
}

// Whether the user may search one of the members.
fn searches<T: Tree>(forest: &Forest<T>, who: Who<'_, T::Alloc>, members: &[Member]) -> bool
    ensures { result
        ≡ list_any (is_searched forest.now (Some (who_view who.entry))) members.now }
{
    members
        .iter()
        .any(|member| is_searched(forest, member, Some(who)))
}

// Whether the user may pass one of the members.
fn passes<T: Tree>(forest: &Forest<T>, who: Who<'_, T::Alloc>, members: &[Member]) -> bool
    ensures { result
        ≡ list_any (is_passed forest.now (Some (who_view who.entry))) members.now }
{
    members
        .iter()
        .any(|member| is_passed(forest, Some(who), member))
}

/// Whether the member is a directory that exists and that the user may search or rules. Without a user
/// everybody may.
pub(crate) fn is_passed<T: Tree>(
    forest: &Forest<T>,
    who: Option<Who<'_, T::Alloc>>,
    member: &Member,
) -> bool
    ensures { result ≡ is_passed forest.now (option_map who_view who.entry) member.now }
{
    match forest.node(member.node) {
        Some(node) => node.is_dir() && may_pass_by(who, node),
        None => false,
    }
}

// Whether the user may search the directory or rules it. Without a user everybody may.
fn may_pass_by<A: Allocator, B: Allocator + Copy>(who: Option<Who<'_, B>>, dir: &Node<A>) -> bool
    ensures { result ≡ may_pass_by (option_map who_view who.entry) dir.now }
{
    match who {
        Some(who) => may_pass(who, dir),
        None => true,
    }
}

// Prints by which listed users a place is passed.
fn print_passers<T: Tree>(
    world: &World<T>,
    ranks: Option<&Ranks<T::Alloc>>,
    members: &[Member],
    out: &mut Vec<u8, T::Alloc>,
) -> Result<(), NoMemory>
    requires { IfSome ranks (λ ranks. ranks.now.users.keys ≡ world.now.users) }
    ensures { OnOk result (out.new.items ≡ out.old.items
        ++ passers_text (length world.now.users) (passers world.now members.now)) }
{
    let count = count(world);
    if has_public(world, members) {
        out.extend_from_slice(all_text(count).as_bytes())?;
        return Ok(());
    }
    let passers = passers(*out.allocator(), world, ranks, members)?;
    print_users(count, passers.as_slice(), out)
}

// How many users are listed.
fn count<T: Tree>(world: &World<T>) -> usize
    ensures { result ≡ length world.now.users }
{
    world.users.len()
}

// Whether one of the members is a directory that everybody may search.
fn has_public<T: Tree>(world: &World<T>, members: &[Member]) -> bool
    ensures { result ≡ list_any (is_public world.now.forest) members.now }
{
    members
        .iter()
        .any(|member| is_public(&world.forest, member))
}

// Whether the member is a directory that exists and that everybody may search.
fn is_public<T: Tree>(forest: &Forest<T>, member: &Member) -> bool
    ensures { result ≡ is_public forest.now member.now }
{
    match forest.node(member.node) {
        Some(node) => node.is_dir() && node.mode().permissions.others.execute,
        None => false,
    }
}

// The listed users who may pass one of the members, of which none is everybody's to search. Where
// ranks are there, only the users are asked whom the members name.
fn passers<T: Tree>(
    alloc: T::Alloc,
    world: &World<T>,
    ranks: Option<&Ranks<T::Alloc>>,
    members: &[Member],
) -> Result<Vec<User, T::Alloc>, NoMemory>
    requires ranks { IfSome ranks (λ ranks. ranks.now.users.keys ≡ world.now.users) }
    requires closed { list_any (is_public world.now.forest) members.now ≡ false }
    ensures { IfOk result (λ users. users.items ≡ passers world.now members.now) }
{
    let Some(ranks) = ranks else {
        return Ok(passers_of(alloc, world, members)?);
    };
    let mut named = BTreeSet::new(alloc);
    for member in members {
        add_passers(world, ranks, member, &mut named)?;
    }
    passers_among(alloc, world, ranks, &named, members)
}

// The listed users who may pass one of the members.
fn passers_of<T: Tree>(
    alloc: T::Alloc,
    world: &World<T>,
    members: &[Member],
) -> Result<Vec<User, T::Alloc>, AllocError>
    ensures { IfOk result (λ users. users.items ≡ passers world.now members.now) }
{
    let groups = &world.groups;
    world
        .users
        .iter()
        .copied()
        .filter(|user| passes(&world.forest, Who { user, groups }, members))
        .collect(alloc)
}

// The same, where the ranks of all of them are among these.
fn passers_among<T: Tree>(
    alloc: T::Alloc,
    world: &World<T>,
    ranks: &Ranks<T::Alloc>,
    named: &BTreeSet<usize, T::Alloc>,
    members: &[Member],
) -> Result<Vec<User, T::Alloc>, NoMemory>
    requires ranks { ranks.now.users.keys ≡ world.now.users }
    requires named { HasAdded
        (λ user. IsTrue (list_any (is_passed_by world.now user) members.now))
        ranks.now.users.keys [] named.now.keys }
    ensures { IfOk result (λ users. users.items ≡ passers world.now members.now) }
{
    let mut users = Vec::new(alloc);
    for rank in named {
        add_passer(world, ranks.at(*rank), members, &mut users)?;
    }
    Ok(users)
}

// Adds a user, if there is one who may pass one of the members.
fn add_passer<T: Tree>(
    world: &World<T>,
    user: Option<&User>,
    members: &[Member],
    users: &mut Vec<User, T::Alloc>,
) -> Result<(), NoMemory>
    ensures { OnOk result (users.new.items ≡ users.old.items
        ++ filter (λ user. list_any (is_passed_by world.now user) members.now)
        (cons_option (option_copied user.entry) [])) }
{
    let groups = &world.groups;
    if let Some(user) = user {
        if passes(&world.forest, Who { user, groups }, members) {
            users.push(*user)?;
        }
    }
    Ok(())
}

// Adds the ranks of the listed users who may pass a member that isn't everybody's to search.
fn add_passers<T: Tree>(
    world: &World<T>,
    ranks: &Ranks<T::Alloc>,
    member: &Member,
    named: &mut BTreeSet<usize, T::Alloc>,
) -> Result<(), NoMemory>
    requires { is_public world.now.forest member.now ≡ false }
    ensures { OnOk result (HasAdded (λ user. IsTrue (is_passed_by world.now user member.now))
        ranks.now.users.keys named.old.keys named.new.keys) }
{
    match world.forest.node(member.node) {
        Some(dir) if dir.is_dir() => add_users_of(&world.groups, ranks, dir, named),
        _ => Ok(()),
    }
}

// Adds the ranks of the listed users who may pass a directory that isn't everybody's to search, class by
// class.
fn add_users_of<A: Allocator, B: Allocator + Copy>(
    groups: &Groups<B>,
    ranks: &Ranks<B>,
    dir: &Node<A>,
    named: &mut BTreeSet<usize, B>,
) -> Result<(), NoMemory>
    requires { dir.now.mode.permissions.others.execute ≡ false }
    ensures { OnOk result (HasAdded
        (λ user. IsTrue (may_pass dir.now (record { user = user; groups = groups.now })))
        ranks.now.users.keys named.old.keys named.new.keys) }
{
    let classes = Classes::to_pass(dir);
    ranks.add_if(classes.owner, dir.uid(), named)?;
    let gid = dir.gid();
    match groups.get(gid) {
        Some(group) => add_users_in(classes, group.members(), group.leader(), ranks, named),
        None => add_users_in(classes, &[*gid], gid, ranks, named),
    }
}

// Adds the ranks of the listed users of these classes of a group.
fn add_users_in<A: Allocator + Copy>(
    classes: Classes,
    members: &[User],
    leader: &User,
    ranks: &Ranks<A>,
    named: &mut BTreeSet<usize, A>,
) -> Result<(), NoMemory>
    ensures { OnOk result (HasAdded
        (IsOfGroup classes (record { leader = leader.now; members = members.now }))
        ranks.now.users.keys named.old.keys named.new.keys) }
{
    if classes.members {
        ranks.add_all(members, named)?;
    }
    ranks.add_if(classes.leader, leader, named)
}

// What is said of a place that all listed users pass, of whom there are so many.
fn all_text(count: usize) -> &'static str
    ensures { (users : List (List ℕ)) → length users ≡ count
        → result.now ≡ passers_text count users }
{
    if count == 0 {
        " (not passable)"
    } else {
        " passed by everybody"
    }
}

// Prints the users who pass a place, of so many in all.
fn print_users<A: Allocator + Copy>(
    count: usize,
    users: &[User],
    out: &mut Vec<u8, A>,
) -> Result<(), NoMemory>
    ensures { OnOk result (out.new.items ≡ out.old.items ++ passers_text count users.now) }
{
    let Some((first, others)) = users.split_first() else {
        out.extend_from_slice(b" (not passable)")?;
        return Ok(());
    };
    if users.len() == count {
        out.extend_from_slice(b" passed by everybody")?;
        return Ok(());
    }
    print_names(first, others, out)
}

// Prints the names of users.
fn print_names<A: Allocator + Copy>(
    first: &User,
    others: &[User],
    out: &mut Vec<u8, A>,
) -> Result<(), NoMemory>
    ensures { OnOk result (out.new.items ≡ out.old.items ++ users_text first.now others.now) }
{
    out.extend_from_slice(b" passed by ")?;
    print_shown(first.as_str(), out)?;
    for user in others {
        out.extend_from_slice(b", ")?;
        print_shown(user.as_str(), out)?;
    }
    Ok(())
}
