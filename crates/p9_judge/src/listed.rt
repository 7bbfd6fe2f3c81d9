//! The users that are listed, as a set.

ghost use Rattle.std.specs.Prelude.{◌≡◌, ◌+◌, ◌<◌, ℕ, IfOk, List, OnOk, false, length};
ghost use Rattle.std.specs.Prelude.{option_copied};
ghost use Rattle.std.specs.List.{list_any};
ghost use Rattle.std.specs.Option.{option_map_or};
ghost use Rattle.std.specs.Str.{bytes_eq};
ghost use Rattle.p9_base.specs.Group.{group_of, is_member, leads};
ghost use Rattle.p9_cert.specs.Classes.{is_of};
ghost use Rattle.p9_cert.specs.Gap.{is_removable};
ghost use Rattle.p9_cert.specs.Listed.{is_alterable, is_open, is_owned, is_passable, some_listed};
ghost use Rattle.p9_cert.specs.Policy.{policy_of};
ghost use Rattle.p9_judge.specs.Listed.{Lists, has_in_group, has_listed, has_of_a_class};
ghost use Rattle.p9_judge.specs.Listed.{is_marked};

use indexmap::IndexSet;
use p9_base::{Group, Groups, NoMemory, NodeRef, User};
use p9_cert::Classes;
use p9_tree::{Node, Tree};
use p9_world::World;
use std::alloc::Allocator;
use std::hash::{BuildHasherDefault, FoldHasher};

type Users<A> = IndexSet<User, BuildHasherDefault<FoldHasher>, A>;

/// The users that a world lists, and the names of those of its groups that have one of them as a
/// member. With them it is known without a loop over the users whether one of them may do something
/// with a node: the classes of the node's users are looked up.
///
/// The methods are asked of the world that it was made [of](Listed::of).
#[derive(Drop)]
pub struct Listed<A: Allocator + Copy> {
    users: Users<A>,
    groups: Users<A>,
}

impl<A: Allocator + Copy> Listed<A> {
    /// Those of a world. Its users are gone over once, and the members of its groups. The only error
    /// is that an allocation fails.
    pub fn of<T: Tree>(alloc: A, world: &World<T>) -> Result<Listed<A>, NoMemory>
        ensures { IfOk result (Lists world.now.users world.now.groups) }
    {
        let users = users_of(alloc, world.users.as_slice())?;
        let groups = groups_of(alloc, &users, &world.groups)?;
        Ok(Listed { users, groups })
    }

    /// Whether the node is a directory that some listed user may search or rules.
    pub fn may_pass<T: Tree>(&self, world: &World<T>, node: &Node<T::Alloc>) -> bool
        requires { Lists world.now.users world.now.groups self.now }
        ensures { result ≡ is_passable world.now.users world.now.groups node.now }
    {
        node.is_dir() && self.has_one_of(world, Classes::to_pass(node), node)
    }

    /// Whether some listed user may read, write or search the node.
    pub fn may_use<T: Tree>(&self, world: &World<T>, node: &Node<T::Alloc>) -> bool
        requires { Lists world.now.users world.now.groups self.now }
        ensures { result ≡ is_open world.now.users world.now.groups node.now }
    {
        self.has_one_of(world, Classes::to_use(node), node)
    }

    /// Whether some listed user rules the node.
    pub fn rule<T: Tree>(&self, world: &World<T>, node: &Node<T::Alloc>) -> bool
        requires { Lists world.now.users world.now.groups self.now }
        ensures { result ≡ is_owned world.now.users world.now.groups node.now }
    {
        self.has_one_of(world, Classes::to_rule(), node)
    }

    /// Whether some listed user may write the node or rules it.
    pub fn may_alter<T: Tree>(&self, world: &World<T>, dir: &Node<T::Alloc>) -> bool
        requires { Lists world.now.users world.now.groups self.now }
        ensures { result ≡ is_alterable world.now.users world.now.groups dir.now }
    {
        self.has_one_of(world, Classes::to_alter(dir), dir)
    }

    /// Whether some listed user may write the directory that the node of this number is in, or rules
    /// that, and so may remove and rename it. A root is in none.
    pub fn may_remove<T: Tree>(&self, world: &World<T>, at: NodeRef, node: &Node<T::Alloc>) -> bool
        requires { Lists world.now.users world.now.groups self.now }
        ensures { result ≡ is_removable (policy_of world.now) world.now.forest at node.now }
    {
        let Some(parent) = node.parent() else {
            return false;
        };
        match world.forest.node(at.beside(parent)) {
            Some(dir) => self.may_alter(world, dir),
            None => false,
        }
    }

    // Whether some listed user is of one of the classes of the node.
    fn has_one_of<T: Tree>(&self, world: &World<T>, classes: Classes, node: &Node<T::Alloc>) -> bool
        requires { Lists world.now.users world.now.groups self.now }
        ensures { result ≡ some_listed world.now.users world.now.groups (is_of classes node.now) }
    {
        self.has_of_a_class(world, classes, node.uid(), node.gid())
    }

    // Whether some listed user is of one of the classes of a node of this owner and this group.
    fn has_of_a_class<T: Tree>(
        &self,
        world: &World<T>,
        classes: Classes,
        owner: &User,
        group: &User,
    ) -> bool
        requires { Lists world.now.users world.now.groups self.now }
        ensures { result ≡ has_of_a_class world.now.users world.now.groups classes owner.now
            group.now }
    {
        (classes.others && !world.users.is_empty())
            || (classes.owner && self.has(world, owner))
            || self.has_in_group(world, classes, group)
    }

    // Whether some listed user is of a class of those whom a group has.
    fn has_in_group<T: Tree>(&self, world: &World<T>, classes: Classes, name: &User) -> bool
        requires { Lists world.now.users world.now.groups self.now }
        ensures { result ≡ has_in_group world.now.users world.now.groups classes name.now }
    {
        let group = world.groups.get(name);
        (classes.members && self.has_member(world, name, group))
            || (classes.leader && self.has_leader(world, name, group))
    }

    // Whether some listed user is a member of the group of this name, by what is listed of it.
    fn has_member<T: Tree>(
        &self,
        world: &World<T>,
        name: &User,
        group: Option<&Group<T::Alloc>>,
    ) -> bool
        requires lists { Lists world.now.users world.now.groups self.now }
        requires found { option_copied group ≡ group_of name.now world.now.groups }
        ensures { result ≡ list_any (is_member world.now.groups name.now) world.now.users }
    {
        match group {
            Some(_) => self.groups.contains(name),
            None => self.has(world, name),
        }
    }

    // Whether some listed user leads the group of this name, by what is listed of it.
    fn has_leader<T: Tree>(
        &self,
        world: &World<T>,
        name: &User,
        group: Option<&Group<T::Alloc>>,
    ) -> bool
        requires lists { Lists world.now.users world.now.groups self.now }
        requires found { option_copied group ≡ group_of name.now world.now.groups }
        ensures { result ≡ list_any (leads world.now.groups name.now) world.now.users }
    {
        match group {
            Some(group) => self.has(world, group.leader()),
            None => self.has(world, name),
        }
    }

    // Whether a user of this name is listed.
    fn has<T: Tree>(&self, world: &World<T>, name: &User) -> bool
        requires { Lists world.now.users world.now.groups self.now }
        ensures { result ≡ list_any (bytes_eq name.now) world.now.users }
    {
        let _users = &world.users;
        self.users.contains(name)
    }
}

// The set of these users.
fn users_of<A: Allocator + Copy>(alloc: A, users: &[User]) -> Result<Users<A>, NoMemory>
    ensures { IfOk result (λ set. (name : List ℕ) →
        list_any (bytes_eq name) set.keys ≡ list_any (bytes_eq name) users.now) }
{
    let mut set = IndexSet::new(alloc);
    for user in users {
        set.insert(*user)?;
    }
    Ok(set)
}

// The names of the groups of which one of these users is a member.
fn groups_of<A: Allocator + Copy, B: Allocator + Copy>(
    alloc: A,
    users: &Users<A>,
    groups: &Groups<B>,
) -> Result<Users<A>, NoMemory>
    ensures { IfOk result (λ set. (name : List ℕ) → list_any (bytes_eq name) set.keys
        ≡ option_map_or (has_listed users.now.keys) (group_of name groups.now) false) }
{
    let mut marked = IndexSet::new(alloc);
    for position in 0..groups.len() {
        mark_group(users, groups, position, &mut marked)?;
    }
    Ok(marked)
}

// Marks the name of the group that is listed at the position, if one of the users is a member.
fn mark_group<A: Allocator + Copy, B: Allocator + Copy>(
    users: &Users<A>,
    groups: &Groups<B>,
    position: usize,
    marked: &mut Users<A>,
) -> Result<(), NoMemory>
    requires there { position < length groups.now }
    requires before { (name : List ℕ) → list_any (bytes_eq name) marked.old.keys
        ≡ is_marked users.now.keys groups.now position name }
    ensures { OnOk result ((name : List ℕ) → list_any (bytes_eq name) marked.new.keys
        ≡ is_marked users.now.keys groups.now (position + 1) name) }
{
    let (name, group) = groups.at(position).unwrap();
    if has_one_among(users, group.members()) {
        marked.insert(*name)?;
    }
    Ok(())
}

// Whether one of the members is one of the users.
fn has_one_among<A: Allocator + Copy>(users: &Users<A>, members: &[User]) -> bool
    ensures { result
        ≡ list_any (λ member. list_any (bytes_eq member) users.now.keys) members.now }
{
    members.iter().any(|member| users.contains(member))
}
