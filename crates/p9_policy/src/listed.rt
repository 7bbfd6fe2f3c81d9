//! What listed users may do with a node, no matter which of them.

ghost use Rattle.std.specs.Prelude.{◌≡◌, ◌&&◌, ◌||◌, option_copied};
ghost use Rattle.p9_table.specs.Rights.{who_view};
ghost use Rattle.p9_policy.specs.Classes.{has_as_leader, has_as_member, is_of};
ghost use Rattle.p9_policy.specs.Listed.{is_alterable, is_open, is_owned, is_passable, may_pass};
ghost use Rattle.p9_policy.specs.Listed.{some_listed};

use crate::classes::Classes;
use p9_base::{Group, Groups, User};
use p9_table::{TO_EXECUTE, Who, may, rules};
use p9_tree::{Node, Tree};
use p9_world::World;
use std::alloc::Allocator;

/// The users and the groups that are listed.
#[derive(Clone, Copy)]
pub struct Listed<'a, A: Allocator + Copy> {
    /// The users.
    pub users: &'a [User],
    /// The groups.
    pub groups: &'a Groups<A>,
}

/// Those of a world.
pub fn listed_in<T: Tree>(world: &World<T>) -> Listed<'_, T::Alloc>
    ensures users { result.users.now ≡ world.now.users }
    ensures groups { result.groups.now ≡ world.now.groups }
{
    Listed {
        users: world.users.as_slice(),
        groups: &world.groups,
    }
}

impl<'a, A: Allocator + Copy> Listed<'a, A> {
    /// Whether the node is a directory that some listed user may search or rules.
    #[tactic(auto, unfolding(crate::specs::Listed::is_passable))]
    pub fn may_pass<B: Allocator>(self, node: &Node<B>) -> bool
        ensures { result ≡ is_passable self.entry.users.now self.entry.groups.now node.now }
    {
        node.is_dir() && self.is_one_of(Classes::to_pass(node), node)
    }

    /// Whether some listed user may read, write or search the node.
    #[tactic(auto, unfolding(crate::specs::Listed::is_open))]
    pub fn may_use<B: Allocator>(self, node: &Node<B>) -> bool
        ensures { result ≡ is_open self.entry.users.now self.entry.groups.now node.now }
    {
        self.is_one_of(Classes::to_use(node), node)
    }

    /// Whether some listed user may read, write or search the node, or rules it.
    #[tactic(auto, unfolding(crate::specs::Listed::is_open, crate::specs::Listed::is_owned))]
    pub fn may_use_or_rule<B: Allocator>(self, node: &Node<B>) -> bool
        ensures { result ≡ (is_open self.entry.users.now self.entry.groups.now node.now
            || is_owned self.entry.users.now self.entry.groups.now node.now) }
    {
        self.is_one_of(Classes::to_use_or_rule(node), node)
    }

    /// Whether some listed user may write the directory or rules it.
    #[tactic(auto, unfolding(crate::specs::Listed::is_alterable))]
    pub fn may_alter<B: Allocator>(self, dir: &Node<B>) -> bool
        ensures { result ≡ is_alterable self.entry.users.now self.entry.groups.now dir.now }
    {
        self.is_one_of(Classes::to_alter(dir), dir)
    }

    // Whether some listed user is of one of the classes. The group is looked up once, and the users
    // are gone over only where not everybody is of them. A group of the owner's name that isn't
    // listed has the owner alone, who is then compared once.
    fn is_one_of<B: Allocator>(self, classes: Classes, node: &Node<B>) -> bool
        ensures { result ≡ some_listed self.entry.users.now self.entry.groups.now
            (is_of classes node.now) }
    {
        if classes.others {
            return !self.users.is_empty();
        }
        let gid = node.gid();
        let group = self.groups.get(gid);
        let owner_alone = classes.owner && group.is_none() && node.uid() == gid;
        self.users.iter().any(|user| {
            (classes.owner && node.uid() == user)
                || (!owner_alone && is_in_group(user, classes, gid, group))
        })
    }
}

// Whether the user is of a class of those whom a group has: its members and its leader. The user of
// its name is both in a group that isn't listed.
fn is_in_group<A: Allocator + Copy>(
    user: &User,
    classes: Classes,
    gid: &User,
    group: Option<&Group<A>>,
) -> bool
    ensures { result
        ≡ ((classes.members && has_as_member gid.now (option_copied group.entry) user.now)
        || (classes.leader && has_as_leader gid.now (option_copied group.entry) user.now)) }
{
    match group {
        Some(group) => {
            (classes.members && group.has_member(user))
                || (classes.leader && group.leader() == user)
        }
        None => (classes.members || classes.leader) && gid == user,
    }
}

/// Whether the user may search the directory, or rules it and so may come to search it.
pub fn may_pass<A: Allocator, B: Allocator + Copy>(who: Who<'_, B>, dir: &Node<A>) -> bool
    ensures { result ≡ may_pass dir.now (who_view who.entry) }
{
    may(who, dir, TO_EXECUTE) || rules(who, dir)
}
