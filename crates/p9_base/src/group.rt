//! Groups of users, as users(6).

ghost use Rattle.std.specs.Prelude.{◌≡◌, ◌==◌, [], IfOk, IfSome, IsTrue, OnErr, OnOk, Some, is_some};
ghost use Rattle.std.specs.Prelude.{length, not, option_copied, slice_get};
ghost use Rattle.std.specs.Map.Iter.{deref_pair};
ghost use Rattle.std.specs.Option.{option_map};
ghost use Rattle.indexmap.specs.IndexSet.{insert_key};
ghost use Rattle.std.specs.Str.{bytes_eq};
ghost use Rattle.p9_base.specs.Group.{are_groups, group_of, has_member, is_member};
ghost use Rattle.p9_base.specs.Group.{leads, with_group};

use crate::memory::NoMemory;
use crate::user::User;
use indexmap::{IndexMap, IndexSet};
use std::alloc::Allocator;
use std::hash::{BuildHasherDefault, FoldHasher};
use std::marker::Model;

type Hashing = BuildHasherDefault<FoldHasher>;

/// Who leads a group, and who its members are. The leader is a member only where added as one.
#[derive(Drop)]
pub struct Group<A: Allocator + Copy> {
    leader: User,
    members: IndexSet<User, Hashing, A>,
}

impl<A: Allocator + Copy> Model for Group<A> {
    ghost use Rattle.p9_base.specs.Group.{Group as GroupOf};

    ghost Value = { GroupOf };

    ghost view = { λ g. record { leader = g.leader; members = g.members.keys } };
}

impl<A: Allocator + Copy> Group<A> {
    /// A group that has this leader, and no members. This takes no memory.
    pub fn new(alloc: A, leader: User) -> Group<A>
        ensures { result ≡ record { leader = leader; members = [] } }
    {
        Group {
            leader,
            members: IndexSet::new(alloc),
        }
    }

    /// Makes the user a member, and returns whether the user was none before. The order of the
    /// members is that in which they were added.
    ///
    /// The only error is that an allocation fails; the group is then unchanged.
    pub fn add_member(&mut self, user: User) -> Result<bool, NoMemory>
        ensures new { IfOk result (λ new. new ≡ not (has_member user self.old)) }
        ensures ok { OnOk result (self.new ≡ record self.old {
          members = insert_key bytes_eq self.old.members user;
        }) }
        ensures err { OnErr result (self.new ≡ self.old) }
    {
        Ok(self.members.insert(user)?)
    }

    /// Who leads it.
    pub fn leader(&self) -> &User
        ensures { result.now ≡ self.now.leader }
    {
        &self.leader
    }

    /// Its members, in the order in which they were added.
    pub fn members(&self) -> &[User]
        ensures { result.now ≡ self.now.members }
    {
        self.members.as_slice()
    }

    /// Whether the user is among the members.
    pub fn has_member(&self, user: &User) -> bool
        ensures { result ≡ has_member user.now self.now }
    {
        self.members.contains(user)
    }
}

/// The groups that are listed, each by its name.
///
/// A name that isn't listed is a group, too: the user of that name is its only member and its
/// leader. Members and leaders need not be listed users. A look-up takes about the same time
/// whatever the number of groups and of members.
#[derive(Drop)]
pub struct Groups<A: Allocator + Copy> {
    by_name: IndexMap<User, Group<A>, Hashing, A>,
}

impl<A: Allocator + Copy> Model for Groups<A> {
    ghost use Rattle.std.specs.Prelude.{List, IsTrue};
    ghost use Rattle.p9_base.specs.Group.{GroupRow, are_groups};

    ghost Value = { List GroupRow };

    ghost view = { λ g. g.by_name.entries };

    ghost invariant = { λ g. IsTrue (are_groups g.by_name.entries) };
}

impl<A: Allocator + Copy> Groups<A> {
    /// No group is listed. This takes no memory.
    pub fn new(alloc: A) -> Groups<A>
        ensures { result ≡ [] }
    {
        Groups {
            by_name: IndexMap::new(alloc),
        }
    }

    /// What is kept of the groups: each has a name that a user may have. This does nothing when it
    /// runs; it is for a caller that has to know so.
    pub fn well_formed(&self)
        ensures { IsTrue (are_groups self.now) }
    {
        let _groups = &self.by_name;
    }

    /// How many groups are listed.
    pub fn len(&self) -> usize
        ensures { result ≡ length self.now }
    {
        self.by_name.len()
    }

    /// Whether no group is listed.
    pub fn is_empty(&self) -> bool
        ensures { result ≡ (length self.now == 0) }
    {
        self.by_name.is_empty()
    }

    /// The name of the group that is listed at the position, and the group, or `None` exactly where
    /// the position isn't below [`len`](Groups::len). A group has the position in which its name
    /// was listed first; by the name no other is found.
    pub fn at(&self, position: usize) -> Option<(&User, &Group<A>)>
        ensures row { option_map deref_pair result ≡ slice_get self.now position }
        ensures only { IfSome result (λ row. group_of row.0.now self.now ≡ Some row.1.now) }
    {
        self.by_name.get_index(position)
    }

    /// The group of this name, where one is listed.
    pub fn get(&self, name: &User) -> Option<&Group<A>>
        ensures { option_copied result ≡ group_of name.now self.now }
    {
        self.by_name.get(name)
    }

    /// Whether a group of this name is listed.
    pub fn contains(&self, name: &User) -> bool
        ensures { result ≡ is_some (group_of name.now self.now) }
    {
        self.by_name.contains_key(name)
    }

    /// Lists a group. One of the same name is replaced.
    ///
    /// The only error is that an allocation fails; the groups are then unchanged.
    pub fn insert(&mut self, name: User, group: Group<A>) -> Result<(), NoMemory>
        ensures ok { OnOk result (self.new ≡ with_group name group self.old) }
        ensures err { OnErr result (self.new ≡ self.old) }
    {
        let _valid = name.as_str();
        self.by_name.insert(name, group)?;
        Ok(())
    }

    /// Whether the user is a member of the group.
    pub fn member(&self, user: &User, group: &User) -> bool
        ensures { result ≡ is_member self.now group.now user.now }
    {
        match self.by_name.get(group) {
            Some(listed) => listed.has_member(user),
            None => group == user,
        }
    }

    /// Whether the user leads the group.
    pub fn leads(&self, user: &User, group: &User) -> bool
        ensures { result ≡ leads self.now group.now user.now }
    {
        match self.by_name.get(group) {
            Some(listed) => listed.leader == *user,
            None => group == user,
        }
    }
}
