//! As whom a user may do something with a node.

ghost use Rattle.std.specs.Prelude.{◌≡◌, ◌++◌, OnOk, is_some};
ghost use Rattle.std.specs.String.{string_bytes};
ghost use Rattle.p9_space.specs.Rights.{rules, who_view};
ghost use Rattle.p9_right.specs.Class.{class_of, class_words, gives_one, may_one, ruling_class};

use p9_base::Rights;
use p9_space::Who;
use p9_tree::Node;
use std::alloc::{AllocError, Allocator};

/// As whom a user may do something with a node.
#[derive(Clone, Copy, PartialEq, Eq)]
pub enum Class {
    /// As everybody.
    Others,
    /// As its owner.
    Owner,
    /// As a member of its group.
    Member,
    /// As the leader of its group.
    Leader,
}

impl Class {
    /// Adds the class to a text: `others`, `its owner`, `a member of GROUP` or `the leader of GROUP`,
    /// where GROUP is what the group is called. Where an allocation fails, a part of it may be there.
    pub fn push<A: Allocator>(self, group: &str, text: &mut String<A>) -> Result<(), AllocError>
        ensures { OnOk result
            (string_bytes text.new ≡ string_bytes text.old ++ class_words self group.now) }
    {
        match self {
            Class::Others => text.push_str("others"),
            Class::Owner => text.push_str("its owner"),
            Class::Member => push_of("a member of ", group, text),
            Class::Leader => push_of("the leader of ", group, text),
        }
    }
}

// Adds who of a group it is.
fn push_of<A: Allocator>(who: &str, group: &str, text: &mut String<A>) -> Result<(), AllocError>
    ensures { OnOk result
        (string_bytes text.new ≡ string_bytes text.old ++ (who.now ++ group.now)) }
{
    text.push_str(who)?;
    text.push_str(group)
}

/// The first class by whose bits the user has one of the wanted rights of the node: the others, the
/// owner, the members of the group. There is one exactly where he may do one of what is wanted.
pub fn class_of<A: Allocator, B: Allocator + Copy>(
    who: Who<'_, B>,
    node: &Node<A>,
    wanted: Rights,
) -> Option<Class>
    ensures class { result ≡ class_of (who_view who.entry) node.now wanted }
    ensures may { is_some result ≡ may_one (who_view who.entry) node.now wanted }
{
    let permissions = node.mode().permissions;
    if gives_one(permissions.others, wanted) {
        Some(Class::Others)
    } else if node.uid() == who.user && gives_one(permissions.owner, wanted) {
        Some(Class::Owner)
    } else if gives_one(permissions.group, wanted) && who.groups.member(who.user, node.gid()) {
        Some(Class::Member)
    } else {
        None
    }
}

// Whether one of the wanted rights is given.
fn gives_one(given: Rights, wanted: Rights) -> bool
    ensures { result ≡ gives_one given wanted }
{
    (wanted.read && given.read)
        || (wanted.write && given.write)
        || (wanted.execute && given.execute)
}

/// As whom the user rules the node: as its owner, or else as the leader of its group. There is a class
/// exactly where he rules it.
pub fn ruling_class<A: Allocator, B: Allocator + Copy>(
    who: Who<'_, B>,
    node: &Node<A>,
) -> Option<Class>
    ensures class { result ≡ ruling_class (who_view who.entry) node.now }
    ensures rules { is_some result ≡ rules (who_view who.entry) node.now }
{
    if node.uid() == who.user {
        Some(Class::Owner)
    } else if who.groups.leads(who.user, node.gid()) {
        Some(Class::Leader)
    } else {
        None
    }
}
