//! Lines `group NAME LEADER [MEMBER ...]`.

ghost use Rattle.std.specs.Prelude.{◌≡◌, [], IfErr, IfOk, IsTrue, false, map, true};
ghost use Rattle.std.specs.List.{list_all};
ghost use Rattle.p9_base.specs.User.{is_user};
ghost use Rattle.p9_world.specs.Group.{IsBadUser, are_distinct, group_line};
ghost use Rattle.p9_world.specs.Meaning.{Makes};

use crate::error::{LineFault, Stop};
use crate::reader::Reader;
use p9_base::{Group, User};
use p9_tree::Tree;
use std::alloc::Allocator;

/// A group of this name, leader and members joins those that are listed.
pub(crate) fn add_group<T: Tree>(
    alloc: T::Alloc,
    world: &mut Reader<T>,
    name: &str,
    leader: &str,
    members: &[&str],
) -> Result<(), Stop>
    ensures { Makes (group_line name.now leader.now (map (λ m. m.now) members.now) world.old)
        world.old world.new result }
{
    let (Some(name), Some(leader)) = (User::new(name), User::new(leader)) else {
        return Err(Stop::Refused(LineFault::BadUser));
    };
    let mut group = Group::new(alloc, leader);
    let distinct = add_members(&mut group, members)?;
    if world.groups.contains(&name) || !distinct {
        return Err(Stop::Refused(LineFault::Duplicate));
    }
    world.groups.insert(name, group)?;
    Ok(())
}

// Makes users of these names the members of a group that has none, and returns whether no name is
// there twice.
fn add_members<A: Allocator + Copy>(group: &mut Group<A>, members: &[&str]) -> Result<bool, Stop>
    requires { group.old.members ≡ [] }
    ensures users { IfOk result (λ _. list_all is_user (map (λ m. m.now) members.now) ≡ true) }
    ensures distinct { IfOk result (λ distinct.
        distinct ≡ are_distinct (map (λ m. m.now) members.now)) }
    ensures members { IfOk result (λ distinct. IsTrue distinct →
        group.new ≡ record group.old { members = map (λ m. m.now) members.now }) }
    ensures bad { IfErr result (λ error. IsBadUser error
        (list_all is_user (map (λ m. m.now) members.now))) }
{
    let mut distinct = true;
    for member in members {
        let Some(user) = User::new(member) else {
            return Err(Stop::Refused(LineFault::BadUser));
        };
        if !group.add_member(user)? {
            distinct = false;
        }
    }
    Ok(distinct)
}
