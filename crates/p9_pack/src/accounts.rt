//! The accounts of a system: its users and groups, with their numbers.

ghost use Rattle.std.specs.Prelude.{◌≡◌, ◌==◌, ◌++◌, IfOk, OnOk, find, map, option_map};
ghost use Rattle.std.specs.List.{list_any};
ghost use Rattle.std.specs.Str.{bytes_eq};
ghost use Rattle.p9_pack.specs.Account.{group_row, user_row, users_of};
ghost use Rattle.p9_pack.specs.Accounts.{accounts_of, group_name, group_number, has_user, members_of};
ghost use Rattle.p9_pack.specs.Accounts.{user_name, user_number};

use crate::account::{GroupAccount, UserAccount, group_accounts, listed, user_accounts};
use crate::once::each_once;
use p9_base::NoMemory;
use std::alloc::Allocator;
use std::marker::Model;

/// The users and groups of the texts of `/etc/passwd` and `/etc/group`, in the order of the lines.
/// A line of another form is passed over.
#[derive(Drop)]
pub struct Accounts<'a, A: Allocator> {
    users: Vec<UserAccount<'a>, A>,
    groups: Vec<GroupAccount<'a>, A>,
}

impl<'a, A: Allocator> Model for Accounts<'a, A> {
    ghost use Rattle.std.specs.Prelude.{map};
    ghost use Rattle.p9_pack.specs.Account.{AccountRows, group_row, user_row};

    ghost Value = { AccountRows };

    ghost view = { λ a. record {
      users = map user_row a.users.items;
      groups = map group_row a.groups.items;
    } };
}

impl<'a, A: Allocator + Copy> Accounts<'a, A> {
    /// The accounts of the texts. A user is a line `NAME:PASSWORD:UID:GID` of the first, a group a
    /// line `NAME:PASSWORD:GID:MEMBERS` of the second, with any fields after these. A number is
    /// decimal and below 2^32, and commas are between members. The only error is a failed
    /// allocation.
    pub fn read(alloc: A, passwd: &'a str, group: &'a str) -> Result<Accounts<'a, A>, NoMemory>
        ensures { IfOk result (λ accounts. accounts ≡ accounts_of passwd.now group.now) }
    {
        let users = user_accounts(alloc, passwd)?;
        let groups = group_accounts(alloc, group)?;
        Ok(Accounts { users, groups })
    }

    /// The name of the first user of this number.
    pub fn user_name(&self, uid: u32) -> Option<&'a str>
        ensures { option_map (λ name. name.now) result ≡ user_name uid self.now }
    {
        let user = user_numbered(uid, self.users.as_slice())?;
        Some(user.name)
    }

    /// The name of the first group of this number.
    pub fn group_name(&self, gid: u32) -> Option<&'a str>
        ensures { option_map (λ name. name.now) result ≡ group_name gid self.now }
    {
        let group = group_numbered(gid, self.groups.as_slice())?;
        Some(group.name)
    }

    /// The number of the first user of this name.
    pub fn user_number(&self, name: &str) -> Option<u32>
        ensures { result ≡ user_number name.now self.now }
    {
        let user = user_named(name, self.users.as_slice())?;
        Some(user.uid)
    }

    /// The number of the first group of this name.
    pub fn group_number(&self, name: &str) -> Option<u32>
        ensures { result ≡ group_number name.now self.now }
    {
        let group = group_named(name, self.groups.as_slice())?;
        Some(group.gid)
    }

    /// Whether a user has this name.
    pub fn has_user(&self, name: &str) -> bool
        ensures { result ≡ has_user name.now self.now }
    {
        has_name(name, self.users.as_slice())
    }

    /// The members of the first group of this name, each once: those that its line lists, and then
    /// the users whose own group has its number. Without such a group there is none. The only error
    /// is a failed allocation.
    pub fn members(&self, alloc: A, group: &str) -> Result<Vec<&'a str, A>, NoMemory>
        ensures { IfOk result (λ found. map (λ name. name.now) found.items
            ≡ members_of group.now self.now) }
    {
        let Some(group) = group_named(group, self.groups.as_slice()) else {
            return Ok(Vec::new(alloc));
        };
        let mut names = listed(alloc, group.members)?;
        push_users_of(group.gid, self.users.as_slice(), &mut names)?;
        each_once(alloc, names.as_slice())
    }
}

// The first user of this number.
fn user_numbered<'a>(uid: u32, users: &[UserAccount<'a>]) -> Option<UserAccount<'a>>
    ensures { option_map user_row result
        ≡ find (λ user. user.uid == uid) (map user_row users.now) }
{
    for user in users {
        if user.uid == uid {
            return Some(*user);
        }
    }
    None
}

// The first user of this name.
fn user_named<'a>(name: &str, users: &[UserAccount<'a>]) -> Option<UserAccount<'a>>
    ensures { option_map user_row result
        ≡ find (λ user. bytes_eq user.name name.now) (map user_row users.now) }
{
    for user in users {
        if user.name == name {
            return Some(*user);
        }
    }
    None
}

// The first group of this number.
fn group_numbered<'a>(gid: u32, groups: &[GroupAccount<'a>]) -> Option<GroupAccount<'a>>
    ensures { option_map group_row result
        ≡ find (λ group. group.gid == gid) (map group_row groups.now) }
{
    for group in groups {
        if group.gid == gid {
            return Some(*group);
        }
    }
    None
}

// The first group of this name.
fn group_named<'a>(name: &str, groups: &[GroupAccount<'a>]) -> Option<GroupAccount<'a>>
    ensures { option_map group_row result
        ≡ find (λ group. bytes_eq group.name name.now) (map group_row groups.now) }
{
    for group in groups {
        if group.name == name {
            return Some(*group);
        }
    }
    None
}

// Whether a user has this name.
fn has_name(name: &str, users: &[UserAccount<'_>]) -> bool
    ensures { result ≡ list_any (λ user. bytes_eq user.name name.now) (map user_row users.now) }
{
    for user in users {
        if user.name == name {
            return true;
        }
    }
    false
}

// Adds the names of the users whose own group has this number.
fn push_users_of<'a, A: Allocator>(
    gid: u32,
    users: &[UserAccount<'a>],
    names: &mut Vec<&'a str, A>,
) -> Result<(), NoMemory>
    ensures { OnOk result (map (λ name. name.now) names.new.items
        ≡ map (λ name. name.now) names.old.items ++ users_of gid (map user_row users.now)) }
{
    for user in users {
        if user.gid == gid {
            names.push(user.name)?;
        }
    }
    Ok(())
}
