//! The lines of accounts.

ghost use Rattle.std.specs.Prelude.{◌≡◌, ◌<◌, ◌^◌, IfOk, IfSome, filter, length, map, nat_lt, option_map};
ghost use Rattle.std.specs.List.{slice_split};
ghost use Rattle.p9_base.specs.Decimal.{number_of};
ghost use Rattle.p9_pack.specs.Account.{fields_of, group_in, group_row, group_rows, listed_in};
ghost use Rattle.p9_pack.specs.Account.{user_in, user_row, user_rows};

use p9_base::{NoMemory, lines, number};
use std::alloc::{AllocError, Allocator};

// The numbers of users and groups are below this.
const IDS_END: u64 = 4_294_967_296;

/// A user.
#[derive(Clone, Copy)]
pub(crate) struct UserAccount<'a> {
    pub name: &'a str,
    pub uid: u32,
    /// The number of the user's own group.
    pub gid: u32,
}

/// A group.
#[derive(Clone, Copy)]
pub(crate) struct GroupAccount<'a> {
    pub name: &'a str,
    pub gid: u32,
    /// The members that are listed, with commas between them.
    pub members: &'a str,
}

/// The users of a text.
pub(crate) fn user_accounts<A: Allocator + Copy>(
    alloc: A,
    text: &str,
) -> Result<Vec<UserAccount<'_>, A>, NoMemory>
    ensures { IfOk result (λ users. map user_row users.items ≡ user_rows text.now) }
{
    let mut users = Vec::new(alloc);
    for line in &lines(alloc, text)? {
        if let Some(user) = user_in(fields(alloc, line)?.as_slice()) {
            users.push(user)?;
        }
    }
    Ok(users)
}

/// The groups of a text.
pub(crate) fn group_accounts<A: Allocator + Copy>(
    alloc: A,
    text: &str,
) -> Result<Vec<GroupAccount<'_>, A>, NoMemory>
    ensures { IfOk result (λ groups. map group_row groups.items ≡ group_rows text.now) }
{
    let mut groups = Vec::new(alloc);
    for line in &lines(alloc, text)? {
        if let Some(group) = group_in(fields(alloc, line)?.as_slice()) {
            groups.push(group)?;
        }
    }
    Ok(groups)
}

// What is between the colons of a line.
fn fields<A: Allocator + Copy>(alloc: A, line: &str) -> Result<Vec<&str, A>, AllocError>
    ensures { IfOk result (λ found. map (λ field. field.now) found.items ≡ fields_of line.now) }
{
    line.split(':').collect(alloc)
}

// The user of these fields.
fn user_in<'a>(fields: &[&'a str]) -> Option<UserAccount<'a>>
    ensures { option_map user_row result ≡ user_in (map (λ field. field.now) fields.now) }
{
    let [name, _, uid, gid, ..] = fields else {
        return None;
    };
    let uid = id_in(uid)?;
    let gid = id_in(gid)?;
    Some(UserAccount { name, uid, gid })
}

// The group of these fields.
fn group_in<'a>(fields: &[&'a str]) -> Option<GroupAccount<'a>>
    ensures { option_map group_row result ≡ group_in (map (λ field. field.now) fields.now) }
{
    let [name, _, gid, members, ..] = fields else {
        return None;
    };
    let gid = id_in(gid)?;
    Some(GroupAccount { name, gid, members })
}

// The number of a user or a group.
fn id_in(word: &str) -> Option<u32>
    ensures { result ≡ number_of (2 ^ 32) word.now }
{
    let id = number(word, IDS_END)?;
    Some(id as u32)
}

/// The names that a text has between its commas, without empty ones. The only error is a failed
/// allocation.
pub(crate) fn listed<A: Allocator + Copy>(alloc: A, text: &str) -> Result<Vec<&str, A>, AllocError>
    ensures { IfOk result (λ found. map (λ name. name.now) found.items ≡ listed_in text.now) }
{
    text.split(',')
        .filter(|name| !name.is_empty())
        .collect(alloc)
}
