//! The owners, groups and leaders of what is packed.

ghost use Rattle.std.specs.Prelude.{◌≡◌, option_map};
ghost use Rattle.p9_admin.specs.Owner.{group_of, leader_of, named, owner_of};

use crate::reason::Reason;
use p9_pack::Accounts;
use p9_world::PlainUser;
use std::alloc::Global;

/// The name of an owner: the one that is asked for, or else that of the first user of the number.
///
/// # Errors
///
/// [`Reason::NoUser`] where no user has the number, and [`Reason::Unfit`] where the name is no name
/// of a user.
pub(crate) fn owner_of(
    asked: Option<PlainUser>,
    accounts: &Accounts<'_, Global>,
    uid: u32,
) -> Result<PlainUser, Reason>
    ensures { result ≡ owner_of asked accounts.now uid }
{
    match asked {
        Some(user) => Ok(user),
        None => named(accounts.user_name(uid), Reason::NoUser(uid)),
    }
}

/// The name of a group: the one that is asked for, or else that of the first group of the number.
///
/// # Errors
///
/// [`Reason::NoGroup`] where no group has the number, and [`Reason::Unfit`] where the name is no
/// name of a group.
pub(crate) fn group_of(
    asked: Option<PlainUser>,
    accounts: &Accounts<'_, Global>,
    gid: u32,
) -> Result<PlainUser, Reason>
    ensures { result ≡ group_of asked accounts.now gid }
{
    match asked {
        Some(group) => Ok(group),
        None => named(accounts.group_name(gid), Reason::NoGroup(gid)),
    }
}

// The user or group of a name that was found, or the reason why there is none.
fn named(found: Option<&str>, none: Reason) -> Result<PlainUser, Reason>
    ensures { result ≡ named (option_map (λ name. name.now) found.entry) none }
{
    let Some(name) = found else {
        return Err(none);
    };
    match PlainUser::new(name) {
        Ok(user) => Ok(user),
        Err(unfit) => Err(Reason::Unfit(unfit)),
    }
}

/// Who leads a group: the one that is asked for, or else the user of the group's name where there
/// is one, or else `sys`.
pub(crate) fn leader_of(
    asked: Option<PlainUser>,
    accounts: &Accounts<'_, Global>,
    group: PlainUser,
) -> PlainUser
    ensures { result ≡ leader_of asked accounts.now group }
{
    match asked {
        Some(leader) => leader,
        None if accounts.has_user(group.as_str()) => group,
        None => PlainUser::sys(),
    }
}
