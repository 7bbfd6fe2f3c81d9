//! What the options of `pack` ask for.

ghost use Rattle.std.specs.Prelude.{◌≡◌, option_map};
ghost use Rattle.p9_admin.specs.Settings.{user_asked};

use crate::PROGRAM;
use clap::ArgMatches;
use p9_base::{NoMemory, Stop};
use p9_shell::Failure;
use p9_world::{PlainUser, Unfit};
use std::alloc::Global;

/// What the options ask for, beside the directories and the files of accounts.
#[derive(Drop)]
pub(crate) struct Settings {
    /// The owner of everything.
    pub owner: Option<PlainUser>,
    /// The group of everything.
    pub group_owner: Option<PlainUser>,
    /// The leader of each group.
    pub leader: Option<PlainUser>,
    /// The listed users, each once.
    pub users: Vec<PlainUser>,
}

/// An option whose value names something that a world can have.
#[derive(Clone, Copy)]
pub(crate) enum Naming {
    Owner,
    GroupOwner,
    Leader,
    User,
}

/// An option whose value a world can't have, and why.
#[derive(Clone, Copy)]
pub(crate) struct BadOption {
    pub naming: Naming,
    pub unfit: Unfit,
}

impl Naming {
    /// The option's word.
    pub fn word(self) -> &'static str {
        match self {
            Naming::Owner => "--owner",
            Naming::GroupOwner => "--group-owner",
            Naming::Leader => "--leader",
            Naming::User => "--user",
        }
    }
}

/// What the options ask for. Where a world can't have it, that is reported.
pub(crate) fn settings_asked(
    rt: &HostRuntime,
    options: &ArgMatches<'_>,
) -> Result<Settings, Failure> {
    match settings_in(rt.alloc(), options) {
        Ok(settings) => Ok(settings),
        Err(Stop::Refused(bad)) => {
            let word = bad_word(options, bad.naming);
            Err(PROGRAM.refuse_option(rt, bad.naming.word(), word, &bad.unfit))
        }
        Err(Stop::NoMemory) => Err(Failure::NoMemory),
    }
}

// The word of an option that a world can't have.
fn bad_word<'a>(options: &ArgMatches<'a>, naming: Naming) -> &'a str {
    let word = match naming {
        Naming::Owner => options.get_str("owner"),
        Naming::GroupOwner => options.get_str("group-owner"),
        Naming::Leader => options.get_str("leader"),
        Naming::User => first_bad(options.get_strs("user").unwrap_or(&[])),
    };
    word.unwrap_or("")
}

// The first of some words that is no user.
fn first_bad<'a>(words: &[&'a str]) -> Option<&'a str> {
    words
        .iter()
        .find(|word| PlainUser::new(word).is_err())
        .copied()
}

// What the options ask for.
fn settings_in(alloc: Global, options: &ArgMatches<'_>) -> Result<Settings, Stop<BadOption>> {
    let owner = user_in(Naming::Owner, options.get_str("owner"))?;
    let group_owner = user_in(Naming::GroupOwner, options.get_str("group-owner"))?;
    let leader = user_in(Naming::Leader, options.get_str("leader"))?;
    let users = users_in(alloc, options.get_strs("user").unwrap_or(&[]))?;
    Ok(Settings {
        owner,
        group_owner,
        leader,
        users,
    })
}

// The user of an option's value, where the option is there.
fn user_in(naming: Naming, value: Option<&str>) -> Result<Option<PlainUser>, Stop<BadOption>>
    ensures { result ≡ user_asked naming (option_map (λ text. text.now) value.entry) }
{
    let Some(value) = value else {
        return Ok(None);
    };
    match PlainUser::new(value) {
        Ok(user) => Ok(Some(user)),
        Err(unfit) => Err(Stop::Refused(BadOption { naming, unfit })),
    }
}

// The users of the values, each once.
fn users_in(alloc: Global, values: &[&str]) -> Result<Vec<PlainUser>, Stop<BadOption>> {
    let mut users = Vec::new(alloc);
    add_users(values, &mut users)?;
    Ok(users)
}

// Adds the users of the values, unless they are there.
fn add_users(values: &[&str], users: &mut Vec<PlainUser>) -> Result<(), Stop<BadOption>> {
    for value in values {
        if let Some(user) = user_in(Naming::User, Some(value))? {
            add_user(user, users)?;
        }
    }
    Ok(())
}

/// Adds a user, unless it is there.
pub(crate) fn add_user(user: PlainUser, users: &mut Vec<PlainUser>) -> Result<(), NoMemory> {
    if !users.contains(&user) {
        users.push(user)?;
    }
    Ok(())
}
