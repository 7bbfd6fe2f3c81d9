//! The command `pack`: the text of a world of directories of the disk.

ghost use Rattle.std.specs.Prelude.{◌≡◌};
ghost use Rattle.p9_admin.specs.Status.{exit_status};

use crate::PROGRAM;
use crate::accounts::accounts_text;
use crate::hide::Hide;
use crate::node::Packing;
use crate::output::Output;
use crate::owner::leader_of;
use crate::pack_tree::pack_tree;
use crate::reason::Reason;
use crate::rename::{Rename, renames_in};
use crate::settings::{Settings, settings_asked};
use crate::source::{Source, hides_in, sources_in};
use clap::ArgMatches;
use p9_pack::Accounts;
use p9_prepared::{Section, print_line};
use p9_shell::Failure;
use p9_shell::status::{DONE, REFUSED};
use p9_shown::AsShown;
use p9_world::{GroupLine, HideLine, PlainName, PlainUser, write_group, write_hide, write_user};
use std::alloc::{AllocError, Global};

/// Runs the command, and returns the exit status.
pub(crate) fn run_pack(rt: &HostRuntime, options: &ArgMatches<'_>) -> Result<u8, Failure> {
    let dirs = options.get_strs("dirs").unwrap_or(&[]);
    if let (Some(name), [_, _, ..]) = (options.get_str("name"), dirs) {
        return Err(PROGRAM.refuse_option(rt, "--name", name, &"it is for one directory"));
    }
    let settings = settings_asked(rt, options)?;
    pack_by(rt, options, dirs, &settings)
}

// Packs directories by these settings and the files of accounts, and returns the exit status.
fn pack_by(
    rt: &HostRuntime,
    options: &ArgMatches<'_>,
    dirs: &[&str],
    settings: &Settings,
) -> Result<u8, Failure> {
    let passwd = options.get_str("passwd").unwrap_or("/etc/passwd");
    let passwd = accounts_text(rt, "--passwd", passwd)?;
    let group = options.get_str("group").unwrap_or("/etc/group");
    let group = accounts_text(rt, "--group", group)?;
    let accounts = Accounts::read(rt.alloc(), passwd.as_str(), group.as_str())?;
    pack_dirs(rt, options, dirs, settings, &accounts)
}

// Packs directories, and returns the exit status.
fn pack_dirs(
    rt: &HostRuntime,
    options: &ArgMatches<'_>,
    dirs: &[&str],
    settings: &Settings,
    accounts: &Accounts<'_, Global>,
) -> Result<u8, Failure> {
    let sources = sources_in(rt, settings, accounts, options.get_str("name"), dirs)?;
    let renames = renames_in(rt, options.get_strs("rename").unwrap_or(&[]))?;
    pack_sources(rt, options, settings, accounts, renames.as_slice(), sources)
}

// Packs open directories, and returns the exit status.
fn pack_sources(
    rt: &HostRuntime,
    options: &ArgMatches<'_>,
    settings: &Settings,
    accounts: &Accounts<'_, Global>,
    renames: &[Rename<'_>],
    sources: Vec<Source>,
) -> Result<u8, Failure> {
    let mut packing = packing_of(rt, options, settings, accounts, renames, sources.as_slice())?;
    let done = pack_world(rt, &mut packing, sources);
    end(rt, packing, done, options.get_flag("skip"))
}

// Begins what is packed of these directories.
fn packing_of<'s>(
    rt: &HostRuntime,
    options: &ArgMatches<'_>,
    settings: &'s Settings,
    accounts: &'s Accounts<'s, Global>,
    renames: &'s [Rename<'s>],
    sources: &[Source],
) -> Result<Packing<'s>, Failure> {
    let values = options.get_strs("hide").unwrap_or(&[]);
    let with_hidden = options.get_flag("with-hidden");
    let hides = hides_in(rt, values, renames, with_hidden, sources)?;
    let output = Output::open(rt, options.get_str("output"))?;
    Ok(Packing {
        output,
        settings,
        accounts,
        renames,
        hides,
        with_hidden,
        groups: Vec::new(rt.alloc()),
    })
}

// Ends what is printed, and returns the exit status. A file stays as it was, where a directory that
// was to be hidden is not there.
fn end(
    rt: &HostRuntime,
    packing: Packing<'_>,
    done: Result<(), Failure>,
    skip: bool,
) -> Result<u8, Failure> {
    let Packing {
        output,
        settings: _,
        accounts: _,
        renames: _,
        hides,
        with_hidden: _,
        groups: _,
    } = packing;
    let is_whole = hides.iter().all(|hide| hide.is_there);
    let left_out = output.left_out;
    output.end(rt, done.is_ok(), is_whole)?;
    done?;
    Ok(exit_status(left_out, is_whole, skip))
}

// The exit status where so much is left out, and all that is to be hidden is there or not.
fn exit_status(left_out: u64, is_whole: bool, skip: bool) -> u8
    ensures { result ≡ exit_status left_out is_whole skip }
{
    if is_whole && (left_out == 0 || skip) {
        DONE
    } else {
        REFUSED
    }
}

// Packs all lines of the world.
fn pack_world(
    rt: &HostRuntime,
    packing: &mut Packing<'_>,
    sources: Vec<Source>,
) -> Result<(), Failure> {
    print_line(Section::World.head(), &mut packing.output.text)?;
    pack_trees(rt, packing, sources)?;
    pack_groups(rt, packing)?;
    pack_users(rt, &mut packing.output, packing.settings.users.as_slice())?;
    pack_hides(rt, &mut packing.output, packing.hides.as_slice())?;
    packing.output.flush(rt)?;
    Ok(eprintln!(rt; "note: times are not packed")?)
}

// Packs directories, each as a server.
fn pack_trees(
    rt: &HostRuntime,
    packing: &mut Packing<'_>,
    sources: Vec<Source>,
) -> Result<(), Failure> {
    for source in sources {
        pack_tree(rt, packing, source)?;
    }
    Ok(())
}

// Packs the groups that occur.
fn pack_groups(rt: &HostRuntime, packing: &mut Packing<'_>) -> Result<(), Failure> {
    for group in packing.groups.as_slice() {
        let leader = leader_of(packing.settings.leader, packing.accounts, *group);
        pack_group(rt, &mut packing.output, packing.accounts, *group, leader)?;
    }
    Ok(())
}

// Packs a group with its members.
fn pack_group(
    rt: &HostRuntime,
    output: &mut Output,
    accounts: &Accounts<'_, Global>,
    name: PlainUser,
    leader: PlainUser,
) -> Result<(), Failure> {
    let members = members_of(rt, output, accounts, name)?;
    let line = GroupLine {
        name,
        leader,
        members: members.as_slice(),
    };
    let added = write_group(rt.alloc(), &line, &mut output.text);
    output.count(rt, added)
}

// The members of a group. Those that a world can't have are left out.
fn members_of(
    rt: &HostRuntime,
    output: &mut Output,
    accounts: &Accounts<'_, Global>,
    name: PlainUser,
) -> Result<Vec<PlainUser>, Failure> {
    let found = accounts.members(rt.alloc(), name.as_str())?;
    let mut members = Vec::new(rt.alloc());
    for member in found.as_slice() {
        push_member(rt, output, member, &mut members)?;
    }
    Ok(members)
}

// Adds a member of a group, unless a world can't have it.
fn push_member(
    rt: &HostRuntime,
    output: &mut Output,
    name: &str,
    members: &mut Vec<PlainUser>,
) -> Result<(), Failure> {
    match PlainUser::new(name) {
        Ok(member) => Ok(members.push(member)?),
        Err(unfit) => output.leave_out(rt, name, Reason::from(unfit)),
    }
}

// Packs the listed users.
fn pack_users(rt: &HostRuntime, output: &mut Output, users: &[PlainUser]) -> Result<(), Failure> {
    for user in users {
        let added = write_user(rt.alloc(), *user, &mut output.text);
        output.count(rt, added)?;
    }
    Ok(())
}

// Packs what is to be hidden. Where a directory is not there, the line says so to who reads the world:
// it is refused.
fn pack_hides(rt: &HostRuntime, output: &mut Output, hides: &[Hide]) -> Result<(), Failure> {
    for hide in hides {
        let line = HideLine {
            server: hide.server,
            path: hide.path.as_slice(),
        };
        let added = write_hide(rt.alloc(), &line, &mut output.text);
        output.count(rt, added)?;
        if !hide.is_there {
            report_missing(rt, hide)?;
        }
    }
    Ok(())
}

// Reports a directory that is to be hidden and is not there.
fn report_missing(rt: &HostRuntime, hide: &Hide) -> Result<(), Failure> {
    let place = place_of(rt.alloc(), hide)?;
    let place = AsShown(place.as_str());
    Ok(eprintln!(rt;
        "p9_admin: --hide {place}: the directory is not packed, so no program takes this world"
    )?)
}

// The server and the path of a directory that is to be hidden.
fn place_of(alloc: Global, hide: &Hide) -> Result<String, AllocError> {
    let mut place = String::from_str(alloc, hide.server.as_str())?;
    place.push(':')?;
    push_path(&mut place, hide.path.as_slice())?;
    Ok(place)
}

// Adds a path of these names.
fn push_path(text: &mut String, names: &[PlainName]) -> Result<(), AllocError> {
    for name in names {
        text.push('/')?;
        text.push_str(name.as_str())?;
    }
    Ok(())
}
