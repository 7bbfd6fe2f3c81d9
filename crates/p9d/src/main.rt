//! The program `p9d`: a server that stays, and lets each client in as the users of the address that it
//! comes to.
#![tactic(auto)]

mod accepting;
mod address;
mod check;
mod client;
mod counting;
mod door;
mod end;
mod export;
mod gate;
mod journal;
mod keeper;
mod keeping;
mod kept_tree;
mod peer;
mod serve;
mod visit;
mod visitors;
mod watch;
mod words;

use crate::address::{Address, BadAddress, address_of};
use crate::check::check;
use crate::client::{Client, Coming, Visiting};
use crate::door::{Door, close_doors};
use crate::export::{About, Export, read_export};
use crate::keeper::Keeper;
use crate::kept_tree::{KeptTree, Trees};
use crate::serve::Daemon;
use crate::visitors::Visitors;
use crate::words::{Asked, SHAPE, asked_in, limit_of_none};
use clap::ArgMatches;
use p9_base::User;
use p9_guard::Guard;
use p9_restricted::has_no_blank_name;
use p9_shell::status::DONE;
use p9_shell::{Failure, Program, exit, tell};
use p9_shown::AsShown;
use std::alloc::Global;
use std::io::{self, Write};
use std::process::ExitCode;

/// The name under which the program reports.
pub(crate) const PROGRAM: Program = Program("p9d");

fn main(rt: HostRuntime) -> ExitCode {
    exit(&rt, run(&rt))
}

// Does what the words ask for, and returns the exit status.
fn run(rt: &HostRuntime) -> Result<u8, Failure> {
    let words = PROGRAM.words(rt)?;
    match PROGRAM.read(rt, &SHAPE, words.as_slice())? {
        Some(matches) => run_words(rt, &matches),
        None => Ok(DONE),
    }
}

// Does what the words ask for that `clap` read.
fn run_words(rt: &HostRuntime, matches: &ArgMatches<'_>) -> Result<u8, Failure> {
    if let Some(folder) = matches.get_str("check") {
        return check(rt, folder);
    }
    if matches.get_str("folder").is_none() && matches.get_one::<usize>("seconds").is_some() {
        return Err(PROGRAM.refuse(rt, "-s", &"nothing is kept without -d", Failure::BadWords));
    }
    if let Some(option) = limit_of_none(matches) {
        let why = "no client could stay";
        return Err(PROGRAM.refuse_option(rt, option, "0", &why));
    }
    match (asked_in(matches), matches.get_strs("address")) {
        (Some(asked), Some(addresses)) => run_asked::<Client<Visiting>, Trees>(
            rt, asked, addresses,
        ),
        _ => Err(PROGRAM.bad_words(rt)),
    }
}

// Serves an export at addresses.
fn run_asked<S: Coming, T: KeptTree>(
    rt: &HostRuntime,
    asked: Asked<'_>,
    texts: &[&str],
) -> Result<u8, Failure> {
    let addresses = addresses_of(rt, texts)?;
    let Export {
        guard,
        about,
        folder,
    } = read_export::<T>(rt, asked)?;
    let keeper = folder.map(|folder| Keeper::new(folder, asked.sync_seconds));
    let mut doors = Vec::new(rt.alloc());
    match open_doors(rt, asked.export, &about, addresses.as_slice(), &mut doors) {
        Ok(()) => serve_doors::<S, T>(rt, asked, doors, keeper, guard),
        Err(failure) => {
            close_doors(rt, doors.as_slice());
            drop(guard);
            Err(failure)
        }
    }
}

// Serves a guard to who comes to these doors.
fn serve_doors<S: Coming, T: KeptTree>(
    rt: &HostRuntime,
    asked: Asked<'_>,
    doors: Vec<Door>,
    keeper: Option<Keeper>,
    guard: Guard<T>,
) -> Result<u8, Failure> {
    match Visitors::new(rt.alloc(), asked.limits, asked.is_quiet) {
        Ok(visitors) => {
            Daemon::new(doors, visitors, keeper).serve::<S, T>(rt, guard)?;
            Ok(DONE)
        }
        Err(error) => {
            close_doors(rt, doors.as_slice());
            drop(guard);
            Err(Failure::from(error))
        }
    }
}

// Says what is served, and listens at each address.
fn open_doors(
    rt: &HostRuntime,
    export: &str,
    about: &About,
    addresses: &[Address<'_>],
    doors: &mut Vec<Door>,
) -> Result<(), Failure> {
    tell(rt, about.reports.as_slice())?;
    tell(rt, about.text.as_bytes())?;
    check_users(rt, export, addresses, about.users.as_slice())?;
    for address in addresses {
        open_door(rt, address, doors)?;
    }
    PROGRAM.had(rt, "standard output", print_addresses(rt, doors.as_slice()))
}

// Listens at an address.
fn open_door(
    rt: &HostRuntime,
    address: &Address<'_>,
    doors: &mut Vec<Door>,
) -> Result<(), Failure> {
    let door = PROGRAM.had(rt, address.text, Door::open(rt, address))?;
    doors.push(door)?;
    Ok(())
}

// The addresses that texts write. The first one that is none is reported.
fn addresses_of<'a>(rt: &HostRuntime, texts: &[&'a str]) -> Result<Vec<Address<'a>>, Failure> {
    let mut addresses = Vec::new(rt.alloc());
    for text in texts {
        addresses.push(address_in(rt, text)?)?;
    }
    Ok(addresses)
}

// The address that a text writes. A text that writes none is reported.
fn address_in<'a>(rt: &HostRuntime, text: &'a str) -> Result<Address<'a>, Failure> {
    match address_of(rt.alloc(), text) {
        Ok(address) => Ok(address),
        Err(bad) => Err(report_bad(rt, text, bad)),
    }
}

// Reports why a text is no address.
fn report_bad(rt: &HostRuntime, text: &str, bad: BadAddress<'_>) -> Failure {
    match bad {
        BadAddress::Place(place) => PROGRAM.refuse(
            rt,
            place,
            &"neither an IP address with a port nor unix:PATH",
            Failure::BadWords,
        ),
        BadAddress::User(name) => match format!(in rt.alloc();
            "'{}' is no user's name",
            AsShown(name)
        ) {
            Ok(why) => PROGRAM.refuse(rt, text, &why.as_str(), Failure::BadWords),
            Err(_) => Failure::NoMemory,
        },
        BadAddress::NoMemory => Failure::NoMemory,
    }
}

// Reports an export that has a user of blanks alone, or else the first user of these addresses who
// isn't listed.
fn check_users(
    rt: &HostRuntime,
    export: &str,
    addresses: &[Address<'_>],
    listed: &[User],
) -> Result<(), Failure> {
    if !has_no_blank_name(listed) {
        let why = "a user's name is of blanks alone";
        return Err(PROGRAM.refuse(rt, export, &why, Failure::Refused));
    }
    for address in addresses {
        if let Some(user) = first_unlisted(address, listed) {
            let why = "no listed user of the export";
            return Err(PROGRAM.refuse(rt, user.as_str(), &why, Failure::BadWords));
        }
    }
    Ok(())
}

// The first user of an address who isn't listed.
fn first_unlisted(address: &Address<'_>, listed: &[User]) -> Option<User> {
    match &address.users {
        Some(users) => users.iter().find(|user| !listed.contains(user)).copied(),
        None => None,
    }
}

// Prints a line for each address that is listened at.
fn print_addresses(rt: &HostRuntime, doors: &[Door]) -> io::Result<()> {
    for door in doors {
        println!(rt; "listening {}", door.name.as_str())?;
    }
    rt.stdout().flush()
}
