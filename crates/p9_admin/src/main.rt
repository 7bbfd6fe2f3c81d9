//! The program `p9_admin`: from a directory of the disk to a world, from an input to a sealed one, to a
//! verdict in words, to its name space, or to a picture, and from what a server keeps to an input or to
//! directories of the disk. It has an example, too.
#![tactic(auto)]

mod accounts;
mod attributes;
mod demo;
mod hide;
mod node;
mod output;
mod over_input;
mod owner;
mod pack;
mod pack_tree;
mod present;
mod reason;
mod rename;
mod settings;
mod sink;
mod source;
mod streams;
mod unpack;
mod unpacking;
mod words;
mod world;

use crate::demo::run_demo;
use crate::over_input::run_over_input;
use crate::pack::run_pack;
use crate::unpack::run_unpack;
use crate::words::SHAPE;
use crate::world::run_world;
use clap::ArgMatches;
use p9_inputs::InputCommand;
use p9_shell::status::DONE;
use p9_shell::{Failure, Program, exit};
use std::process::ExitCode;

/// The name under which the program reports.
pub(crate) const PROGRAM: Program = Program("p9_admin");

fn main(rt: HostRuntime) -> ExitCode {
    exit(&rt, run(&rt))
}

// Runs the command that the words ask for, and returns the exit status.
fn run(rt: &HostRuntime) -> Result<u8, Failure> {
    let words = PROGRAM.words(rt)?;
    match PROGRAM.read(rt, &SHAPE, words.as_slice())? {
        Some(matches) => run_command(rt, &matches),
        None => Ok(DONE),
    }
}

// Runs the command that was read of the words.
fn run_command(rt: &HostRuntime, matches: &ArgMatches<'_>) -> Result<u8, Failure> {
    match matches.subcommand() {
        Some(("pack", options)) => run_pack(rt, options),
        Some(("demo", options)) => run_demo(rt, options),
        Some(("world", options)) => run_world(rt, options),
        Some(("unpack", options)) => run_unpack(rt, options),
        Some((name, options)) => match InputCommand::named(name) {
            Some(command) => run_over_input(rt, command, options),
            None => Err(PROGRAM.bad_words(rt)),
        },
        None => Err(PROGRAM.bad_words(rt)),
    }
}
