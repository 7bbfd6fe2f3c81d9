//! The program `p9_fs`: it shows what an export has, and copies files from it and to it.
#![tactic(auto)]

mod connect;
mod failure;
mod get;
mod limits;
mod names;
mod owners;
mod printing;
mod put;
mod remote;
mod removing;
mod shell;
mod sink;
mod usage;
mod watched;
mod words;

use crate::connect::{Client, connect};
use crate::failure::{Failure, finish_output, report_mode, report_text};
use crate::shell::{run_line, run_lines};
use crate::usage::finish_words;
use crate::words::{SHAPE, Verb, verb_of};
use clap::ArgMatches;
use p9_client::Stream;
use p9_shell::{given_words, program_of};
use std::io::{IsTerminal, Write};
use std::process::ExitCode;

fn main(rt: HostRuntime) -> ExitCode {
    match run(&rt) {
        Ok(()) => ExitCode::SUCCESS,
        Err(failure) => ExitCode::from(failure.status()),
    }
}

// Does what the words ask for. What keeps it from that is reported where it is met.
fn run(rt: &HostRuntime) -> Result<(), Failure> {
    let words = words_of(rt)?;
    match program_of(rt.alloc(), &SHAPE)?.try_get_matches_from(words.as_slice()) {
        Ok(matches) => run_matches(rt, &matches),
        Err(error) => finish_words(rt, &error),
    }
}

// The words of the command line.
fn words_of(rt: &HostRuntime) -> Result<Vec<String>, Failure> {
    match given_words(rt) {
        Ok(Some(words)) => Ok(words),
        Ok(None) => Err(report_text(rt, "a word is not UTF-8", Failure::BadWords)),
        Err(_) => Err(Failure::NoMemory),
    }
}

// Does what the words ask for that `clap` read.
fn run_matches(rt: &HostRuntime, matches: &ArgMatches<'_>) -> Result<(), Failure> {
    let Some(verb) = verb_of(matches) else {
        return Err(report_mode(rt));
    };
    let mut client = connect(rt, matches, is_reported(rt, verb))?;
    let done = run_verb(rt, &mut client, verb);
    let printed = finish_output(rt, rt.stdout().flush());
    done?;
    printed
}

// Runs one command, or those of the standard input.
fn run_verb<S: Stream + Drop>(
    rt: &HostRuntime,
    client: &mut Client<S>,
    verb: Verb<'_>,
) -> Result<(), Failure> {
    match verb {
        Verb::Shell => run_lines(rt, client),
        verb => run_line(rt, client, verb),
    }
}

// Whether a command that takes long is reported: on a terminal, unless it prints a file there.
fn is_reported(rt: &HostRuntime, verb: Verb<'_>) -> bool {
    match verb {
        Verb::Cat { .. } => rt.stderr().is_terminal() && !rt.stdout().is_terminal(),
        _ => rt.stderr().is_terminal(),
    }
}
