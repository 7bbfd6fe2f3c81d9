//! The program `p9`: it runs the command that its words ask for over its standard input, or serves
//! that to clients.
#![tactic(auto)]

use p9_asked::{Asked, command_asked};
use p9_base::NoMemory;
use p9_commands::{BadCommandLine, Command};
use p9_prepared::status::BAD_COMMAND_LINE;
use p9_serve::{report_failure, run_serve};
use p9_shell::{given_words, input, print, tell};
use std::alloc::AllocError;
use std::io;
use std::net::SocketAddr;
use std::process::ExitCode;

fn main(rt: HostRuntime) -> ExitCode {
    ExitCode::from(status_of(&rt))
}

// Runs the program, and reports on standard error what kept it from its work.
fn status_of(rt: &HostRuntime) -> u8 {
    match run(rt) {
        Ok(status) => status,
        Err(error) => report_failure(&error, &mut rt.stderr()),
    }
}

// Does what the words ask for, and returns the exit status.
fn run(rt: &HostRuntime) -> io::Result<u8> {
    match asked(rt)? {
        Some(Asked::Command(command)) => run_over_input(rt, command),
        Some(Asked::Serve { address, rounds }) => serve_input(rt, address, rounds),
        None => {
            eprintln!(rt; "{BadCommandLine}")?;
            Ok(BAD_COMMAND_LINE)
        }
    }
}

// What the words ask for. Words that are no text ask for nothing.
fn asked(rt: &HostRuntime) -> io::Result<Option<Asked>> {
    match given_words(rt)? {
        Some(words) => Ok(command_asked(rt.alloc(), words.as_slice())?),
        None => Ok(None),
    }
}

// Runs a command over the standard input, and then prints what it gives.
fn run_over_input(rt: &HostRuntime, command: Command) -> io::Result<u8> {
    let input = input(rt)?;
    let mut out = Vec::new(rt.alloc());
    let mut err = Vec::new(rt.alloc());
    let status = match p9_commands::run(command, input.as_slice(), &mut out, &mut err) {
        Ok(status) => status,
        Err(NoMemory) => return Err(io::Error::from(AllocError)),
    };
    print(rt, out.as_slice())?;
    tell(rt, err.as_slice())?;
    Ok(status)
}

// Serves the standard input.
fn serve_input(rt: &HostRuntime, address: SocketAddr, rounds: u64) -> io::Result<u8> {
    let input = input(rt)?;
    let status = run_serve(
        rt,
        address,
        rounds,
        input.as_slice(),
        &mut rt.stdout(),
        &mut rt.stderr(),
    );
    Ok(status)
}
