//! The program `p9_fcall`: it turns scripts in words into the scripts that `p9 play` reads, and
//! shows what was played as an exchange in words.
#![tactic(auto)]

mod words;

use p9_exchange::{Stop, show_exchange, write_script};
use p9_shell::status::DONE;
use p9_shell::{Failure, Program, VERSION, exit, input, print};
use std::io::{self, ErrorKind};
use std::process::ExitCode;
use words::{Command, command_asked};

// The name under which the program reports.
const PROGRAM: Program = Program("p9_fcall");

fn main(rt: HostRuntime) -> ExitCode {
    exit(&rt, run(&rt))
}

// Runs the command that the words ask for, or prints the version, and returns the exit status.
fn run(rt: &HostRuntime) -> Result<u8, Failure> {
    let words = PROGRAM.words(rt)?;
    if is_for_version(words.as_slice()) {
        let text = format!(in rt.alloc(); "p9_fcall {VERSION}\n")?;
        return finish(rt, text.as_bytes());
    }
    match command_asked(rt.alloc(), words.as_slice())? {
        Some(command) => run_over_input(rt, command),
        None => Err(PROGRAM.bad_words(rt)),
    }
}

// Whether the words ask for the version.
fn is_for_version(words: &[String]) -> bool {
    match words {
        [_, word] => word.as_str() == "--version",
        _ => false,
    }
}

// Runs a command over the standard input, which is read whole, and prints what it makes or why it
// makes nothing.
fn run_over_input(rt: &HostRuntime, command: Command) -> Result<u8, Failure> {
    let input = had(rt, input(rt))?;
    match output_of(rt, command, input.as_slice()) {
        Ok(text) => finish(rt, text.as_slice()),
        Err(Stop::Refused(refusal)) => {
            eprintln!(rt; "{refusal}")?;
            Err(Failure::Refused)
        }
        Err(Stop::NoMemory) => Err(Failure::NoMemory),
    }
}

// Prints all of a text, and returns the exit status.
fn finish(rt: &HostRuntime, text: &[u8]) -> Result<u8, Failure> {
    had(rt, print(rt, text))?;
    Ok(DONE)
}

// What was had of the standard streams. Where they failed, that is reported, but not that the reader of
// the output has read enough, as `head` has.
fn had<T: Drop>(rt: &HostRuntime, done: io::Result<T>) -> Result<T, Failure> {
    match done {
        Ok(value) => Ok(value),
        Err(error) => {
            if !matches!(error.kind(), ErrorKind::OutOfMemory | ErrorKind::BrokenPipe) {
                let _ = eprintln!(rt; "input or output failed");
            }
            Err(Failure::from(error))
        }
    }
}

// What a command makes of an input.
fn output_of(rt: &HostRuntime, command: Command, input: &[u8]) -> Result<Vec<u8>, Stop> {
    match command {
        Command::Frames => Ok(write_script(rt.alloc(), input)?.into_bytes()),
        Command::Exchange => show_exchange(rt.alloc(), input),
    }
}
