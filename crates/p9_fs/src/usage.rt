//! What is printed of the words: their help, the version, or what is wrong with them.

use crate::failure::{Failure, finish_output};
use clap::Error;
use clap::error::ErrorKind;
use p9_shown::AsShown;
use std::io;
use std::io::Write;

/// Prints what `clap` has to say of words: the help or the version, or else what is wrong with them.
pub fn finish_words(rt: &HostRuntime, error: &Error) -> Result<(), Failure> {
    match error.kind() {
        ErrorKind::DisplayHelp | ErrorKind::DisplayVersion => {
            finish_output(rt, print_help(rt, error))
        }
        ErrorKind::OutOfMemory => Err(Failure::NoMemory),
        _ => Err(report_words(rt, error)),
    }
}

// Prints the help or the version.
fn print_help(rt: &HostRuntime, error: &Error) -> io::Result<()> {
    error.print(rt)?;
    rt.stdout().flush()
}

// Reports what is wrong with words, and returns how the command fails.
fn report_words(rt: &HostRuntime, error: &Error) -> Failure {
    let Ok(text) = format!(in rt.alloc(); "{error}") else {
        return Failure::NoMemory;
    };
    for line in text.as_str().lines() {
        let line = AsShown(line);
        let _ = eprintln!(rt; "{line}");
    }
    Failure::BadWords
}
