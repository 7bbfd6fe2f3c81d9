//! What a program reports under its name.

use crate::arguments::{ProgramShape, program_of};
use crate::failure::Failure;
use crate::streams::{given_words, input, print};
use clap::error::ErrorKind as WordsError;
use clap::{ArgMatches, Error};
use p9_shown::AsShown;
use std::fmt::Display;
use std::io::{self, ErrorKind};

/// A program, by the name under which it reports on standard error.
#[derive(Clone, Copy)]
pub struct Program(pub &'static str);

impl Program {
    /// The words of the command line. Where one is no text, that is reported.
    pub fn words(self, rt: &HostRuntime) -> Result<Vec<String>, Failure> {
        match given_words(rt)? {
            Some(words) => Ok(words),
            None => Err(self.bad_words(rt)),
        }
    }

    /// Reports a bad command line, of which there is no more to say.
    pub fn bad_words(self, rt: &HostRuntime) -> Failure {
        let told = eprintln!(rt; "{}: bad command line", self.0);
        failure_after(told, Failure::BadWords)
    }

    /// What words ask for, as `clap` reads them. There is none where they ask for the help or the
    /// version, which is printed. What is wrong with them is reported.
    pub fn read<'a>(
        self,
        rt: &HostRuntime,
        shape: &ProgramShape,
        words: &'a [String],
    ) -> Result<Option<ArgMatches<'a>>, Failure> {
        match program_of(rt.alloc(), shape)?.try_get_matches_from(words) {
            Ok(matches) => Ok(Some(matches)),
            Err(error) => {
                self.print_error(rt, &error)?;
                Ok(None)
            }
        }
    }

    // Prints what `clap` has to say of words. What is wrong with them is a failure.
    fn print_error(self, rt: &HostRuntime, error: &Error) -> Result<(), Failure> {
        if error.kind() == WordsError::OutOfMemory {
            return Err(Failure::NoMemory);
        }
        self.had_output(rt, error.print(rt))?;
        if error.use_stderr() {
            return Err(Failure::BadWords);
        }
        Ok(())
    }

    /// The standard input, to its end.
    pub fn input(self, rt: &HostRuntime) -> Result<Vec<u8>, Failure> {
        self.had(rt, "standard input", input(rt))
    }

    /// Prints bytes on the standard output.
    pub fn print(self, rt: &HostRuntime, bytes: &[u8]) -> Result<(), Failure> {
        self.had_output(rt, print(rt, bytes))
    }

    /// What came of the standard output. Where it failed, that is reported, but not that its reader
    /// has read enough, as `head` has.
    pub fn had_output(self, rt: &HostRuntime, done: io::Result<()>) -> Result<(), Failure> {
        match done {
            Err(error) if error.kind() == ErrorKind::BrokenPipe => Err(Failure::from(error)),
            done => self.had(rt, "standard output", done),
        }
    }

    /// What was had of a place. Where input or output failed there, that is reported.
    pub fn had<T: Drop>(
        self,
        rt: &HostRuntime,
        place: &str,
        had: io::Result<T>,
    ) -> Result<T, Failure> {
        match had {
            Ok(value) => Ok(value),
            Err(error) => Err(self.failed(rt, place, error)),
        }
    }

    /// Reports where input or output failed, and why. A failed allocation is reported by the
    /// program's end.
    pub fn failed(self, rt: &HostRuntime, place: &str, error: io::Error) -> Failure {
        if error.kind() != ErrorKind::OutOfMemory {
            let _ = eprintln!(rt; "{}: {}: {error}", self.0, AsShown(place));
        }
        Failure::from(error)
    }

    /// Reports why what a word asks for can't be had, and returns how the program fails then: so, or
    /// since it can't report that.
    pub fn refuse<D: Display>(
        self,
        rt: &HostRuntime,
        word: &str,
        why: &D,
        failure: Failure,
    ) -> Failure {
        let told = eprintln!(rt; "{}: {}: {why}", self.0, AsShown(word));
        failure_after(told, failure)
    }

    /// Reports why what an option's word asks for can't be had.
    pub fn refuse_option<D: Display>(
        self,
        rt: &HostRuntime,
        option: &str,
        word: &str,
        why: &D,
    ) -> Failure {
        let told = eprintln!(rt; "{}: {option} {}: {why}", self.0, AsShown(word));
        failure_after(told, Failure::BadWords)
    }
}

// How a program fails after a report: so, or since the report failed.
fn failure_after(told: io::Result<()>, failure: Failure) -> Failure {
    match told {
        Ok(()) => failure,
        Err(error) => Failure::from(error),
    }
}
