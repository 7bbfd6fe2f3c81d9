//! Where a command's text goes.

use crate::PROGRAM;
use p9_files::{NewFile, OUTPUT_MODE};
use p9_shell::Failure;
use std::alloc::Global;
use std::fs::File;
use std::io::Write;

/// Where a command's text goes: to standard output, or into a file, which takes the place of the one
/// before once all of it is written. What fails is reported.
pub(crate) struct Sink {
    place: String,
    file: Option<NewFile<File, Global>>,
}

impl Sink {
    /// Begins the file of a path, or goes to standard output.
    pub fn open(rt: &HostRuntime, path: Option<&str>) -> Result<Sink, Failure> {
        let place = String::from_str(rt.alloc(), path.unwrap_or("standard output"))?;
        match path {
            Some(path) => Ok(Sink {
                place,
                file: Some(new_file(rt, path)?),
            }),
            None => Ok(Sink { place, file: None }),
        }
    }

    /// Whether the text goes into a file.
    pub fn is_file(&self) -> bool {
        self.file.is_some()
    }

    /// Writes bytes after those that are written.
    pub fn write_all(&mut self, rt: &HostRuntime, bytes: &[u8]) -> Result<(), Failure> {
        match &mut self.file {
            Some(file) => PROGRAM.had(rt, self.place.as_str(), file.write_all(bytes)),
            None => PROGRAM.had_output(rt, rt.stdout().write_all(bytes)),
        }
    }

    /// Ends what is written: a file takes its place.
    pub fn keep(self, rt: &HostRuntime) -> Result<(), Failure> {
        let Sink { place, file } = self;
        match file {
            Some(file) => PROGRAM.had(rt, place.as_str(), file.finish(rt, OUTPUT_MODE)),
            None => PROGRAM.had_output(rt, rt.stdout().flush()),
        }
    }

    /// Removes a file, so that the one before stays. What is on standard output is there.
    pub fn discard(self, rt: &HostRuntime) -> Result<(), Failure> {
        let Sink { place, file } = self;
        let done = match file {
            Some(file) => file.discard(rt),
            None => Ok(()),
        };
        PROGRAM.had(rt, place.as_str(), done)
    }
}

// Begins the file of a path.
fn new_file(rt: &HostRuntime, path: &str) -> Result<NewFile<File, Global>, Failure> {
    match NewFile::create(rt, rt.alloc(), path) {
        Ok(file) => Ok(file),
        Err(error) => Err(PROGRAM.failed(rt, path, error)),
    }
}

/// Writes all of a text where it goes.
pub(crate) fn write_text(rt: &HostRuntime, path: Option<&str>, text: &[u8]) -> Result<(), Failure> {
    let mut sink = Sink::open(rt, path)?;
    match sink.write_all(rt, text) {
        Ok(()) => sink.keep(rt),
        Err(failure) => {
            let _ = sink.discard(rt);
            Err(failure)
        }
    }
}
