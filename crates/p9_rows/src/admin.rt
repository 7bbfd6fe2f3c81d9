//! How the commands of `p9_admin` end that read an input.

use crate::body::Ending;
use clap::error::ErrorKind;
use clap::{ArgMatches, Error};
use p9_base::NoMemory;
use p9_inputs::InputCommand;
use p9_inputs::shapes::{EXPLAIN, MAP, SEAL, TREE};
use p9_shell::status::{BAD_COMMAND_LINE, DONE};
use p9_shell::{ProgramShape, program_of};
use p9_tree::Tree;
use std::alloc::{AllocError, Global};

// The program, as far as it is played here.
const ADMIN: ProgramShape = ProgramShape {
    name: "p9_admin",
    about: "What an administrator of an export does",
    args: &[],
    commands: &[SEAL, EXPLAIN, TREE, MAP],
    is_helping: true,
};

/// How `p9_admin` ends over an input, by the name of a command and the words after it, with a comma
/// between them.
pub fn administered<T: Tree<Alloc = Global>>(
    alloc: Global,
    input: &[u8],
    name: &str,
    argument: Option<&str>,
) -> Result<Ending, AllocError> {
    let words = words_of(alloc, name, argument)?;
    match program_of(alloc, &ADMIN)?.try_get_matches_from(words.as_slice()) {
        Ok(matches) => run::<T>(alloc, input, &matches),
        Err(error) => told(alloc, &error),
    }
}

// The words of the command line.
fn words_of<'a>(
    alloc: Global,
    name: &'a str,
    argument: Option<&'a str>,
) -> Result<Vec<&'a str>, AllocError> {
    let mut words = Vec::new(alloc);
    words.push(ADMIN.name)?;
    words.push(name)?;
    if let Some(argument) = argument {
        words.extend(argument.split(','))?;
    }
    Ok(words)
}

// How the command ends that `clap` read.
fn run<T: Tree<Alloc = Global>>(
    alloc: Global,
    input: &[u8],
    matches: &ArgMatches<'_>,
) -> Result<Ending, AllocError> {
    let mut ending = Ending::new(alloc);
    let Some((name, options)) = matches.subcommand() else {
        return Ok(ending);
    };
    let Some(command) = InputCommand::named(name) else {
        return Ok(ending);
    };
    match command.run::<T>(input, options, &mut ending.out, &mut ending.err) {
        Ok(status) => {
            ending.status = status;
            Ok(ending)
        }
        Err(NoMemory) => Err(AllocError),
    }
}

// How the program ends where `clap` reads no command in the words: as it says.
fn told(alloc: Global, error: &Error) -> Result<Ending, AllocError> {
    if error.kind() == ErrorKind::OutOfMemory {
        return Err(AllocError);
    }
    let mut ending = Ending::new(alloc);
    let text = error.to_string(alloc)?.into_bytes();
    if error.use_stderr() {
        ending.err = text;
        ending.status = BAD_COMMAND_LINE;
    } else {
        ending.out = text;
        ending.status = DONE;
    }
    Ok(ending)
}
