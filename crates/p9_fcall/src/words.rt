//! The words of the command line.

ghost use Rattle.std.specs.Prelude.{◌≡◌, IfOk, map, option_map};
ghost use Rattle.std.specs.String.{string_bytes};
ghost use Rattle.clap.specs.Words.{app_of};
ghost use Rattle.p9_fcall.specs.Words.{asked_by, asked_with, bare_program, known, program_app};
ghost use Rattle.p9_fcall.specs.Words.{with_command};

use clap::Command as Words;
use clap::error::ErrorKind;
use std::alloc::{AllocError, Global};

/// What the program does with its input.
#[derive(Clone, Copy, Debug, PartialEq, Eq)]
pub enum Command {
    /// It writes a script in words as `p9 play` reads it.
    Frames,
    /// It shows what was played as an exchange in words.
    Exchange,
}

/// The command that the words ask for, or `None` where they are a bad command line. The first word
/// is the program's name. Without another word the command is `frames`. One other word is the
/// command, where it is `frames` or `exchange`. The error is a failed allocation.
pub fn command_asked(alloc: Global, words: &[String]) -> Result<Option<Command>, AllocError>
    ensures { IfOk result (λ asked. asked ≡ asked_by (map string_bytes words.now)) }
{
    let matches = match program(alloc)?.try_get_matches_from(words) {
        Ok(matches) => matches,
        Err(error) if error.kind() == ErrorKind::OutOfMemory => return Err(AllocError),
        Err(_) => return Ok(None),
    };
    Ok(command_read(matches.subcommand_name(), words))
}

// The command that a subcommand's name and the words ask for. The name has to be the only word, so
// that no `--` is among the words.
fn command_read(name: Option<&str>, words: &[String]) -> Option<Command>
    ensures { result
        ≡ asked_with (option_map (λ text. text.now) name.entry) (map string_bytes words.now) }
{
    match (name, words) {
        (None, [] | [_]) => Some(Command::Frames),
        (Some(name), [_, word]) if word.as_str() == name => command_named(name),
        _ => None,
    }
}

// The command of a name.
fn command_named(name: &str) -> Option<Command>
    ensures { result ≡ known name.now }
{
    match name {
        "frames" => Some(Command::Frames),
        "exchange" => Some(Command::Exchange),
        _ => None,
    }
}

// The program's command line: at most one word, the command. There is no help to ask for.
fn program<'a>(alloc: Global) -> Result<Words<'a>, AllocError>
    ensures { IfOk result (λ program. app_of program ≡ program_app) }
{
    let program = bare_program(alloc);
    let program = with_command(alloc, program, "frames")?;
    with_command(alloc, program, "exchange")
}

// The program without its commands.
fn bare_program<'a>(alloc: Global) -> Words<'a>
    ensures { app_of result ≡ bare_program }
{
    Words::new(alloc, "p9_fcall")
        .disable_help_flag(true)
        .disable_version_flag(true)
        .disable_help_subcommand(true)
}

// Adds the command of a name, after which nothing may follow.
fn with_command<'a>(
    alloc: Global,
    program: Words<'a>,
    name: &'a str,
) -> Result<Words<'a>, AllocError>
    ensures { IfOk result (λ more. app_of more ≡ with_command name.now (app_of program.entry)) }
{
    program.subcommand(Words::new(alloc, name).disable_help_flag(true))
}
