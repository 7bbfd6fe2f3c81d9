//! The program's commands, and how each ends over an input.

ghost use Rattle.std.specs.Prelude.{◌≡◌, IfOk, OnErr};
ghost use Rattle.p9_commands.specs.Command.{CommandEnds, IsUnchanged, WordEnds, Works};
ghost use Rattle.p9_commands.specs.Command.{asked, gap_against, needs_of, printed};
ghost use Rattle.p9_prepared.specs.Prepared.{gap_in};

use crate::judgement::{check, print_verified};
use crate::listing::list;
use p9_base::NoMemory;
use p9_index::IndexTree;
use p9_play::play_script;
use p9_prepared::status::{BAD_COMMAND_LINE, DONE, REFUSED};
use p9_prepared::{Needs, Prepared, prepare_and_report, print_stop};
use p9_tree::Tree;
use std::alloc::Allocator;
use std::str::FromStr;
use thiserror::Error;

/// The commands over one input that end by themselves.
#[derive(Clone, Copy, Debug, PartialEq, Eq)]
pub enum Command {
    /// Plays the script, and prints the replies.
    Play,
    /// Judges whether the hidden directories are out of reach.
    Check,
    /// Verifies the certificate.
    Verify,
    /// Prints the mount table.
    Ns,
}

/// A word names no command. Its text is the line that the program prints then.
#[derive(Clone, Copy, Debug, PartialEq, Eq, Error)]
#[error("p9: bad command line")]
pub struct BadCommandLine;

/// The command of a word, which is `play`, `check`, `verify` or `ns` to the letter.
impl FromStr for Command {
    type Err = BadCommandLine;

    ghost use Rattle.std.specs.Prelude.{◌≡◌};
    ghost use Rattle.std.specs.Result.{result_ok};
    ghost use Rattle.p9_commands.specs.Word.{command_of};

    ghost from_str_gives = { λ word command. result_ok command ≡ command_of word };

    fn from_str(word: &str) -> Result<Command, BadCommandLine> {
        match word {
            "play" => Ok(Command::Play),
            "check" => Ok(Command::Check),
            "verify" => Ok(Command::Verify),
            "ns" => Ok(Command::Ns),
            _ => Err(BadCommandLine),
        }
    }
}

impl Command {
    // What the command needs of an input's certificate.
    fn needs(self) -> Needs
        ensures { result ≡ needs_of self }
    {
        match self {
            Command::Verify => Needs::Certificate,
            Command::Play | Command::Check | Command::Ns => Needs::Nothing,
        }
    }
}

/// Runs the command of a word over an input, as [`run`] does, and returns the exit status.
///
/// A word that names no command is reported as `p9: bad command line`. The status is 2 then, and
/// the input is not looked at.
///
/// Where an allocation fails, it returns [`NoMemory`], and `out` and `err` are as before.
pub fn run_command<A: Allocator + Copy>(
    word: &str,
    input: &[u8],
    out: &mut Vec<u8, A>,
    err: &mut Vec<u8, A>,
) -> Result<u8, NoMemory>
    ensures ok { IfOk result (λ status. WordEnds word.now input.now status
        (printed out.old out.new err.old err.new)) }
    ensures no_memory { OnErr result (IsUnchanged (printed out.old out.new err.old err.new)) }
{
    run_command_over::<IndexTree<A>>(word, input, out, err)
}

/// Runs the command of a word as [`run_command`] does, with a tree of this type for each server.
pub fn run_command_over<T: Tree>(
    word: &str,
    input: &[u8],
    out: &mut Vec<u8, T::Alloc>,
    err: &mut Vec<u8, T::Alloc>,
) -> Result<u8, NoMemory>
    ensures ok { IfOk result (λ status. WordEnds word.now input.now status
        (printed out.old out.new err.old err.new)) }
    ensures no_memory { OnErr result (IsUnchanged (printed out.old out.new err.old err.new)) }
{
    match word.parse::<Command>() {
        Ok(command) => run_over::<T>(command, input, out, err),
        Err(BadCommandLine) => {
            err.extend_from_slice(b"p9: bad command line\n")?;
            Ok(BAD_COMMAND_LINE)
        }
    }
}

/// Runs a command over its input, and returns the exit status. What it prints is appended to `out`,
/// and what it reports is appended to `err`, each report as a line.
///
/// The input is prepared as [`prepare`](p9_prepared::prepare) says. What failed in its namespace file is
/// reported as `ns:L: TEXT`, where `L` is the number of a line of that section, before any other
/// report but a fault that is found earlier. The first fault is reported as [`Refusal::text`] says;
/// the status is 1 then, and `out` is unchanged. `verify` refuses an input without a certificate,
/// and `play` one whose certificate has a gap. Where there is no fault, the command does its work:
///
/// - `play` plays the script over the name space, on a [`Guard`](p9_guard::Guard) where the input
///   has a certificate. For each frame it prints a line, the reply in lower case hexadecimal
///   digits, and `skip` for an event that doesn't fit. The status is 0.
/// - `check` prints `yes` and a certificate, with status 0, or `no` and the lines of a breach, with
///   status 1, as [`judge`](p9_judge::judge) says.
/// - `verify` prints `ok`, with status 0, or the first gap of the certificate, with status 1, as
///   [`verify`](p9_cert::verify) says.
/// - `ns` prints the mount table, a bind for each member of each row. The status is 0.
///
/// Where an allocation fails, it returns [`NoMemory`], and `out` and `err` are as before.
///
/// [`Refusal::text`]: p9_prepared::Refusal::text
pub fn run<A: Allocator + Copy>(
    command: Command,
    input: &[u8],
    out: &mut Vec<u8, A>,
    err: &mut Vec<u8, A>,
) -> Result<u8, NoMemory>
    ensures ok { IfOk result (λ status. CommandEnds command (asked command input.now) status
        (printed out.old out.new err.old err.new)) }
    ensures no_memory { OnErr result (IsUnchanged (printed out.old out.new err.old err.new)) }
{
    run_over::<IndexTree<A>>(command, input, out, err)
}

// Runs a command as `run` does, with a tree of this type for each server. What it prints is
// appended only at its end, so that nothing is appended where an allocation fails.
#[tactic(auto, unfolding(crate::specs::Command::printed))]
fn run_over<T: Tree>(
    command: Command,
    input: &[u8],
    out: &mut Vec<u8, T::Alloc>,
    err: &mut Vec<u8, T::Alloc>,
) -> Result<u8, NoMemory>
    ensures ok { IfOk result (λ status. CommandEnds command (asked command input.now) status
        (printed out.old out.new err.old err.new)) }
    ensures no_memory { OnErr result (IsUnchanged (printed out.old out.new err.old err.new)) }
{
    let mut printed = Vec::new(*out.allocator());
    let mut reported = Vec::new(*err.allocator());
    let status = end::<T>(command, input, &mut printed, &mut reported)?;
    err.reserve(reported.len())?;
    out.extend_from_slice(printed.as_slice())?;
    err.extend_from_slice(reported.as_slice())?;
    Ok(status)
}

// Does what a command asks for over an input. Where an allocation fails, a part of what it prints
// may be there.
fn end<T: Tree>(
    command: Command,
    input: &[u8],
    out: &mut Vec<u8, T::Alloc>,
    err: &mut Vec<u8, T::Alloc>,
) -> Result<u8, NoMemory>
    ensures { IfOk result (λ status. CommandEnds command (asked command input.now) status
        (printed out.old out.new err.old err.new)) }
{
    match prepare_and_report::<T>(input, command.needs(), err)? {
        Some(prepared) => work(command, prepared, out, err),
        None => Ok(REFUSED),
    }
}

// The work of a command, unless a script is to be played with a certificate that has a gap, which is
// reported.
fn work<T: Tree>(
    command: Command,
    prepared: Prepared<T>,
    out: &mut Vec<u8, T::Alloc>,
    err: &mut Vec<u8, T::Alloc>,
) -> Result<u8, NoMemory>
    ensures { IfOk result (λ status. Works command prepared (gap_against command prepared) status
        (printed out.old out.new err.old err.new)) }
{
    match command {
        Command::Play => play(prepared, out, err),
        Command::Check => {
            let status = check(&prepared.space, out);
            drop(prepared);
            status
        }
        Command::Verify => {
            let status = print_verified(prepared.gap(), out);
            drop(prepared);
            status
        }
        Command::Ns => {
            let status = list(&prepared.space, out);
            drop(prepared);
            status
        }
    }
}

// Plays the script. A gap of its certificate is reported.
fn play<T: Tree>(
    prepared: Prepared<T>,
    out: &mut Vec<u8, T::Alloc>,
    err: &mut Vec<u8, T::Alloc>,
) -> Result<u8, NoMemory>
    ensures { IfOk result (λ status. Works Command.Play prepared (gap_in prepared) status
        (printed out.old out.new err.old err.new)) }
{
    match play_script(prepared, out) {
        Ok(()) => Ok(DONE),
        Err(stop) => {
            print_stop(stop, err)?;
            Ok(REFUSED)
        }
    }
}
