//! The words of the command line.

ghost use Rattle.std.specs.Prelude.{◌≡◌, IfOk, MatchOption, codes, false, map, option_map};
ghost use Rattle.std.specs.List.{list_any};
ghost use Rattle.std.specs.Str.{bytes_eq};
ghost use Rattle.std.specs.String.{string_bytes};
ghost use Rattle.clap.specs.Words.{app_of, first_of, found_of, rows_of, rule_of};
ghost use Rattle.p9_asked.specs.Words.{IsAddress, IsAsked, IsAskedIn, IsLocal, IsRead, WritesOptions};
ghost use Rattle.p9_asked.specs.Words.{asked_with, bare_program, option, program_app, rounds_in, serve_app};
ghost use Rattle.p9_asked.specs.Words.{with_command};

use clap::error::ErrorKind;
use clap::{Arg, ArgAction, ArgMatches, Command};
use p9_base::number;
use std::alloc::{AllocError, Global};
use std::net::SocketAddr;

// The most rounds that can be asked for.
const MOST_ROUNDS: u64 = 1_000_000_000;

/// What the words ask for.
#[derive(Clone, Copy, Debug, PartialEq, Eq)]
pub enum Asked {
    /// A command over the standard input.
    Command(p9_commands::Command),
    /// To serve the standard input at an address, for so many rounds.
    Serve { address: SocketAddr, rounds: u64 },
}

/// What the words ask for, or `None` where they are a bad command line. The first word is the
/// program's name. Without another word the command is `play`. One other word is the command, where
/// it names a [`p9_commands::Command`]. To serve, the words are `serve` and the options `-a`, with
/// an IP address and a port, and `-r`, with a number from 1 to 1,000,000,000, in either order and in
/// any spelling that `clap` takes; `--` is no such word. The error is a failed allocation.
pub fn command_asked(alloc: Global, words: &[String]) -> Result<Option<Asked>, AllocError>
    ensures { IfOk result (IsAsked (map string_bytes words.now)) }
{
    let matches = match program(alloc)?.try_get_matches_from(words) {
        Ok(matches) => matches,
        Err(error) if error.kind() == ErrorKind::OutOfMemory => return Err(AllocError),
        Err(_) => return Ok(None),
    };
    Ok(asked_in(matches.subcommand(), words))
}

// What the words ask for, of which `clap` read this subcommand.
fn asked_in(read: Option<(&str, &ArgMatches<'_>)>, words: &[String]) -> Option<Asked>
    ensures { IsAskedIn (option_map (λ p. (p.0.now, rows_of (found_of p.1.now))) read.entry)
        (map string_bytes words.now) result }
{
    match read {
        Some((name, options)) if name == "serve" => serve_read(options, words),
        Some((name, _)) => command_read(Some(name), words).map(Asked::Command),
        None => command_read(None, words).map(Asked::Command),
    }
}

// The command that a subcommand's name and the words ask for. The name has to be the only word, so
// that no `--` is among the words.
fn command_read(name: Option<&str>, words: &[String]) -> Option<p9_commands::Command>
    ensures { result
        ≡ asked_with (option_map (λ text. text.now) name.entry) (map string_bytes words.now) }
{
    match (name, words) {
        (None, [] | [_]) => Some(p9_commands::Command::Play),
        (Some(name), [_, word]) if word.as_str() == name => name.parse().ok(),
        _ => None,
    }
}

// What the options of `serve` ask for.
fn serve_read(options: &ArgMatches<'_>, words: &[String]) -> Option<Asked>
    ensures { IsRead (WritesOptions (map string_bytes words.now)
        (first_of (codes "address") (rows_of (found_of options.now)))
        (first_of (codes "rounds") (rows_of (found_of options.now)))) result }
{
    if has_end(words) {
        return None;
    }
    let address = address_in(options.get_str("address"))?;
    let rounds = rounds_in(options.get_str("rounds"))?;
    Some(Asked::Serve { address, rounds })
}

// Whether `--` is among the words.
fn has_end(words: &[String]) -> bool
    ensures { result ≡ list_any (λ word. bytes_eq (string_bytes word) (codes "--")) words.now }
{
    words.iter().any(|word| word.as_str() == "--")
}

// The address that a text writes.
fn address_in(text: Option<&str>) -> Option<SocketAddr>
    ensures { MatchOption result
        ((address : _) → IsAddress (option_map (λ text. text.now) text.entry) address → ⊥)
        (IsAddress (option_map (λ text. text.now) text.entry)) }
{
    text?.parse::<SocketAddr>().ok()
}

// The number of rounds that a text writes.
fn rounds_in(text: Option<&str>) -> Option<u64>
    ensures { result ≡ rounds_in (option_map (λ text. text.now) text.entry) }
{
    match number(text?, MOST_ROUNDS + 1) {
        None | Some(0) => None,
        Some(rounds) => Some(rounds),
    }
}

// The program's command line: a word for a command, or `serve` and its options. There is no help to
// ask for.
fn program<'a>(alloc: Global) -> Result<Command<'a>, AllocError>
    ensures { IfOk result (λ program. app_of program ≡ program_app) }
{
    let program = bare_program(alloc);
    let program = with_command(alloc, program, "play")?;
    let program = with_command(alloc, program, "check")?;
    let program = with_command(alloc, program, "verify")?;
    let program = with_command(alloc, program, "ns")?;
    program.subcommand(serve(alloc)?)
}

// The program without its commands.
fn bare_program<'a>(alloc: Global) -> Command<'a>
    ensures { app_of result ≡ bare_program }
{
    Command::new(alloc, "p9")
        .disable_help_flag(true)
        .disable_version_flag(true)
        .disable_help_subcommand(true)
}

// Adds the command of a name, after which nothing may follow.
fn with_command<'a>(
    alloc: Global,
    program: Command<'a>,
    name: &'a str,
) -> Result<Command<'a>, AllocError>
    ensures { IfOk result (λ more. app_of more ≡ with_command name.now (app_of program.entry)) }
{
    program.subcommand(Command::new(alloc, name).disable_help_flag(true))
}

// The command that serves, with its options.
fn serve<'a>(alloc: Global) -> Result<Command<'a>, AllocError>
    ensures app { IfOk result (λ serve. app_of serve ≡ serve_app) }
    ensures local { IfOk result IsLocal }
{
    Command::new(alloc, "serve")
        .disable_help_flag(true)
        .arg(option(alloc, "address", 'a'))?
        .arg(option(alloc, "rounds", 'r'))
}

// An option of one letter, which has to be there, with one value.
fn option<'a>(alloc: Global, name: &'a str, letter: char) -> Arg<'a>
    ensures rule { rule_of result ≡ option name.now letter }
    ensures local { result.global ≡ false }
{
    Arg::new(alloc, name)
        .short(letter)
        .required(true)
        .action(ArgAction::Set)
}
