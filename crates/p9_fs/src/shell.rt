//! Commands, one by one or from lines.

use crate::connect::Client;
use crate::failure::{Failure, Outcome, report_about, report_mode};
use crate::get::get;
use crate::put::put;
use crate::remote::{cat, change_mode, list, make_dir, make_dirs, print_stat, remove, rename};
use crate::removing::remove_tree;
use crate::usage::finish_words;
use crate::words::{Verb, line_program, verb_of};
use p9_base::{NoMemory, is_skipped, words};
use p9_client::Stream;
use std::alloc::Global;
use std::io;

/// Runs one command. `sh` within lines is refused as a bad word.
pub fn run_line<S: Stream + Drop>(
    rt: &HostRuntime,
    client: &mut Client<S>,
    verb: Verb<'_>,
) -> Result<(), Failure> {
    match verb {
        Verb::List { path, listing } => list(rt, client, path, listing),
        Verb::Cat { path } => cat(rt, client, path),
        Verb::Stat { path } => print_stat(rt, client, path),
        Verb::Get {
            path,
            local,
            options,
        } => get(rt, client, path, local, options),
        Verb::Put {
            local,
            path,
            is_recursive,
        } => put(rt, client, local, path, is_recursive),
        Verb::MakeDir { path, parents } if parents => make_dirs(rt, client, path),
        Verb::MakeDir { path, .. } => make_dir(rt, client, path),
        Verb::Remove { path, is_recursive } if is_recursive => remove_tree(rt, client, path),
        Verb::Remove { path, .. } => remove(rt, client, path),
        Verb::Rename { path, name } => rename(rt, client, path, name),
        Verb::ChangeMode { mode, path } => change_mode(rt, client, path, mode),
        Verb::Shell => Err(Failure::BadWords),
    }
}

/// Runs the commands of the standard input, a line each. Lines without words and those that begin
/// with `#` are skipped. After a refusal, a file of this system that can't be used, or words that are no
/// command, it goes on; the first of these is what it fails with at the end.
pub fn run_lines<S: Stream + Drop>(
    rt: &HostRuntime,
    client: &mut Client<S>,
) -> Result<(), Failure> {
    let mut outcome = Outcome::new();
    for line in rt.lines(rt.alloc()) {
        outcome.note(run_read(rt, client, line))?;
    }
    outcome.end()
}

// Runs the command of a line that was read. Where it could not be read, that is reported, and ends all.
fn run_read<S: Stream + Drop>(
    rt: &HostRuntime,
    client: &mut Client<S>,
    line: io::Result<String>,
) -> Result<(), Failure> {
    match line {
        Ok(line) => run_text(rt, client, line.as_str()),
        Err(error) => Err(report_about(rt, "standard input", &error, Failure::Failed)),
    }
}

// Runs the command of a line.
fn run_text<S: Stream + Drop>(
    rt: &HostRuntime,
    client: &mut Client<S>,
    line: &str,
) -> Result<(), Failure> {
    let words = words(rt.alloc(), line)?;
    if is_skipped(words.as_slice()) {
        return Ok(());
    }
    let words = after_name(rt.alloc(), words.as_slice())?;
    run_words(rt, client, words.as_slice())
}

// Words after the program's name.
fn after_name<'a>(alloc: Global, words: &[&'a str]) -> Result<Vec<&'a str>, NoMemory> {
    let mut all = Vec::new(alloc);
    all.push("p9_fs")?;
    all.extend_from_slice(words)?;
    Ok(all)
}

// Runs the command of these words.
fn run_words<S: Stream + Drop>(
    rt: &HostRuntime,
    client: &mut Client<S>,
    words: &[&str],
) -> Result<(), Failure> {
    let matches = match line_program(rt.alloc())?.try_get_matches_from(words) {
        Ok(matches) => matches,
        Err(error) => return finish_words(rt, &error),
    };
    match verb_of(&matches) {
        Some(verb) => run_line(rt, client, verb),
        None => Err(report_mode(rt)),
    }
}
