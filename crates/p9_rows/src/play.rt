//! Plays rows, and prints which differ.

use crate::admin::administered;
use crate::body::Ending;
use crate::row::Row;
use crate::words::{exchange, first_not_read_back, frames, played};
use p9_index::IndexTree;
use p9_tree::{PlainTree, Tree};
use std::alloc::{AllocError, Global};
use std::io;
use std::io::Write;

/// Plays the rows of a file, and prints what differs in each that is not as written, a frame that is
/// not read back from its words, and how many rows are as written. Returns whether all is well.
pub fn play_rows(rt: &HostRuntime, file: &str, rows: &[Row]) -> io::Result<bool> {
    let mut as_written = 0usize;
    for row in rows {
        if is_as_written(rt, file, row)? {
            as_written = as_written.saturating_add(1);
        }
    }
    let count = rows.len();
    println!(rt; "{file}: {as_written} of {count} rows as written")?;
    Ok(as_written == count)
}

// Whether each command of the row ends as it is written, over either kind of tree, and each frame in
// the row is read back from its words.
fn is_as_written(rt: &HostRuntime, file: &str, row: &Row) -> io::Result<bool> {
    let mut is_well = is_read_back(rt, file, row)?;
    for command in row.commands.as_str().split('+') {
        is_well &= ends_over::<IndexTree<Global>>(rt, file, command, "", row)?;
        is_well &= ends_over::<PlainTree<Global>>(rt, file, command, " over plain trees", row)?;
    }
    Ok(is_well)
}

// Whether each frame in the row is read back from its words. Prints those that are not.
fn is_read_back(rt: &HostRuntime, file: &str, row: &Row) -> io::Result<bool> {
    let name = row.name.as_str();
    let label = format!(in rt.alloc(); "{file}: {name}")?;
    let in_input = print_not_read_back(rt, label.as_str(), row.body.input.as_slice())?;
    let in_output = print_not_read_back(rt, label.as_str(), row.body.wanted.out.as_slice())?;
    Ok(!in_input && !in_output)
}

// Whether a command ends over trees of a kind, which words name, as it is written. Prints what differs.
fn ends_over<T: Tree<Alloc = Global>>(
    rt: &HostRuntime,
    file: &str,
    command: &str,
    over: &str,
    row: &Row,
) -> io::Result<bool> {
    let name = row.name.as_str();
    let label = format!(in rt.alloc(); "{file}: {command}{over}: {name}")?;
    ends_as_written::<T>(rt, label.as_str(), command, row)
}

// Whether a command ends over the row's input as it is written. Prints under the label what differs.
fn ends_as_written<T: Tree<Alloc = Global>>(
    rt: &HostRuntime,
    label: &str,
    command: &str,
    row: &Row,
) -> io::Result<bool> {
    let got = play::<T>(rt.alloc(), command, row.body.input.as_slice())?;
    let differs = print_differences(rt, label, &row.body.wanted, &got)?;
    if row.is_to_differ && !differs {
        println!(rt; "{label}: nothing differs")?;
    }
    Ok(differs == row.is_to_differ)
}

// How a command ends over an input. What follows a colon is its argument. `frames` and `exchange`
// are those of p9_fcall, `seal`, `explain`, `tree` and `map` those of p9_admin, and all others those of
// p9.
fn play<T: Tree<Alloc = Global>>(
    alloc: Global,
    command: &str,
    input: &[u8],
) -> Result<Ending, AllocError> {
    let (name, argument) = match command.split_once(':') {
        Some((name, argument)) => (name, Some(argument)),
        None => (command, None),
    };
    match name {
        "frames" => frames(alloc, input),
        "exchange" => exchange::<T>(alloc, input),
        "seal" | "explain" | "tree" | "map" => administered::<T>(alloc, input, name, argument),
        _ => played::<T>(alloc, command, input),
    }
}

// Prints a frame of a text that is not read back from its words, and returns whether there is one.
fn print_not_read_back(rt: &HostRuntime, label: &str, text: &[u8]) -> io::Result<bool> {
    let Ok(text) = str::from_utf8(text) else {
        return Ok(false);
    };
    match first_not_read_back(rt.alloc(), text)? {
        Some(word) => {
            println!(rt; "{label}: not read back: {word}")?;
            Ok(true)
        }
        None => Ok(false),
    }
}

// Prints what differs, and returns whether something does.
fn print_differences(
    rt: &HostRuntime,
    label: &str,
    wanted: &Ending,
    got: &Ending,
) -> io::Result<bool> {
    let out = print_texts(
        rt,
        label,
        "output",
        wanted.out.as_slice(),
        got.out.as_slice(),
    )?;
    let err = print_texts(
        rt,
        label,
        "errors",
        wanted.err.as_slice(),
        got.err.as_slice(),
    )?;
    if wanted.status == got.status {
        return Ok(out || err);
    }
    let (status, other) = (wanted.status, got.status);
    println!(rt; "{label}: wanted status {status}, got {other}")?;
    Ok(true)
}

// Prints two texts where they differ, and returns whether they do.
fn print_texts(
    rt: &HostRuntime,
    label: &str,
    kind: &str,
    wanted: &[u8],
    got: &[u8],
) -> io::Result<bool> {
    if wanted == got {
        return Ok(false);
    }
    println!(rt; "{label}: wanted {kind}")?;
    rt.stdout().write_all(wanted)?;
    println!(rt; "{label}: got {kind}")?;
    rt.stdout().write_all(got)?;
    Ok(true)
}
