//! Plays rows from files: each is an input, and how a command is to end over it. Prints how many
//! rows of each file are as written, and what differs in the others.
#![tactic(auto)]

mod admin;
mod body;
mod fault;
mod play;
mod reader;
mod row;
mod words;

use play::play_rows;
use reader::read_rows;
use row::Part;
use std::process::ExitCode;
use std::{env, fs, io};

fn main(rt: HostRuntime) -> io::Result<ExitCode> {
    let folder = folder(&rt)?;
    let list = io::read_to_string(rt.alloc(), rt.stdin())?;
    let is_well = are_files_well(&rt, folder.as_str(), list.as_str())?;
    Ok(ExitCode::from(if is_well { 0 } else { 1 }))
}

// Plays the rows of the files of a list, a line each, and returns whether all are as written.
fn are_files_well(rt: &HostRuntime, folder: &str, list: &str) -> io::Result<bool> {
    let mut parts = Vec::new(rt.alloc());
    let mut is_well = true;
    for file in list.lines() {
        is_well &= is_file_well(rt, folder, file, &mut parts)?;
    }
    Ok(is_well)
}

// The folder of the row files: the first word of the command line, or else the present folder.
fn folder(rt: &HostRuntime) -> io::Result<String> {
    match env::args(rt)?.nth(1) {
        Some(folder) => Ok(folder),
        None => Ok(String::from_str(rt.alloc(), ".")?),
    }
}

// Plays the rows of a file, and returns whether all are as written. The file's parts are added to
// those of the files before it.
fn is_file_well(
    rt: &HostRuntime,
    folder: &str,
    file: &str,
    parts: &mut Vec<Part>,
) -> io::Result<bool> {
    let path = format!(in rt.alloc(); "{folder}/{file}")?;
    let text = match fs::read_to_string(rt, path.as_str()) {
        Ok(text) => text,
        Err(error) => {
            eprintln!(rt; "{file}: {error}")?;
            return Ok(false);
        }
    };
    match read_rows(rt.alloc(), text.as_str(), parts) {
        Ok(rows) => play_rows(rt, file, rows.as_slice()),
        Err(fault) => {
            let (line, why) = (fault.line, fault.why.text());
            eprintln!(rt; "{file}:{line}: {why}")?;
            Ok(false)
        }
    }
}
