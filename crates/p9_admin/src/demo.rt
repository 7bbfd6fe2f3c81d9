//! The command `demo`: an example to pack.

use crate::PROGRAM;
use clap::ArgMatches;
use p9_shell::Failure;
use p9_shell::status::DONE;
use p9_shown::AsShown;
use std::fs::{OpenOptions, Permissions, create_dir, set_permissions};
use std::io::{self, ErrorKind, Write};
use std::os::unix::fs::{OpenOptionsExt, PermissionsExt};

// A directory of the example.
#[derive(Clone, Copy)]
struct ExampleDir {
    path: &'static str,
    mode: u32,
}

// A file of the example, and its text.
#[derive(Clone, Copy)]
struct ExampleFile {
    path: &'static str,
    mode: u32,
    text: &'static str,
}

// The directories of the example, each before what is in it: one with a place where everybody may leave
// files, and a vault.
const DIRS: [ExampleDir; 3] = [
    ExampleDir {
        path: "papers",
        mode: 0o755,
    },
    ExampleDir {
        path: "papers/shared",
        mode: 0o777,
    },
    ExampleDir {
        path: "papers/vault",
        mode: 0o700,
    },
];

// Its files: a list that everybody reads, a key in the vault, and the commands that pack and seal it.
const FILES: [ExampleFile; 3] = [
    ExampleFile {
        path: "papers/list",
        mode: 0o644,
        text: "tea\n",
    },
    ExampleFile {
        path: "papers/vault/key",
        mode: 0o600,
        text: "the key\n",
    },
    ExampleFile {
        path: "pack.sh",
        mode: 0o755,
        text: COMMANDS,
    },
];

// The commands that pack and seal the example, each after what it is for.
const COMMANDS: &str = "\
#!/bin/sh
# a world of the folder for two users, anna and bob; what is inside the vault is hidden from both
p9_admin pack --user anna --user bob --owner admin --group-owner admin --hide /vault -o world papers
# the judge looks whether a client could reach what is hidden, and adds its certificate
p9_admin seal -o export < world
";

/// Writes the example into the directory that is named, which must not be there. Returns the exit
/// status.
pub(crate) fn run_demo(rt: &HostRuntime, options: &ArgMatches<'_>) -> Result<u8, Failure> {
    let dir = options.get_str("dir").unwrap_or("");
    make_top(rt, dir)?;
    make_dirs(rt, dir)?;
    make_files(rt, dir)?;
    let told = format!(in rt.alloc(); "to pack and seal it: cd {} && sh pack.sh\n", AsShown(dir))?;
    PROGRAM.print(rt, told.as_bytes())?;
    Ok(DONE)
}

// Makes the directories of the example.
fn make_dirs(rt: &HostRuntime, dir: &str) -> Result<(), Failure> {
    for example in &DIRS {
        make_example_dir(rt, dir, example)?;
    }
    Ok(())
}

// Makes the files of the example.
fn make_files(rt: &HostRuntime, dir: &str) -> Result<(), Failure> {
    for example in &FILES {
        make_example_file(rt, dir, example)?;
    }
    Ok(())
}

// Makes the directory that is named. Where it is there already, that is reported.
fn make_top(rt: &HostRuntime, dir: &str) -> Result<(), Failure> {
    match create_dir(rt, dir) {
        Err(error) if error.kind() == ErrorKind::AlreadyExists => {
            Err(PROGRAM.refuse_option(rt, "directory", dir, &"it is there already"))
        }
        done => PROGRAM.had(rt, dir, done),
    }
}

// Makes a directory of the example. What fails is reported.
fn make_example_dir(rt: &HostRuntime, dir: &str, example: &ExampleDir) -> Result<(), Failure> {
    let path = format!(in rt.alloc(); "{dir}/{}", example.path)?;
    let done = make_dir(rt, path.as_str(), example.mode);
    PROGRAM.had(rt, path.as_str(), done)
}

// Makes a file of the example. What fails is reported.
fn make_example_file(rt: &HostRuntime, dir: &str, example: &ExampleFile) -> Result<(), Failure> {
    let path = format!(in rt.alloc(); "{dir}/{}", example.path)?;
    let done = make_file(rt, path.as_str(), example.mode, example.text);
    PROGRAM.had(rt, path.as_str(), done)
}

// Makes a directory of this mode, whatever new directories are denied.
fn make_dir(rt: &HostRuntime, path: &str, mode: u32) -> io::Result<()> {
    create_dir(rt, path)?;
    set_permissions(rt, path, Permissions::from_mode(mode))
}

// Makes a file of this mode, whatever new files are denied. What is there already is refused.
fn make_file(rt: &HostRuntime, path: &str, mode: u32, text: &str) -> io::Result<()> {
    let mut options = OpenOptions::new();
    options.write(true).create_new(true).mode(mode);
    let mut file = options.open(rt, path)?;
    file.write_all(text.as_bytes())?;
    file.flush()?;
    file.set_permissions(Permissions::from_mode(mode))
}
