//! How the last server that wrote a folder ended: whether the machine has gone on since.

use crate::folder::Folder;
use crate::reading::read_in;
use p9_log::Crash;
use p9_shell::Failure;
use std::{fs, io};

// Where the system names its start, which no other start has.
const START: &str = "/proc/sys/kernel/random/boot_id";

// The file in which the start is kept in which a folder was written.
const BOOT: &str = "boot";

/// How the last server that wrote a folder ended. Where that isn't known, the machine has stopped:
/// then less counts.
pub fn last_crash(rt: &HostRuntime, folder: &str) -> Crash {
    let then = noted_start(rt, folder);
    let now = this_start(rt);
    if !now.is_empty() && then.as_slice() == now.as_slice() {
        Crash::Killed
    } else {
        Crash::Stopped
    }
}

// The start in which a folder was written. Nothing names none that is known.
fn noted_start(rt: &HostRuntime, folder: &str) -> Vec<u8> {
    match read_in(rt, folder, BOOT) {
        Ok(Some(start)) => start,
        Ok(None) | Err(_) => Vec::new(rt.alloc()),
    }
}

// The present start.
fn this_start(rt: &HostRuntime) -> Vec<u8> {
    match fs::read(rt, START) {
        Ok(start) => start,
        Err(_) => Vec::new(rt.alloc()),
    }
}

/// Keeps that a folder is written in this start of the machine. What fails is reported.
pub fn note_start(rt: &HostRuntime, folder: &Folder) -> Result<(), Failure> {
    folder.put(rt, BOOT, this_start(rt).as_slice())
}

/// Makes a folder be read as if the machine had stopped: what was written and not synced is in doubt.
pub fn forget_start(rt: &HostRuntime, folder: &Folder) -> io::Result<()> {
    folder.remove(rt, BOOT)
}
