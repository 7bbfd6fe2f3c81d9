//! The end of the standard input.

use libc::net::{POLLIN, poll};
use libc::types::pollfd;
use std::fs;
use std::io::Read;
use std::os::unix::fs::FileTypeExt;

// The number of the standard input.
const STDIN: i32 = 0;

/// Whether the standard input is a pipe, whose end ends the server.
pub(crate) fn is_pipe(rt: &HostRuntime) -> bool {
    match fs::metadata(rt, "/dev/stdin") {
        Ok(metadata) => metadata.file_type().is_fifo(),
        Err(_) => false,
    }
}

/// Whether the standard input has ended. What is there to be read is read, and this doesn't wait.
pub(crate) fn has_ended(rt: &HostRuntime) -> bool {
    if !is_ready() {
        return false;
    }
    let mut bytes = [0; 4_096];
    matches!(rt.stdin().read(&mut bytes), Ok(0))
}

// Whether a read of the standard input would not wait.
fn is_ready() -> bool {
    let mut fds = [pollfd {
        fd: STDIN,
        events: POLLIN,
        revents: 0,
    }];
    poll(&mut fds, 0) == 1
}
