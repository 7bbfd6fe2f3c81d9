//! The words of the command line, and the standard streams, used at once.

use std::env;
use std::io::{self, ErrorKind, Read, Write};

/// The words of the command line, of which the first is the program's name. There are none where one
/// is no text.
pub fn given_words(rt: &HostRuntime) -> io::Result<Option<Vec<String>>> {
    match env::args(rt) {
        Ok(words) => Ok(Some(words.collect(rt.alloc())?)),
        Err(error) if error.kind() == ErrorKind::OutOfMemory => Err(error),
        Err(_) => Ok(None),
    }
}

/// The standard input, to its end.
pub fn input(rt: &HostRuntime) -> io::Result<Vec<u8>> {
    let mut input = Vec::new(rt.alloc());
    rt.stdin().read_to_end(&mut input)?;
    Ok(input)
}

/// Prints bytes on the standard output.
pub fn print(rt: &HostRuntime, bytes: &[u8]) -> io::Result<()> {
    rt.stdout().write_all(bytes)?;
    rt.stdout().flush()
}

/// Reports bytes on standard error.
pub fn tell(rt: &HostRuntime, bytes: &[u8]) -> io::Result<()> {
    rt.stderr().write_all(bytes)
}
