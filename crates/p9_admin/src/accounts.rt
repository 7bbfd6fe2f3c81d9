//! The files of accounts.

ghost use Rattle.std.specs.Prelude.{◌≡◌, ◌==◌, count_by};

use crate::PROGRAM;
use p9_shell::Failure;
use std::fs;
use std::io::ErrorKind;

/// The text of a file of accounts, which an option names. Where it can't be had, that is reported.
pub(crate) fn accounts_text(rt: &HostRuntime, option: &str, path: &str) -> Result<String, Failure> {
    match fs::read(rt, path) {
        Ok(bytes) => text_of(rt, option, path, bytes.as_slice()),
        Err(error) if error.kind() == ErrorKind::OutOfMemory => Err(Failure::NoMemory),
        Err(error) => Err(PROGRAM.refuse_option(rt, option, path, &error)),
    }
}

// The text of the bytes of a file. The line of the first byte that is in none is reported.
fn text_of(rt: &HostRuntime, option: &str, path: &str, bytes: &[u8]) -> Result<String, Failure> {
    match str::from_utf8(bytes) {
        Ok(text) => Ok(String::from_str(rt.alloc(), text)?),
        Err(error) => {
            let before = bytes.get(..error.valid_up_to()).unwrap_or(&[]);
            let line = newlines(before).saturating_add(1);
            let why = format!(in rt.alloc(); "line {line} is not UTF-8")?;
            Err(PROGRAM.refuse_option(rt, option, path, &why))
        }
    }
}

// The number of newlines.
fn newlines(bytes: &[u8]) -> usize
    ensures { result ≡ count_by (λ b. b == 10) bytes.now }
{
    bytes.iter().filter(|b| **b == b'\n').count()
}
