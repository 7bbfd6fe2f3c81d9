//! Names and paths.

ghost use Rattle.std.specs.Prelude.{◌==◌, ◌≡◌, ◌||◌, codes};
ghost use Rattle.std.specs.List.{list_any};
ghost use Rattle.std.specs.Str.{bytes_eq};
ghost use Rattle.p9_fs.specs.Names.{is_inside};

use p9_base::NoMemory;
use std::alloc::{AllocError, Global};

/// The names of a path, between its slashes, without empty ones and `.`.
pub fn names_of(alloc: Global, path: &str) -> Result<Vec<&str>, NoMemory> {
    let names = path
        .split('/')
        .filter(|name| !name.is_empty() && *name != ".");
    Ok(names.collect(alloc)?)
}

/// Whether a server's name of a file may be one in a directory of the system, so that it leads nowhere
/// else: it isn't empty, `.` or `..`, and has neither a slash nor a NUL.
pub fn is_inside(name: &str) -> bool
    ensures { result ≡ is_inside name.now }
{
    !is_dots_or_empty(name) && !has_byte(name, b'/') && !has_byte(name, 0)
}

// Whether a name is empty, `.` or `..`.
fn is_dots_or_empty(name: &str) -> bool
    ensures { result ≡ (bytes_eq name.now (codes "") || bytes_eq name.now (codes ".")
        || bytes_eq name.now (codes "..")) }
{
    name == "" || name == "." || name == ".."
}

// Whether a byte is in a name.
fn has_byte(name: &str, byte: u8) -> bool
    ensures { result ≡ list_any (λ b. b == byte) name.now }
{
    name.as_bytes().contains(&byte)
}

/// A name after a path.
pub fn joined(alloc: Global, path: &str, name: &str) -> Result<String, AllocError> {
    let slash = if path.is_empty() || path.ends_with('/') {
        ""
    } else {
        "/"
    };
    format!(in alloc; "{path}{slash}{name}")
}
