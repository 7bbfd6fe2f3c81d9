//! Names of the disk that become others in a world.

ghost use Rattle.std.specs.Prelude.{◌≡◌, option_map};
ghost use Rattle.p9_admin.specs.Rename.{is_taken, is_that};

use crate::PROGRAM;
use p9_shell::Failure;
use std::alloc::{AllocError, Global};
use thiserror::Error;

/// A character of names, and the text that takes its place.
#[derive(Clone, Copy)]
pub(crate) struct Rename<'a> {
    from: char,
    to: &'a str,
}

/// Why an option's value says no renaming.
#[derive(Clone, Copy, Debug, PartialEq, Eq, Error)]
pub(crate) enum RenameFault {
    /// It is not a character, `=` and a text.
    #[error("a character, = and a text are wanted, as ' =_'")]
    Form,
    /// The character is a slash, or the text has one.
    #[error("a name has no slash")]
    Slash,
}

/// What the values rename, in their order. The first value that says no renaming is reported.
pub(crate) fn renames_in<'a>(
    rt: &HostRuntime,
    values: &[&'a str],
) -> Result<Vec<Rename<'a>>, Failure> {
    let mut renames = Vec::new(rt.alloc());
    for value in values {
        match rename_of(value) {
            Ok(rename) => renames.push(rename)?,
            Err(fault) => return Err(PROGRAM.refuse_option(rt, "--rename", value, &fault)),
        }
    }
    Ok(renames)
}

// What a value renames.
fn rename_of(value: &str) -> Result<Rename<'_>, RenameFault> {
    let mut chars = value.chars();
    let Some(from) = chars.next() else {
        return Err(RenameFault::Form);
    };
    let Some(to) = chars.as_str().strip_prefix('=') else {
        return Err(RenameFault::Form);
    };
    if from == '/' || to.contains('/') {
        return Err(RenameFault::Slash);
    }
    Ok(Rename { from, to })
}

// A text, renamed by each in turn.
fn renamed(alloc: Global, renames: &[Rename<'_>], text: &str) -> Result<String, AllocError> {
    let mut renamed = String::from_str(alloc, text)?;
    for rename in renames {
        renamed = renamed.as_str().replace(alloc, rename.from, rename.to)?;
    }
    Ok(renamed)
}

/// The value of an option that names a directory of a server, with the names of its path renamed.
pub(crate) fn renamed_place(
    alloc: Global,
    renames: &[Rename<'_>],
    value: &str,
) -> Result<String, AllocError> {
    match value.split_once('/') {
        Some((server, path)) => {
            let path = renamed(alloc, renames, path)?;
            format!(in alloc; "{server}/{path}")
        }
        None => String::from_str(alloc, value),
    }
}

/// The names of a directory, each with the one that a world gets in front of it. The greatest name of
/// the world is the first.
pub(crate) fn with_new_names(
    alloc: Global,
    renames: &[Rename<'_>],
    names: Vec<String>,
) -> Result<Vec<(String, String)>, AllocError> {
    let mut pairs = Vec::new(alloc);
    for disk in names {
        let name = renamed(alloc, renames, disk.as_str())?;
        pairs.push((name, disk))?;
    }
    pairs.sort()?;
    pairs.reverse();
    Ok(pairs)
}

/// Whether a name of the disk was renamed to one that the entry before or after it gets, too.
pub(crate) fn is_taken(name: &str, disk: &str, before: Option<&str>, after: Option<&str>) -> bool
    ensures { result ≡ is_taken name.now disk.now
        (option_map (λ text. text.now) before.entry) (option_map (λ text. text.now) after.entry) }
{
    name != disk && (is_that(before, name) || is_that(after, name))
}

// Whether there is a text and it is this one.
fn is_that(other: Option<&str>, name: &str) -> bool
    ensures { result ≡ is_that (option_map (λ text. text.now) other.entry) name.now }
{
    match other {
        Some(other) => other == name,
        None => false,
    }
}
