//! The directories that are to be hidden.

ghost use Rattle.std.specs.Prelude.{◌≡◌, ◌∷◌, ◌++◌, [], IfErr, IfOk, None, Ok, Some, find, map};
ghost use Rattle.std.specs.String.{string_bytes};
ghost use Rattle.p9_base.specs.declared.stop.Stop.TheVariants.{Refused};
ghost use Rattle.p9_world.specs.declared.unfit.Unfit.{Unfit as UnfitFor};
ghost use Rattle.p9_admin.specs.Hide.{StopsFor, hidable, hide_asked, is_below, is_entered, is_hidden, is_named};
ghost use Rattle.p9_admin.specs.Hide.{names_eq, only_server, place_view, unfit_names};

use p9_base::{NoMemory, Stop};
use p9_clean::elements;
use p9_world::{PlainName, ServerName, Unfit};
use std::alloc::{AllocError, Global};
use thiserror::Error;

/// A directory that is to be hidden.
#[derive(Drop)]
pub(crate) struct Hide {
    pub server: ServerName,
    /// The names from the root of the server on, of which there is at least one.
    pub path: Vec<PlainName>,
    /// Whether the world has it.
    pub is_there: bool,
}

/// Why an option's value names no directory that may be hidden.
#[derive(Clone, Copy, Debug, PartialEq, Eq, Error)]
pub(crate) enum HideFault {
    /// There are several servers, and the value names none.
    #[error("which server? Write SERVER:PATH")]
    NoServer,
    /// No server has the name before the path, or the path doesn't begin with a slash.
    #[error("no such server, or no / before the path")]
    UnknownServer,
    /// It is the root of a server.
    #[error("the root of a server can't be hidden")]
    Root,
    /// A name along the path is none that a world can have.
    #[error("{0}")]
    Unfit(Unfit),
}

/// The directory that an option's value names: a path, which begins with a slash, where there is one
/// server; and in front of the path there may be the server's name and a colon.
///
/// # Errors
///
/// [`HideFault::NoServer`] and [`HideFault::UnknownServer`] as they say, then [`HideFault::Root`],
/// and then [`HideFault::Unfit`] for the first name that is unfit.
pub(crate) fn hide_in(
    alloc: Global,
    value: &str,
    servers: &[ServerName],
) -> Result<Hide, Stop<HideFault>>
    ensures ok { IfOk result (λ hide. hide_asked value.now servers.now ≡ Ok (place_view hide)) }
    ensures refused { IfErr result (StopsFor (hide_asked value.now servers.now)) }
{
    let elements = elements(alloc, value)?;
    if value.starts_with('/') {
        let server = only_server(servers).map_err(Stop::Refused)?;
        return hide_at(alloc, server, elements.as_slice());
    }
    let Some((front, names)) = elements.split_first() else {
        return Err(Stop::Refused(HideFault::UnknownServer));
    };
    match named_server(alloc, front, servers)? {
        Some(server) => hide_at(alloc, server, names),
        None => Err(Stop::Refused(HideFault::UnknownServer)),
    }
}

// The only server.
fn only_server(servers: &[ServerName]) -> Result<ServerName, HideFault>
    ensures { result ≡ only_server servers.now }
{
    match servers {
        [server] => Ok(*server),
        _ => Err(HideFault::NoServer),
    }
}

// The server whose name and a colon are this text.
fn named_server(
    alloc: Global,
    text: &str,
    servers: &[ServerName],
) -> Result<Option<ServerName>, AllocError>
    ensures { IfOk result (λ found. found ≡ find (is_named text.now) servers.now) }
{
    for server in servers {
        if name_and_colon(alloc, *server)?.as_str() == text {
            return Ok(Some(*server));
        }
    }
    Ok(None)
}

// The name of a server and a colon.
fn name_and_colon(alloc: Global, server: ServerName) -> Result<String, AllocError>
    ensures { IfOk result (λ text. string_bytes text ≡ server ++ 58 ∷ []) }
{
    let mut text = String::from_str(alloc, server.as_str())?;
    text.push(':')?;
    Ok(text)
}

// The directory of these names at a server.
fn hide_at(alloc: Global, server: ServerName, names: &[&str]) -> Result<Hide, Stop<HideFault>>
    ensures ok { IfOk result (λ hide.
        hidable (server, map (λ name. name.now) names.now) ≡ Ok (place_view hide)) }
    ensures refused { IfErr result
        (StopsFor (hidable (server, map (λ name. name.now) names.now))) }
{
    if names.is_empty() {
        return Err(Stop::Refused(HideFault::Root));
    }
    match plain_names(alloc, names) {
        Ok(path) => Ok(Hide {
            server,
            path,
            is_there: false,
        }),
        Err(Stop::Refused(unfit)) => Err(Stop::Refused(HideFault::Unfit(unfit))),
        Err(Stop::NoMemory) => Err(Stop::NoMemory),
    }
}

// The names of these texts, or why the first that is none is none.
fn plain_names(alloc: Global, texts: &[&str]) -> Result<Vec<PlainName>, Stop<Unfit>>
    ensures ok { IfOk result (λ names. (names.items ≡ map (λ text. text.now) texts.now)
        × (unfit_names (map (λ text. text.now) texts.now) ≡ None)) }
    ensures refused { IfErr result (λ stop. (unfit : UnfitFor) → stop ≡ Refused unfit
        → unfit_names (map (λ text. text.now) texts.now) ≡ Some unfit) }
{
    let mut names = Vec::new(alloc);
    for text in texts {
        match PlainName::new(text) {
            Ok(name) => names.push(name)?,
            Err(unfit) => return Err(Stop::Refused(unfit)),
        }
    }
    Ok(names)
}

/// Whether what is inside the directory of these names at a server is packed: it is not to be hidden,
/// or it is packed all the same.
pub(crate) fn is_entered(
    hides: &[Hide],
    with_hidden: bool,
    server: &ServerName,
    names: &[PlainName],
) -> bool
    ensures { result ≡ is_entered (map place_view hides.now) with_hidden (server.now, names.now) }
{
    with_hidden || !is_hidden(hides, server, names)
}

/// Whether the directory of these names at a server is to be hidden.
pub(crate) fn is_hidden(hides: &[Hide], server: &ServerName, names: &[PlainName]) -> bool
    ensures { result ≡ is_hidden (map place_view hides.now) (server.now, names.now) }
{
    for hide in hides {
        if hide.is_at(server, names) {
            return true;
        }
    }
    false
}

impl Hide {
    ghost use Rattle.std.specs.Prelude.{◌≡◌};
    ghost use Rattle.p9_admin.specs.Hide.{is_at, place_view};

    /// Whether this is the directory of these names at a server.
    pub fn is_at(&self, server: &ServerName, names: &[PlainName]) -> bool
        ensures { result ≡ is_at (place_view self.now) (server.now, names.now) }
    {
        self.server == *server && is_path(self.path.as_slice(), names)
    }
}

// Whether two paths have the same names.
fn is_path(path: &[PlainName], names: &[PlainName]) -> bool
    ensures { result ≡ names_eq path.now names.now }
{
    path == names
}

/// Whether a directory is inside another.
pub(crate) fn is_below(hide: &Hide, other: &Hide) -> bool
    ensures { result ≡ is_below (place_view hide.now) (place_view other.now) }
{
    let len = other.path.len();
    hide.server == other.server
        && len < hide.path.len()
        && is_path(&hide.path.as_slice()[..len], other.path.as_slice())
}
