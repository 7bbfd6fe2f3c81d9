//! Where clients come, and as whom they may attach there.

use p9_base::User;
use std::alloc::{AllocError, Global};
use std::net::SocketAddr;

// What begins the address of a socket of the file system.
const UNIX: &str = "unix:";

/// Where clients come.
#[derive(Clone, Copy)]
pub(crate) enum Place<'a> {
    /// An IP address with a port.
    Ip(SocketAddr),
    /// A socket of the file system, by its path.
    Unix(&'a str),
}

/// An address: where clients come, and the only users as whom they may attach there, if not all may.
#[derive(Drop)]
pub(crate) struct Address<'a> {
    /// How it was written.
    pub text: &'a str,
    pub place: Place<'a>,
    pub users: Option<Vec<User>>,
}

/// Why a text is no address.
#[derive(Clone, Copy)]
pub(crate) enum BadAddress<'a> {
    /// It is neither an IP address with a port nor the path of a socket.
    Place(&'a str),
    /// This is no user's name.
    User(&'a str),
    NoMemory,
}

/// The address that a text `ADDR[=USER,..]` writes. The last `=` ends ADDR.
pub(crate) fn address_of(alloc: Global, text: &str) -> Result<Address<'_>, BadAddress<'_>> {
    let (place, users) = match text.rsplit_once('=') {
        None => (place_of(text)?, None),
        Some((place, users)) => (place_of(place)?, Some(users_of(alloc, users)?)),
    };
    Ok(Address { text, place, users })
}

// The place that a text writes.
fn place_of(text: &str) -> Result<Place<'_>, BadAddress<'_>> {
    match text.strip_prefix(UNIX) {
        Some("") => Err(BadAddress::Place(text)),
        Some(path) => Ok(Place::Unix(path)),
        None => match ip_of(text) {
            Some(address) => Ok(Place::Ip(address)),
            None => Err(BadAddress::Place(text)),
        },
    }
}

// The IP address with a port that a text writes, if it writes one.
fn ip_of(text: &str) -> Option<SocketAddr> {
    text.parse::<SocketAddr>().ok()
}

// The users that a text names, with a comma between them.
fn users_of(alloc: Global, text: &str) -> Result<Vec<User>, BadAddress<'_>> {
    let mut users = Vec::new(alloc);
    for name in text.split(',') {
        push_user(name, &mut users)?;
    }
    Ok(users)
}

// Adds the user of a name.
fn push_user<'a>(name: &'a str, users: &mut Vec<User>) -> Result<(), BadAddress<'a>> {
    match User::new(name) {
        Some(user) if users.push(user).is_ok() => Ok(()),
        Some(_) => Err(BadAddress::NoMemory),
        None => Err(BadAddress::User(name)),
    }
}

/// The same users.
pub(crate) fn copy_of(alloc: Global, users: &[User]) -> Result<Vec<User>, AllocError> {
    let mut copy = Vec::new(alloc);
    copy.extend_from_slice(users)?;
    Ok(copy)
}
