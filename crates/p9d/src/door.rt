//! The listeners at the addresses.

use crate::address::{Address, Place, copy_of};
use crate::peer::Peer;
use mio::net::{TcpListener, UnixListener, UnixStream};
use p9_base::User;
use p9_shown::AsShown;
use std::alloc::{AllocError, Global};
use std::fs;
use std::io::{self, ErrorKind};
use std::net::{IpAddr, SocketAddr};
use std::os::unix::fs::FileTypeExt;

/// A listener at an address, and the only users as whom who comes there may attach, if not all may.
#[derive(Drop)]
pub(crate) struct Door {
    listener: Listener,
    pub users: Option<Vec<User>>,
    /// How the address is shown.
    pub name: String,
    /// Whether the last accept failed, and that was told.
    pub is_failing: bool,
}

// A listener, which doesn't block. A socket of the file system has its path.
#[derive(Drop)]
enum Listener {
    Ip(TcpListener),
    Unix(UnixListener, String),
}

/// Where a client comes from: its IP address, or the number of its door.
#[derive(Clone, Copy, PartialEq, Eq)]
pub(crate) enum Origin {
    Ip(IpAddr),
    Door(usize),
}

/// A client that came: its stream, and where it comes from.
#[derive(Drop)]
pub(crate) struct Arrival {
    pub peer: Peer,
    pub address: Option<SocketAddr>,
}

impl Door {
    /// Listens at an address.
    pub fn open(rt: &HostRuntime, address: &Address<'_>) -> io::Result<Door> {
        let users = users_of(rt.alloc(), address)?;
        let listener = listen(rt, address.place)?;
        let name = name_of(rt.alloc(), &listener)?;
        Ok(Door {
            listener,
            users,
            name,
            is_failing: false,
        })
    }

    /// The next client that waits.
    pub fn accept(&self) -> io::Result<Arrival> {
        match &self.listener {
            Listener::Ip(listener) => {
                let (stream, address) = listener.accept()?;
                let _ = stream.set_nodelay(true);
                Ok(Arrival {
                    peer: Peer::Ip(stream),
                    address: Some(address),
                })
            }
            Listener::Unix(listener, _) => {
                let (stream, _) = listener.accept()?;
                Ok(Arrival {
                    peer: Peer::Unix(stream),
                    address: None,
                })
            }
        }
    }

    /// Removes the socket of the file system, if it is one.
    pub fn close(&self, rt: &HostRuntime) {
        if let Listener::Unix(_, path) = &self.listener {
            let _ = fs::remove_file(rt, path.as_str());
        }
    }
}

// The only users as whom who comes to an address may attach, if not all may.
fn users_of(alloc: Global, address: &Address<'_>) -> Result<Option<Vec<User>>, AllocError> {
    match &address.users {
        Some(users) => Ok(Some(copy_of(alloc, users.as_slice())?)),
        None => Ok(None),
    }
}

/// Removes the sockets of the file system.
pub(crate) fn close_doors(rt: &HostRuntime, doors: &[Door]) {
    for door in doors {
        door.close(rt);
    }
}

// Listens at a place.
fn listen(rt: &HostRuntime, place: Place<'_>) -> io::Result<Listener> {
    match place {
        Place::Ip(address) => Ok(Listener::Ip(TcpListener::bind(rt, address)?)),
        Place::Unix(path) => {
            let name = String::from_str(rt.alloc(), path)?;
            Ok(Listener::Unix(listen_unix(rt, path)?, name))
        }
    }
}

// Listens at a socket of the file system. An old one at which nobody listens is replaced.
fn listen_unix(rt: &HostRuntime, path: &str) -> io::Result<UnixListener> {
    match UnixListener::bind(rt, path) {
        Err(error) if error.kind() == ErrorKind::AddrInUse && is_left(rt, path) => {
            fs::remove_file(rt, path)?;
            UnixListener::bind(rt, path)
        }
        listener => listener,
    }
}

// Whether a path is that of a socket at which nobody listens.
fn is_left(rt: &HostRuntime, path: &str) -> bool {
    let is_socket = match fs::symlink_metadata(rt, path) {
        Ok(metadata) => metadata.file_type().is_socket(),
        Err(_) => false,
    };
    is_socket
        && match UnixStream::connect(rt, path) {
            Ok(_) => false,
            Err(error) => error.kind() == ErrorKind::ConnectionRefused,
        }
}

// How a listener's address is shown.
fn name_of(alloc: Global, listener: &Listener) -> io::Result<String> {
    match listener {
        Listener::Ip(listener) => Ok(format!(in alloc; "{}", listener.local_addr()?)?),
        Listener::Unix(_, path) => Ok(format!(in alloc; "unix:{}", AsShown(path.as_str()))?),
    }
}

/// How it is shown where a client comes from: its IP address with the port, or the door's address.
pub(crate) fn shown_origin(
    alloc: Global,
    address: Option<SocketAddr>,
    door: &Door,
) -> Result<String, AllocError> {
    match address {
        Some(address) => format!(in alloc; "{address} at {}", door.name.as_str()),
        None => String::from_str(alloc, door.name.as_str()),
    }
}
