//! The stream of a client, who may attach as all listed users or as some.

ghost use Rattle.std.specs.Io.{ReadsAtMost, WritesAtMost};

use crate::address::copy_of;
use crate::gate::Gated;
use crate::peer::Peer;
use crate::visit::{Shared, Visit, Visited};
use p9_base::User;
use p9_conn::Stream;
use p9_restricted::Restricted;
use p9_serve::Socket;
use std::alloc::{AllocError, Global};
use std::io::{self, Read, Write};
use std::rc::Rc;

/// The stream of a visit.
pub(crate) type Visiting = Visited<Socket<Gated<Peer>, Global>>;

/// The stream of a client that comes to a door. Whoever is generic over it knows nothing of what it is made of.
pub(crate) trait Coming: Stream + Drop + Sized {
    /// The stream of a visit, whose client may attach as these users, if not as all.
    fn of(
        alloc: Global,
        peer: Peer,
        visit: Rc<Visit>,
        shared: &Rc<Shared>,
        users: &Option<Vec<User>>,
    ) -> Result<Self, AllocError>;
}

impl Coming for Client<Visiting> {
    fn of(
        alloc: Global,
        peer: Peer,
        visit: Rc<Visit>,
        shared: &Rc<Shared>,
        users: &Option<Vec<User>>,
    ) -> Result<Client<Visiting>, AllocError> {
        let stream = visited(alloc, peer, visit, shared)?;
        match users {
            None => Ok(Client::Any(stream)),
            Some(users) => {
                let users = copy_of(alloc, users.as_slice())?;
                Ok(Client::Some(Restricted::new(stream, users)))
            }
        }
    }
}

// The stream of a visit.
fn visited(
    alloc: Global,
    peer: Peer,
    visit: Rc<Visit>,
    shared: &Rc<Shared>,
) -> Result<Visiting, AllocError> {
    match Socket::new(alloc, Gated::new(peer, shared.clone()?)) {
        Ok(socket) => Ok(Visited::new(alloc, socket, visit, shared.clone()?)),
        Err(_) => Err(AllocError),
    }
}

/// A client's stream.
#[derive(Drop)]
pub(crate) enum Client<S> {
    /// Of one who may attach as each listed user.
    Any(S),
    /// Of one who may attach as some users alone.
    Some(Restricted<S, Global>),
}

impl<S: Stream> Read for Client<S> {
    fn read(&mut self, bytes: &mut [u8]) -> io::Result<usize> {
        self.receive(bytes)
    }
}

impl<S: Stream> Write for Client<S> {
    fn write(&mut self, bytes: &[u8]) -> io::Result<usize> {
        self.send(bytes, false)
    }

    fn flush(&mut self) -> io::Result<()> {
        match self {
            Client::Any(stream) => stream.flush(),
            Client::Some(stream) => stream.flush(),
        }
    }
}

impl<S: Stream> Stream for Client<S> {
    fn receive(&mut self, bytes: &mut [u8]) -> io::Result<usize> {
        match self {
            Client::Any(stream) => stream.receive(bytes),
            Client::Some(stream) => stream.receive(bytes),
        }
    }

    fn send(&mut self, bytes: &[u8], more: bool) -> io::Result<usize> {
        match self {
            Client::Any(stream) => stream.send(bytes, more),
            Client::Some(stream) => stream.send(bytes, more),
        }
    }
}
