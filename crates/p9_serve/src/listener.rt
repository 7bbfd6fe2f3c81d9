//! Where clients come from: any listener, and that of the system.

ghost use Rattle.std.specs.Prelude.{List, None, Option};
ghost use Rattle.std.specs.Option.{option_to_list};
ghost use Rattle.p9_serve.specs.Coming.{GivesOut};

use crate::socket::Socket;
use mio::net::{TcpListener, TcpStream};
use p9_conn::Stream;
use std::alloc::Allocator;
use std::io;
use std::net::SocketAddr;

/// A listener, which gives out the streams of the clients that come to it.
pub trait Listener: Drop {
    /// The stream of a client.
    type Stream: Stream + Drop;

    /// The streams of the clients that are still to come, in the order in which they are given out,
    /// where they are known.
    ghost coming: { Self → Option (List Self.Stream) };

    /// Gives out the stream of a client that waits, if there is one. Of the clients that are to come
    /// that is the first one. This doesn't wait.
    fn accept(&mut self) -> Option<Self::Stream>
        ensures { GivesOut (coming self.old) (coming self.new) (option_to_list result) };
}

/// The sockets of those who connect to an address. Who will come is not known.
#[derive(Drop)]
pub struct Sockets<A: Allocator> {
    alloc: A,
    listener: TcpListener,
}

impl<A: Allocator + Copy> Sockets<A> {
    /// The sockets of those who connect to a listener, which is one that doesn't block. Their
    /// buffers are taken from the allocator.
    pub fn new(alloc: A, listener: TcpListener) -> Sockets<A> {
        Sockets { alloc, listener }
    }

    /// The address of the listener.
    pub fn local_addr(&self) -> io::Result<SocketAddr> {
        self.listener.local_addr()
    }
}

impl<A: Allocator + Copy> Listener for Sockets<A> {
    type Stream = Socket<TcpStream, A>;

    ghost coming = { λ _. None };

    /// The socket of a client that waits, if there is one, and neither the accept nor an allocation
    /// fails. It sets TCP_NODELAY, where the system grants it.
    fn accept(&mut self) -> Option<Socket<TcpStream, A>> {
        let (stream, _) = self.listener.accept().ok()?;
        let _ = stream.set_nodelay(true);
        Socket::new(self.alloc, stream).ok()
    }
}
