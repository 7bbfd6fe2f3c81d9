//! The stream of a client, over a network or a socket of the file system.

use mio::net::{TcpStream, UnixStream};
use std::io;
use std::io::{Read, Write};

/// The stream of a client, which doesn't block.
#[derive(Drop)]
pub(crate) enum Peer {
    /// By an IP address.
    Ip(TcpStream),
    /// By a socket of the file system.
    Unix(UnixStream),
}

impl Read for Peer {
    fn read(&mut self, bytes: &mut [u8]) -> io::Result<usize> {
        match self {
            Peer::Ip(stream) => stream.read(bytes),
            Peer::Unix(stream) => stream.read(bytes),
        }
    }
}

impl Write for Peer {
    fn write(&mut self, bytes: &[u8]) -> io::Result<usize> {
        match self {
            Peer::Ip(stream) => stream.write(bytes),
            Peer::Unix(stream) => stream.write(bytes),
        }
    }

    fn flush(&mut self) -> io::Result<()> {
        Ok(())
    }
}
