//! A machine whose clock counts its readings and its sleeps.

use std::alloc::Global;
use std::cell::Cell;
use std::io;
use std::io::ErrorKind;
use std::net::{Net, SocketAddr};
use std::rt::Clock;
use std::time::Duration;

/// A machine whose clock can be read so many times. Each reading is a second later than the one
/// before. It doesn't sleep, but adds up how long it was to.
#[derive(Drop)]
pub struct Machine<'a, R> {
    host: &'a R,
    first: u64,
    most: u64,
    /// How often the clock was read.
    pub readings: Cell<u64>,
    /// How often it was to sleep, and how long in all.
    pub sleeps: Cell<u64>,
    pub slept: Cell<Duration>,
}

impl<R> Machine<'_, R> {
    /// A machine whose clock shows `first` seconds at its first reading, and has `most` of them.
    pub fn new(host: &R, first: u64, most: u64) -> Machine<'_, R> {
        Machine {
            host,
            first,
            most,
            readings: Cell::new(0),
            sleeps: Cell::new(0),
            slept: Cell::new(Duration::ZERO),
        }
    }
}

impl<R: Net> Net for Machine<'_, R> {
    type Stream = R::Stream;

    type Listener = R::Listener;

    fn bind(&self, addr: SocketAddr) -> io::Result<R::Listener> {
        self.host.bind(addr)
    }

    fn connect(&self, addr: SocketAddr) -> io::Result<R::Stream> {
        self.host.connect(addr)
    }
}

impl<R: AllocGlobal> Alloc for Machine<'_, R> {
    type A = Global;

    fn alloc(&self) -> Global {
        self.host.alloc()
    }
}

impl<R> Clock for Machine<'_, R> {
    fn monotonic(&self) -> io::Result<Duration> {
        Ok(Duration::ZERO)
    }

    fn since_1970(&self) -> io::Result<Duration> {
        let readings = self.readings.get();
        if readings >= self.most {
            return Err(io::Error::from(ErrorKind::Other));
        }
        self.readings.set(readings.saturating_add(1));
        Ok(Duration::from_secs(self.first.saturating_add(readings)))
    }

    fn sleep(&self, duration: Duration) {
        self.sleeps.set(self.sleeps.get().saturating_add(1));
        self.slept.set(self.slept.get().saturating_add(duration));
    }
}
