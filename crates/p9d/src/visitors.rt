//! The clients that are there, with their limits.

ghost use Rattle.std.specs.Prelude.{◌<◌, IsTrue, length};

use crate::door::Origin;
use crate::journal::{Journal, Level};
use crate::visit::{End, Shared, Visit};
use crate::words::Limits;
use std::alloc::{AllocError, Global};
use std::cell::Cell;
use std::fmt::Display;
use std::rc::Rc;

// The seconds in which a client has to send a whole Tversion.
const VERSION_SECONDS: u64 = 30;

const NO_VERSION: &str = "was closed: it sent no Tversion in 30 seconds";

/// The clients that are there.
#[derive(Drop)]
pub(crate) struct Visitors {
    limits: Limits,
    /// What they share.
    pub shared: Rc<Shared>,
    visits: Vec<Rc<Visit>>,
    // How many clients have come.
    count: u64,
}

impl Visitors {
    /// Nobody came yet. Of who comes all is told, or failures alone, if that is asked for.
    pub fn new(alloc: Global, limits: Limits, is_quiet: bool) -> Result<Visitors, AllocError> {
        match Rc::new(alloc, Shared::new(Journal::new(alloc, is_quiet))) {
            Ok(shared) => Ok(Visitors {
                limits,
                shared,
                visits: Vec::new(alloc),
                count: 0,
            }),
            Err(_) => Err(AllocError),
        }
    }

    /// Notes a client that came, and tells of it. A client that is one too many is told of, and gets
    /// nothing.
    pub fn admit(&mut self, origin: Origin, from: String) -> Result<Option<Rc<Visit>>, AllocError> {
        if let Some(limit) = self.limit_met(origin) {
            let event = Turned {
                from: from.as_str(),
                limit,
            };
            self.shared.tell(Level::Warning, &event);
            return Ok(None);
        }
        let visit = self.visit_of(origin, from)?;
        self.visits.push(visit.clone()?)?;
        self.shared.tell(Level::Info, &Came(&visit));
        Ok(Some(visit))
    }

    // What is known of a client that just came.
    fn visit_of(&mut self, origin: Origin, from: String) -> Result<Rc<Visit>, AllocError> {
        let now = self.shared.now.get();
        self.count = self.count.saturating_add(1);
        let visit = Visit {
            number: self.count,
            origin,
            from,
            began: now,
            last: Cell::new(now),
            has_version: Cell::new(false),
            is_late: Cell::new(false),
            end: Cell::new(None),
        };
        match Rc::new(*self.visits.allocator(), visit) {
            Ok(visit) => Ok(visit),
            Err(_) => Err(AllocError),
        }
    }

    // The limit that one more client from there doesn't meet, in words.
    fn limit_met(&self, origin: Origin) -> Option<&'static str> {
        if self.visits.len() >= self.limits.clients {
            return Some("too many clients");
        }
        if count_from(self.visits.as_slice(), origin) >= self.limits.per_address {
            return Some("too many clients from there");
        }
        None
    }

    /// Tells of the clients that are there no more, and forgets them.
    pub fn forget_gone(&mut self) {
        for at in (0..self.visits.len()).rev() {
            if self.is_gone(at) {
                let visit = self.visits.swap_remove(at);
                self.shared.tell(Level::Info, &Gone(&visit));
            }
        }
    }

    // Whether there is a client at this place in the list whose stream is there no more.
    fn is_gone(&self, at: usize) -> bool
        ensures { IsTrue result → at < length self.now.visits.items }
    {
        match self.visits.get(at) {
            Some(visit) => Rc::strong_count(visit) == 1,
            None => false,
        }
    }

    /// Has the clients that sent too little for too long be closed.
    pub fn close_late(&self) {
        let now = self.shared.now.get();
        for visit in self.visits.as_slice() {
            if self.is_late(visit, now) {
                visit.is_late.set(true);
            }
        }
    }

    // Whether a client has sent too little for too long.
    fn is_late(&self, visit: &Visit, now: u64) -> bool {
        if !visit.has_version.get() && now.saturating_sub(visit.began) >= VERSION_SECONDS {
            return true;
        }
        match self.limits.idle {
            Some(idle) => now.saturating_sub(visit.last.get()) >= idle as u64,
            None => false,
        }
    }
}

// How many of these clients came from there.
fn count_from(visits: &[Rc<Visit>], origin: Origin) -> usize {
    visits.iter().filter(|visit| visit.origin == origin).count()
}

// That a client came.
#[derive(Clone, Copy)]
struct Came<'a>(&'a Visit);

impl Display for Came<'_> {
    fn fmt<W: std::fmt::Write>(&self, f: &mut std::fmt::Formatter<W>) -> std::fmt::Result {
        write!(
            f,
            "client {} came from {}",
            self.0.number,
            self.0.from.as_str()
        )
    }
}

// That a client was turned away.
#[derive(Clone, Copy)]
struct Turned<'a> {
    from: &'a str,
    limit: &'static str,
}

impl Display for Turned<'_> {
    fn fmt<W: std::fmt::Write>(&self, f: &mut std::fmt::Formatter<W>) -> std::fmt::Result {
        write!(f, "a client from {} was closed: {}", self.from, self.limit)
    }
}

// That a client is there no more, and why.
#[derive(Clone, Copy)]
struct Gone<'a>(&'a Visit);

impl Display for Gone<'_> {
    fn fmt<W: std::fmt::Write>(&self, f: &mut std::fmt::Formatter<W>) -> std::fmt::Result {
        let number = self.0.number;
        match self.0.end.get() {
            Some(End::Failed(kind)) if !self.0.is_late.get() => {
                write!(f, "client {number} was closed: {kind}")
            }
            end => write!(f, "client {number} {}", how_gone(self.0, end)),
        }
    }
}

// How a client went whose stream didn't fail by itself.
fn how_gone(visit: &Visit, end: Option<End>) -> &'static str {
    match end {
        _ if visit.is_late.get() && !visit.has_version.get() => NO_VERSION,
        _ if visit.is_late.get() => "was closed: it sent nothing for too long",
        None => "was closed: it sent what is no message",
        Some(_) => "left",
    }
}
