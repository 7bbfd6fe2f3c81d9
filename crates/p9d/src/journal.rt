//! What is told on standard error, as the journal of the system wants it.

use std::alloc::{AllocError, Global};
use std::fmt::Display;

// How many lines are told in a second.
const PER_SECOND: u64 = 200;

/// How grave an event is, by the levels of syslog(3).
#[derive(Clone, Copy, PartialEq, Eq)]
pub(crate) enum Level {
    Error,
    Warning,
    Info,
}

impl Level {
    // What begins its lines.
    fn mark(self) -> &'static str {
        match self {
            Level::Error => "<3>",
            Level::Warning => "<4>",
            Level::Info => "<6>",
        }
    }
}

/// Lines that are to be printed. In a second there are at most 200; how many more there would have been
/// is told then.
#[derive(Drop)]
pub(crate) struct Journal {
    lines: String,
    count: u64,
    left_out: u64,
    is_quiet: bool,
}

impl Journal {
    /// No lines. A quiet journal has warnings and failures alone.
    pub fn new(alloc: Global, is_quiet: bool) -> Journal {
        Journal {
            lines: String::new(alloc),
            count: 0,
            left_out: 0,
            is_quiet,
        }
    }

    /// Tells of an event, as a line. A line for which there is no memory is left out.
    pub fn tell<D: Display>(&mut self, level: Level, event: &D) {
        if self.is_quiet && level == Level::Info {
            return;
        }
        if self.count >= PER_SECOND {
            self.left_out = self.left_out.saturating_add(1);
            return;
        }
        self.count = self.count.saturating_add(1);
        if self.push(level, event).is_err() {
            self.left_out = self.left_out.saturating_add(1);
        }
    }

    // Adds a line whole, or not at all.
    fn push<D: Display>(&mut self, level: Level, event: &D) -> Result<(), AllocError> {
        let line = format!(in *self.lines.allocator(); "{}p9d: {event}\n", level.mark())?;
        self.lines.push_str(line.as_str())
    }

    /// Begins a second.
    pub fn begin_second(&mut self) {
        self.count = 0;
        let left_out = self.left_out;
        self.left_out = 0;
        if left_out > 0 {
            let _ = self.push(Level::Warning, &Missing(left_out));
        }
    }

    /// Whether there is a line to print.
    pub fn is_empty(&self) -> bool {
        self.lines.is_empty()
    }

    /// The lines.
    pub fn lines(&self) -> &str {
        self.lines.as_str()
    }

    /// Forgets the lines that were printed.
    pub fn clear(&mut self) {
        self.lines.clear();
    }
}

// How many lines were left out.
#[derive(Clone, Copy)]
struct Missing(u64);

impl Display for Missing {
    fn fmt<W: std::fmt::Write>(&self, f: &mut std::fmt::Formatter<W>) -> std::fmt::Result {
        write!(f, "{} more events of the last second were left out", self.0)
    }
}
