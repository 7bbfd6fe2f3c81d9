//! What is printed while directories are packed.

use crate::reason::Reason;
use crate::sink::Sink;
use p9_base::NoMemory;
use p9_shell::Failure;
use p9_shown::AsShown;
use std::io::IsTerminal;
use std::time::Instant;

// So many bytes are printed at a time.
const BLOCK: usize = 65_536;

/// What is printed while directories are packed.
pub(crate) struct Output {
    /// What is still to be printed.
    pub text: Vec<u8>,
    /// How much was left out.
    pub left_out: u64,
    /// Where it is printed.
    pub sink: Sink,
    lines: u64,
    start: Instant,
    // The seconds after which progress is reported next, where it is reported.
    report: Option<u64>,
}

impl Output {
    /// Begins what is printed: into the file of a path, or on standard output.
    pub fn open(rt: &HostRuntime, path: Option<&str>) -> Result<Output, Failure> {
        let start = Instant::now(rt)?;
        let sink = Sink::open(rt, path)?;
        Ok(Output {
            text: Vec::new(rt.alloc()),
            left_out: 0,
            sink,
            lines: 0,
            start,
            report: rt.stderr().is_terminal().then_some(2),
        })
    }

    /// Counts a line that was added to the text, and prints what there is, where that is much. The
    /// error of one that was not added is a failed allocation.
    pub fn count(&mut self, rt: &HostRuntime, added: Result<(), NoMemory>) -> Result<(), Failure> {
        added?;
        self.lines = self.lines.saturating_add(1);
        if self.text.len() >= BLOCK {
            self.flush(rt)?;
        }
        self.report_progress(rt)
    }

    /// Prints what there is.
    pub fn flush(&mut self, rt: &HostRuntime) -> Result<(), Failure> {
        self.sink.write_all(rt, self.text.as_slice())?;
        self.text.clear();
        Ok(())
    }

    /// Ends what is printed. A file takes its place where all is done and whole.
    pub fn end(self, rt: &HostRuntime, is_done: bool, is_whole: bool) -> Result<(), Failure> {
        let Output {
            text: _,
            left_out: _,
            sink,
            lines: _,
            start: _,
            report: _,
        } = self;
        if is_done && (is_whole || !sink.is_file()) {
            return sink.keep(rt);
        }
        sink.discard(rt)
    }

    /// Reports what is left out, and why.
    pub fn leave_out(
        &mut self,
        rt: &HostRuntime,
        what: &str,
        reason: Reason,
    ) -> Result<(), Failure> {
        self.left_out = self.left_out.saturating_add(1);
        let what = AsShown(what);
        Ok(eprintln!(rt; "left out: {what}: {reason}")?)
    }

    /// Reports how many names of a directory are left out, since they are not UTF-8.
    pub fn leave_out_names(
        &mut self,
        rt: &HostRuntime,
        dir: &str,
        count: u64,
    ) -> Result<(), Failure> {
        if count == 0 {
            return Ok(());
        }
        self.left_out = self.left_out.saturating_add(count);
        let dir = AsShown(dir);
        Ok(eprintln!(rt; "left out in {dir}: {count} with a name that is not UTF-8")?)
    }

    // Reports how many lines there are, where it is time for that.
    fn report_progress(&mut self, rt: &HostRuntime) -> Result<(), Failure> {
        let Some(next) = self.report else {
            return Ok(());
        };
        let seconds = self.start.elapsed(rt)?.as_secs();
        if seconds >= next {
            self.report = Some(seconds.saturating_add(1));
            let lines = self.lines;
            eprintln!(rt; "p9_admin: {lines} lines")?;
        }
        Ok(())
    }
}
