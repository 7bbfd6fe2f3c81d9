//! Which lines of an input belong to which section, also where section lines are bad.

ghost use Rattle.std.specs.Prelude.{◌≡◌, IfOk, None, false, is_some};
ghost use Rattle.std.specs.Result.{result_err};
ghost use Rattle.p9_prepared.specs.Bundle.{bundle_of};
ghost use Rattle.p9_prepared.specs.Head.{IsHead};
ghost use Rattle.p9_prepared.specs.Layout.{IsRead, behind, first_bad, is_bad};

use crate::bundle::is_blank;
use crate::head::{Head, Way, head_of};
use crate::section::Section;
use p9_base::{NoMemory, lines};
use std::alloc::Allocator;

/// A line of an input.
#[derive(Clone, Copy)]
pub struct InputLine<'a> {
    /// Its number, from 1.
    pub number: u64,
    /// The place of its first byte in the input.
    pub start: usize,
    /// It, without its newline.
    pub text: &'a str,
    /// The section that it belongs to, if to one.
    pub section: Option<Section>,
    /// The section that it begins, if it begins one.
    pub begins: Option<Section>,
    /// The way in which it is a bad section line, if it is one.
    pub way: Option<Way>,
}

impl InputLine<'_> {
    /// The place of the byte after the line and its newline.
    pub fn end(&self) -> usize {
        self.start.saturating_add(self.text.len()).saturating_add(1)
    }
}

/// The lines of an input, with their sections. The first that is a bad section line is the one for
/// which [`split_bundle`](crate::split_bundle) refuses the input, and there is none where it splits it.
///
/// A line that is meant to begin a section does so, unless that section was there before. The lines
/// after any other section line belong to no section. The only error is a failed allocation.
pub fn input_lines<A: Allocator + Copy>(
    alloc: A,
    input: &str,
) -> Result<Vec<InputLine<'_>, A>, NoMemory>
    ensures { IfOk result (λ found. first_bad found.items ≡ result_err (bundle_of input.now)) }
{
    let mut layout = Layout::new(alloc);
    let mut found = Vec::new(alloc);
    for (position, text) in lines(alloc, input)?.iter().enumerate() {
        let line = layout.read(position as u64 + 1, text)?;
        found.push(line)?;
    }
    Ok(found)
}

// How far the sections of an input are read: the section that was begun last, whether a line said
// something of sections, and whether a line was bad.
#[derive(Clone, Copy)]
struct Progress {
    last: Option<Section>,
    headed: bool,
    damaged: bool,
}

impl Progress {
    // In which way a line with this head is bad, if it is.
    fn way_of(self, head: Head, line: &str, is_begun: bool) -> Option<Way>
        ensures { is_some result ≡ is_bad self head line.now is_begun }
    {
        match head {
            Head::Bad(_, way) => Some(way),
            Head::Begins(section) => {
                if section.may_follow(self.last) && !(self.damaged && is_begun) {
                    None
                } else if is_begun {
                    Some(Way::Twice)
                } else {
                    Some(Way::WrongOrder)
                }
            }
            Head::Other if self.headed || is_blank(line) => None,
            Head::Other => Some(Way::TextBefore),
        }
    }

    // How far they are read behind a line with this head, which is bad or not.
    fn behind(self, head: Head, is_bad: bool) -> Progress
        ensures { result ≡ behind self head is_bad }
    {
        let damaged = self.damaged || is_bad;
        match head {
            Head::Other => Progress { damaged, ..self },
            Head::Begins(section) | Head::Bad(Some(section), _) => Progress {
                last: Some(section),
                headed: true,
                damaged,
            },
            Head::Bad(None, _) => Progress {
                last: self.last,
                headed: true,
                damaged,
            },
        }
    }
}

// The lines that were read so far.
#[derive(Drop)]
struct Layout<A: Allocator + Copy> {
    progress: Progress,
    // the sections that were begun, also those that were begun before
    begun: Vec<Section, A>,
    // the section that the next line belongs to
    current: Option<Section>,
    // the place of the next line's first byte
    start: usize,
}

impl<A: Allocator + Copy> Layout<A> {
    // No line is read.
    fn new(alloc: A) -> Layout<A>
        ensures { result.progress ≡ record { last = None; headed = false; damaged = false } }
    {
        Layout {
            progress: Progress {
                last: None,
                headed: false,
                damaged: false,
            },
            begun: Vec::new(alloc),
            current: None,
            start: 0,
        }
    }

    // Reads the line of this number.
    fn read<'a>(&mut self, number: u64, text: &'a str) -> Result<InputLine<'a>, NoMemory>
        ensures number { IfOk result (λ line. line.number ≡ number) }
        ensures read { IfOk result (λ line.
            IsRead self.old.progress text.now (is_some line.way) self.new.progress) }
    {
        let head = head_of(text, self.progress.headed);
        let way = self.progress.way_of(head, text, self.has_begun(head));
        self.progress = self.progress.behind(head, way.is_some());
        let begins = self.begin(head)?;
        let section = self.go_on(head, begins);
        let line = InputLine {
            number,
            start: self.start,
            text,
            section,
            begins,
            way,
        };
        self.start = line.end();
        Ok(line)
    }

    // Whether the section that a line with this head is meant to begin was begun before.
    fn has_begun(&self, head: Head) -> bool {
        match head {
            Head::Begins(section) | Head::Bad(Some(section), _) => self.begun.contains(&section),
            _ => false,
        }
    }

    // The section that a line with this head begins, unless it was begun before.
    fn begin(&mut self, head: Head) -> Result<Option<Section>, NoMemory>
        ensures { self.new.progress ≡ self.old.progress }
    {
        let (Head::Begins(section) | Head::Bad(Some(section), _)) = head else {
            return Ok(None);
        };
        let is_begun = self.begun.contains(&section);
        self.begun.push(section)?;
        Ok(if is_begun { None } else { Some(section) })
    }

    // The section that a line with this head belongs to. Where it says something of sections, that is
    // none, and the next lines belong to the one that it begins.
    fn go_on(&mut self, head: Head, begins: Option<Section>) -> Option<Section>
        ensures { self.new.progress ≡ self.old.progress }
    {
        match head {
            Head::Other => self.current,
            _ => {
                self.current = begins;
                None
            }
        }
    }
}
