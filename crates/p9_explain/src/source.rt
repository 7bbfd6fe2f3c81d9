//! The input that is explained: its name, its lines, and which of them make nodes.

use p9_base::{NoMemory, NodeRef, Statement, statements};
use p9_prepared::{InputLine, Section, input_lines};
use p9_shown::AsShown;
use p9_tree::Tree;
use p9_world::{NodeLine, node_lines};
use std::alloc::Allocator;

/// An input, by its name.
#[derive(Drop)]
pub(crate) struct Source<'a, A: Allocator> {
    pub name: AsShown<'a>,
    input: &'a str,
    pub lines: Vec<InputLine<'a>, A>,
    nodes: Vec<NodeLine, A>,
}

impl<'a, A: Allocator + Copy> Source<'a, A> {
    /// The source of an input, which has this name. No line of it is known to make a node.
    pub fn of(alloc: A, name: &'a str, input: &'a str) -> Result<Source<'a, A>, NoMemory> {
        Ok(Source {
            name: AsShown(name),
            input,
            lines: input_lines(alloc, input)?,
            nodes: Vec::new(alloc),
        })
    }

    /// The text of a section, if the section is begun. It is empty where no line follows. The line
    /// after the last newline of the input is one, so the last line of the text may lack its newline.
    pub fn text(&self, section: Section) -> Option<&'a str> {
        let (start, end) = place_of(self.lines.as_slice(), section)?;
        let last = self.input.len();
        self.input.get(start.min(last)..end.min(last))
    }

    /// The statements of a section.
    pub fn statements(
        &self,
        alloc: A,
        section: Section,
    ) -> Result<Vec<Statement<'a, A>, A>, NoMemory> {
        Ok(statements(alloc, self.text(section).unwrap_or(""))?)
    }

    /// Adds `NAME:M, SECTION:L` for the line L of a section to a text: its number among all lines, and
    /// that in its section, by which `p9` tells it.
    pub fn push_line(
        &self,
        text: &mut String<A>,
        section: Section,
        line: u64,
    ) -> Result<(), NoMemory> {
        let number = number_in(self.lines.as_slice(), section, line);
        write!(text, "{}:{number}, {}:{line}", self.name, section.name())?;
        Ok(())
    }

    /// The number in its section of the line that has this number among all lines.
    pub fn number_in_section(&self, section: Section, number: u64) -> u64 {
        number.saturating_sub(number_in(self.lines.as_slice(), section, 0))
    }

    /// The last line of the world that made a node or changed it, if these lines are known.
    pub fn line_of(&self, at: NodeRef) -> Option<u64> {
        let mut found = None;
        for made in self.nodes.as_slice() {
            if made.at == at {
                found = Some(made.line);
            }
        }
        found
    }
}

/// The source of an input, which has this name, with the lines of its world that make nodes.
pub(crate) fn numbered_source<'a, T: Tree>(
    alloc: T::Alloc,
    name: &'a str,
    input: &'a str,
) -> Result<Source<'a, T::Alloc>, NoMemory> {
    let mut source = Source::of(alloc, name, input)?;
    let world = source.text(Section::World).unwrap_or("");
    source.nodes = node_lines::<T>(alloc, world)?;
    Ok(source)
}

// The number of a section's line among all lines. The line 0 is the one that begins the section.
fn number_in(lines: &[InputLine<'_>], section: Section, line: u64) -> u64 {
    for first in lines {
        if first.begins == Some(section) {
            return first.number.saturating_add(line);
        }
    }
    line
}

// Where the lines of a section begin and end.
fn place_of(lines: &[InputLine<'_>], section: Section) -> Option<(usize, usize)> {
    let mut place = None;
    for line in lines {
        if line.begins == Some(section) {
            place = Some((line.end(), line.end()));
        } else if line.section == Some(section) {
            place = place.map(|(start, _)| (start, line.end()));
        }
    }
    place
}
