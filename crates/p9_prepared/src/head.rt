//! Lines that begin sections, and those that are meant to.

ghost use Rattle.p9_prepared.specs.Head.{IsHead};

use crate::bundle::is_blank;
use crate::section::{SECTIONS, Section};

/// The way in which a line is bad that is to begin a section, or is before the first one.
#[derive(Clone, Copy, Debug, PartialEq, Eq)]
pub enum Way {
    /// A byte order mark is before it.
    ByteOrderMark,
    /// A carriage return is at its end.
    CarriageReturn,
    /// A blank is behind the section's name.
    BlankAfter,
    /// The section's name has capitals.
    Capitals,
    /// No section has this name.
    UnknownName,
    /// The section was begun before.
    Twice,
    /// A section that comes later was begun before.
    WrongOrder,
    /// It is before the first section, and not blank.
    TextBefore,
}

impl Way {
    /// What is wrong, and what is expected.
    pub fn text(self) -> &'static str {
        match self {
            Way::ByteOrderMark => "a byte order mark is at the line's front: none is to be there",
            Way::CarriageReturn => "a carriage return ends the line: only a newline is to end it",
            Way::BlankAfter => "a blank is after the section's name: none is to be there",
            Way::Capitals => "capitals in the section's name: world, ns, cert or script",
            Way::UnknownName => "unknown section: %% world, %% ns, %% cert or %% script",
            Way::Twice => "the section is there twice: each is there once at most",
            Way::WrongOrder => "wrong order of sections: world, ns, cert, script",
            Way::TextBefore => "text before the first section: a line as %% world is to be first",
        }
    }
}

/// What a line says of sections.
#[derive(Clone, Copy)]
pub(crate) enum Head {
    /// Nothing.
    Other,
    /// It begins this section.
    Begins(Section),
    /// It is meant to begin a section, this one where that is known, and is bad in this way.
    Bad(Option<Section>, Way),
}

/// What a line says of sections, where a line before it says something of them, or none does.
pub(crate) fn head_of(line: &str, headed: bool) -> Head
    ensures { IsHead line.now headed result }
{
    if line.starts_with("%%") {
        return match Section::begun_by(line) {
            Some(section) => Head::Begins(section),
            None => {
                let (section, way) = meant_by(line);
                Head::Bad(section, way)
            }
        };
    }
    if headed || is_blank(line) {
        return Head::Other;
    }
    match section_marked(line) {
        Some(section) => Head::Bad(Some(section), Way::ByteOrderMark),
        None => Head::Other,
    }
}

// Which section a line is meant to begin that begins none, where that is known, and how it is bad.
fn meant_by(line: &str) -> (Option<Section>, Way) {
    let trimmed = line.trim_end();
    let section = section_meant(trimmed);
    let way = if section.is_none() {
        Way::UnknownName
    } else if Section::begun_by(trimmed).is_none() {
        Way::Capitals
    } else if line.ends_with('\r') {
        Way::CarriageReturn
    } else {
        Way::BlankAfter
    };
    (section, way)
}

// The section that a line is meant to begin after a byte order mark.
fn section_marked(line: &str) -> Option<Section> {
    let rest = line.strip_prefix("\u{feff}")?;
    section_meant(rest.trim_end())
}

// The section that a line is meant to begin, in letters of either case.
fn section_meant(line: &str) -> Option<Section> {
    for section in SECTIONS {
        if line.eq_ignore_ascii_case(section.head()) {
            return Some(section);
        }
    }
    None
}
