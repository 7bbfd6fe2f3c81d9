//! Bundles: the program's input, in sections.

ghost use Rattle.std.specs.Prelude.{◌≡◌, ◌==◌, ◌<◌, ◌-◌, ◌^◌, ℕ, List, [], ◌++◌, IfErr, IfOk};
ghost use Rattle.std.specs.Prelude.{None, Ok, OnOk, true};
ghost use Rattle.std.specs.List.{after_first, list_all};
ghost use Rattle.p9_base.specs.Line.{is_blank, lines_of};
ghost use Rattle.p9_prepared.specs.Bundle.{ArePartsOf, Begins, Ends, IsBundleFault, IsFaultOf};
ghost use Rattle.p9_prepared.specs.Bundle.{IsReadTo, Reads, Texts, begun, bundle_of, continued};
ghost use Rattle.p9_prepared.specs.Bundle.{last_of, reading_of, unread, with_part};

use crate::section::Section;
use p9_base::{NoMemory, lines};
use std::alloc::Allocator;
use thiserror::Error;

/// Why a text is no bundle.
#[derive(Clone, Copy, Debug, PartialEq, Eq, Error)]
pub enum BundleError {
    /// This line of the whole text is the first bad one; lines count from 1.
    #[error("line {line} begins no section")]
    BadBundle { line: u64 },
    /// An allocation failed.
    #[error("out of memory")]
    NoMemory,
}

/// A section as it is in the input.
#[derive(Clone, Copy)]
pub struct Part<'a> {
    /// Its lines, as the input has them.
    pub text: &'a str,
    /// The place of their first byte in the input.
    pub start: usize,
    /// The number of the first of them in the input, from 1.
    pub line: u64,
}

/// The sections of a bundle, each as it is in the input, or `None` where it isn't there.
#[derive(Clone, Copy)]
pub struct Bundle<'a> {
    pub world: Option<Part<'a>>,
    pub ns: Option<Part<'a>>,
    pub cert: Option<Part<'a>>,
    pub script: Option<Part<'a>>,
}

// A bundle as far as it is read.
#[derive(Clone, Copy)]
struct Reader<'a> {
    // the sections before the one that was begun last
    bundle: Bundle<'a>,
    // the section that was begun last, with all of the input from its first line on
    begun: Option<(Section, Part<'a>)>,
    // what is left of the input, from the next line on
    rest: &'a str,
    // how many bytes the input has
    len: usize,
}

impl<'a> Reader<'a> {
    // Nothing is read yet.
    fn new(input: &'a str) -> Reader<'a>
        ensures unread { IsReadTo input.now 1 (lines_of input.now) result unread.texts }
        ensures last { last_of result ≡ None }
    {
        Reader {
            bundle: Bundle {
                world: None,
                ns: None,
                cert: None,
                script: None,
            },
            begun: None,
            rest: input,
            len: input.len(),
        }
    }

    // Reads the line of this number, which is the next one.
    fn read_line(&mut self, number: u64, line: &str) -> Result<(), BundleError>
        requires { number < 2 ^ 64 - 1 }
        ensures ok { OnOk result (Reads number line.now self.old self.new) }
        ensures bad { IfErr result (IsFaultOf number line.now self.old) }
    {
        let left = self.rest;
        self.rest = after_line(left);
        if line.starts_with("%%") {
            return self.begin(number, Section::begun_by(line), left);
        }
        self.test_text(number, line)
    }

    // Begins a section with what is left, if the line of this number names one that may be there. What
    // is left from that line on belongs no longer to the section before.
    fn begin(
        &mut self,
        number: u64,
        section: Option<Section>,
        left: &str,
    ) -> Result<(), BundleError>
        requires { number < 2 ^ 64 - 1 }
        ensures ok { OnOk result (Begins number section left.now self.old self.new) }
        ensures bad { IfErr result (λ error. (texts : Texts)
            → IsBundleFault (begun (reading_of self.old texts) number section) error) }
    {
        let Some(section) = section else {
            return Err(BundleError::BadBundle { line: number });
        };
        if !section.may_follow(self.last()) {
            return Err(BundleError::BadBundle { line: number });
        }
        self.bundle = self.before(left);
        let start = self.len.saturating_sub(self.rest.len());
        self.begun = Some((
            section,
            Part {
                text: self.rest,
                start,
                line: number + 1,
            },
        ));
        Ok(())
    }

    // The sections up to the line with which this begins.
    fn before(&self, left: &str) -> Bundle<'a>
        ensures { Ends left.now self.now.begun self.now.bundle result }
    {
        match self.begun {
            Some((section, part)) => self.bundle.with_part(section, part.without(left)),
            None => self.bundle,
        }
    }

    // Whether a line that begins no section may be there: before the first section it is blank.
    fn test_text(&self, number: u64, line: &str) -> Result<(), BundleError>
        ensures ok { OnOk result (last_of self.now ≡ None → list_all is_blank line.now ≡ true) }
        ensures bad { IfErr result (λ error. (texts : Texts) → IsBundleFault
            (continued (reading_of self.now texts) number line.now (last_of self.now)) error) }
    {
        if self.begun.is_none() && !is_blank(line) {
            return Err(BundleError::BadBundle { line: number });
        }
        Ok(())
    }

    // The section that was begun last.
    fn last(&self) -> Option<Section>
        ensures { result ≡ last_of self.now }
    {
        match self.begun {
            Some((section, _)) => Some(section),
            None => None,
        }
    }

    // The sections, where no line is left.
    fn bundle(self) -> Bundle<'a>
        ensures { (input : List ℕ) (number : ℕ) (texts : Texts)
            → IsReadTo input number [] self.entry texts → ArePartsOf input result texts }
    {
        match self.begun {
            Some((section, part)) => self.bundle.with_part(section, part),
            None => self.bundle,
        }
    }
}

impl<'a> Bundle<'a> {
    // The same with this part as that section.
    fn with_part(self, section: Section, part: Part<'a>) -> Bundle<'a>
        ensures { result ≡ with_part section part.entry self.entry }
    {
        let part = Some(part);
        match section {
            Section::World => Bundle {
                world: part,
                ..self
            },
            Section::Ns => Bundle { ns: part, ..self },
            Section::Cert => Bundle { cert: part, ..self },
            Section::Script => Bundle {
                script: part,
                ..self
            },
        }
    }
}

impl<'a> Part<'a> {
    // The part before these lines, with which it ends.
    fn without(self, lines: &str) -> Part<'a>
        ensures start { result.start ≡ self.entry.start }
        ensures line { result.line ≡ self.entry.line }
        ensures text { (text : List ℕ) → self.entry.text.now ≡ text ++ lines.now
            → result.text.now ≡ text }
    {
        Part {
            text: self.text.strip_suffix(lines).unwrap_or(self.text),
            start: self.start,
            line: self.line,
        }
    }
}

// What is behind the first newline of a text; nothing where it has none.
fn after_line(text: &str) -> &str
    ensures { result.now ≡ after_first (λ b. b == 10) text.now }
{
    match text.split_once('\n') {
        Some((_, rest)) => rest,
        None => "",
    }
}

/// Whether a line has nothing but blanks and tabs.
pub(crate) fn is_blank(line: &str) -> bool
    ensures { result ≡ list_all is_blank line.now }
{
    line.bytes().all(|byte| byte == b' ' || byte == b'\t')
}

/// The sections of a bundle. Nothing of the text is copied.
///
/// A section begins with one of the lines `%% world`, `%% ns`, `%% cert` and `%% script`, and has
/// the lines up to the next section or the end. Each section is there once at most, and they come in
/// this order. Any other line that begins with `%%`, and a line before the first section that has
/// anything but blanks and tabs, is [`BundleError::BadBundle`]; a failed allocation is
/// [`BundleError::NoMemory`].
pub fn split_bundle<A: Allocator + Copy>(alloc: A, text: &str) -> Result<Bundle<'_>, BundleError>
    ensures ok { IfOk result (λ bundle.
        (texts : Texts) × (bundle_of text.now ≡ Ok texts) × ArePartsOf text.now bundle texts) }
    ensures bad { IfErr result (IsBundleFault (bundle_of text.now)) }
{
    let mut reader = Reader::new(text);
    for (position, line) in lines(alloc, text)?.iter().enumerate() {
        reader.read_line(position as u64 + 1, line)?;
    }
    Ok(reader.bundle())
}

/// Every error that [`p9_base::NoMemory`] is made from says that an allocation failed.
impl<E: Drop> From<E> for BundleError
where
    NoMemory: From<E>,
{
    ghost use Rattle.std.specs.Prelude.{◌≡◌};
    ghost use Rattle.p9_prepared.specs.declared.bundle.BundleError.TheVariants.{NoMemory};

    ghost from_gives = { λ _ error. error ≡ NoMemory };

    fn from(_error: E) -> BundleError {
        BundleError::NoMemory
    }
}
