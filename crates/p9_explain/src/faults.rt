//! All bad lines of an input.

use crate::source::Source;
use p9_base::{NoMemory, Statement};
use p9_prepared::{EVENT_EXPECTED, SECTIONS, Section, bad_events};
use p9_shown::AsShown;
use p9_tree::Tree;
use p9_world::bad_lines;
use std::alloc::{AllocError, Allocator};

// How many bad lines of a section are listed at most.
const FAULTS_MAX: usize = 100;

// A word that has more bytes is not shown.
const WORD_MAX: usize = 64;

// A bad line of a section: its number there, what is wrong, the place of the word that is wrong, and
// what was expected.
#[derive(Clone, Copy)]
struct Fault {
    line: u64,
    what: &'static str,
    word: usize,
    expected: &'static str,
}

/// Adds to a text a line for each bad line of an input: where it is, the word, and what was expected.
pub(crate) fn push_faults<T: Tree>(
    text: &mut String<T::Alloc>,
    source: &Source<'_, T::Alloc>,
) -> Result<(), NoMemory> {
    push_section_lines(text, source)?;
    for section in SECTIONS {
        push_faults_in::<T>(text, source, section)?;
    }
    Ok(())
}

// Adds the lines that are bad where sections begin, or before the first.
fn push_section_lines<A: Allocator + Copy>(
    text: &mut String<A>,
    source: &Source<'_, A>,
) -> Result<(), AllocError> {
    for line in source.lines.as_slice() {
        if let Some(way) = line.way {
            writeln!(text, "{}:{}: {}", source.name, line.number, way.text())?;
        }
    }
    Ok(())
}

// Adds the bad lines of a section.
fn push_faults_in<T: Tree>(
    text: &mut String<T::Alloc>,
    source: &Source<'_, T::Alloc>,
    section: Section,
) -> Result<(), NoMemory> {
    let alloc = *text.allocator();
    let Some(lines) = source.text(section) else {
        return Ok(());
    };
    let faults = faults_in::<T>(alloc, section, lines)?;
    let statements = source.statements(alloc, section)?;
    let pushed = push_each(text, source, section, &faults, &statements);
    drop(statements);
    pushed
}

// Adds bad lines of a section that has these statements.
fn push_each<A: Allocator + Copy>(
    text: &mut String<A>,
    source: &Source<'_, A>,
    section: Section,
    faults: &[Fault],
    statements: &[Statement<'_, A>],
) -> Result<(), NoMemory> {
    for fault in faults.iter().take(FAULTS_MAX) {
        source.push_line(text, section, fault.line)?;
        push_fault(text, fault, words_at(statements, fault.line))?;
    }
    if faults.len() > FAULTS_MAX {
        writeln!(text, "{}: there may be more bad lines", source.name)?;
    }
    Ok(())
}

// Adds what is wrong with a line of these words, and what was expected. That ends the line of the text.
fn push_fault<A: Allocator + Copy>(
    text: &mut String<A>,
    fault: &Fault,
    words: &[&str],
) -> Result<(), AllocError> {
    let Fault { what, expected, .. } = *fault;
    match word_of(fault, words) {
        Some(word) => writeln!(text, ": {what} '{}': {expected}", AsShown(word)),
        None => writeln!(text, ": {what}: {expected}"),
    }
}

// The word that is wrong, unless a word is missing; one that is long is left out.
fn word_of<'a>(fault: &Fault, words: &[&'a str]) -> Option<&'a str> {
    let word = words.get(fault.word).copied()?;
    if word.len() > WORD_MAX {
        return Some("..");
    }
    Some(word)
}

// The words of the statement of a line.
fn words_at<'a, 'b, A: Allocator>(statements: &'b [Statement<'a, A>], line: u64) -> &'b [&'a str] {
    for statement in statements {
        if statement.line == line {
            return statement.words.as_slice();
        }
    }
    &[]
}

// The bad lines of a section of this text. The lines of a namespace file are read and not run.
fn faults_in<T: Tree>(
    alloc: T::Alloc,
    section: Section,
    text: &str,
) -> Result<Vec<Fault, T::Alloc>, NoMemory> {
    match section {
        Section::World => in_world::<T>(alloc, text),
        Section::Ns => in_namespace(alloc, text),
        Section::Cert => in_certificate(alloc, text),
        Section::Script => in_script(alloc, text),
    }
}

// The bad lines of a world.
fn in_world<T: Tree>(alloc: T::Alloc, text: &str) -> Result<Vec<Fault, T::Alloc>, NoMemory> {
    let mut faults = Vec::new(alloc);
    for bad in &bad_lines::<T>(alloc, text)? {
        faults.push(Fault {
            line: bad.line,
            what: bad.kind.text(),
            word: bad.word,
            expected: bad.expected,
        })?;
    }
    Ok(faults)
}

// The lines of bad form of a namespace file.
fn in_namespace<A: Allocator + Copy>(alloc: A, text: &str) -> Result<Vec<Fault, A>, NoMemory> {
    let mut faults = Vec::new(alloc);
    for bad in &p9_nsline::bad_lines(alloc, text)? {
        faults.push(Fault {
            line: bad.line,
            what: bad.kind.text(),
            word: bad.word,
            expected: bad.expected,
        })?;
    }
    Ok(faults)
}

// The bad lines of a certificate.
fn in_certificate<A: Allocator + Copy>(alloc: A, text: &str) -> Result<Vec<Fault, A>, NoMemory> {
    let mut faults = Vec::new(alloc);
    for bad in &p9_cert::bad_lines(alloc, text)? {
        faults.push(Fault {
            line: bad.line,
            what: "bad line",
            word: bad.word,
            expected: bad.kind.expected(),
        })?;
    }
    Ok(faults)
}

// The bad lines of a script.
fn in_script<A: Allocator + Copy>(alloc: A, text: &str) -> Result<Vec<Fault, A>, NoMemory> {
    let mut faults = Vec::new(alloc);
    for bad in &bad_events(alloc, text)? {
        faults.push(Fault {
            line: bad.line,
            what: "bad line",
            word: bad.word,
            expected: EVENT_EXPECTED,
        })?;
    }
    Ok(faults)
}
