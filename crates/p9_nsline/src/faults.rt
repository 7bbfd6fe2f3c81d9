//! All lines of bad form of a namespace file.

ghost use Rattle.std.specs.Prelude.{◌≡◌, All, IfOk, IfSome, map, option_map, slice_get};
ghost use Rattle.std.specs.Result.{result_err};
ghost use Rattle.p9_base.specs.Statement.{statement_view};
ghost use Rattle.p9_nsline.specs.Faults.{bad_form_in, bad_line_view, bad_lines_in, word_of};
ghost use Rattle.p9_nsline.specs.Line.{lines_in};

use crate::error::BadForm;
use crate::operation::read_operation;
use p9_base::{NoMemory, Statement, statements};
use std::alloc::Allocator;

/// A line of bad form.
#[derive(Clone, Copy, Debug, PartialEq, Eq)]
pub struct BadLine {
    /// Its number in its text, from 1 on.
    pub line: u64,
    /// What is wrong with it.
    pub kind: BadForm,
    /// The place of the word that is wrong, from 0 on among the words of the line.
    pub word: usize,
    /// What is expected in its place. At [`BadForm::WordCount`] that is the form of the whole line.
    pub expected: &'static str,
}

/// All lines of bad form of a text, in order. Each line is read by itself, so the first of them is
/// the one for which [`read_lines`](crate::read_lines) refuses the text. The only error is a failed
/// allocation.
pub fn bad_lines<A: Allocator + Copy>(alloc: A, text: &str) -> Result<Vec<BadLine, A>, NoMemory>
    ensures all { IfOk result (λ found. map bad_line_view found.items ≡ bad_lines_in text.now) }
    ensures first { IfOk result (λ found.
        slice_get (map bad_line_view found.items) 0 ≡ result_err (lines_in text.now)) }
    ensures word { IfOk result (λ found. All (λ bad. bad.word ≡ word_of bad.kind) found.items) }
{
    let mut found = Vec::new(alloc);
    for statement in &statements(alloc, text)? {
        if let Some(bad) = bad_line(statement) {
            found.push(bad)?;
        }
    }
    Ok(found)
}

// What is wrong with the line of a statement, if it is of bad form.
fn bad_line<A: Allocator>(statement: &Statement<'_, A>) -> Option<BadLine>
    ensures line { option_map bad_line_view result ≡ bad_form_in (statement_view statement.now) }
    ensures word { IfSome result (λ bad. bad.word ≡ word_of bad.kind) }
{
    let words = statement.words.as_slice();
    match read_operation(words) {
        Ok(_) => None,
        Err(kind) => Some(BadLine {
            line: statement.line,
            kind,
            word: word_of(kind),
            expected: expected(kind, words),
        }),
    }
}

// The place of the word that is wrong.
fn word_of(kind: BadForm) -> usize
    ensures { result ≡ word_of kind }
{
    match kind {
        BadForm::UnknownWord | BadForm::WordCount => 0,
        BadForm::BadFlag => 1,
    }
}

// What is expected of a line of these words.
fn expected(kind: BadForm, words: &[&str]) -> &'static str {
    match (kind, words) {
        (BadForm::WordCount, [verb, ..]) => expected_form(verb),
        (BadForm::BadFlag, _) => "letters of abcC after -, and not both a and b",
        _ => "bind, mount, cd, unmount, clear, . or import",
    }
}

// The words of an operation.
fn expected_form(verb: &str) -> &'static str {
    match verb {
        "bind" => "bind [-abcC] NEW OLD",
        "mount" => "mount [-abcC] SERVER OLD [SPEC]",
        "cd" => "cd DIR",
        "unmount" => "unmount [NEW] OLD",
        "clear" => "clear",
        _ => ". PATH",
    }
}
