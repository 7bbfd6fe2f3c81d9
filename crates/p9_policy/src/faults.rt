//! All bad lines of the text of a certificate.

ghost use Rattle.std.specs.Prelude.{◌≡◌, ◌++◌, IfOk, OnOk, map, option_map, slice_get};
ghost use Rattle.std.specs.Result.{result_err};
ghost use Rattle.p9_base.specs.Statement.{statement_view};
ghost use Rattle.p9_policy.specs.Faults.{bad_head_in, bad_head_word, bad_lines_among, bad_lines_in};
ghost use Rattle.p9_policy.specs.Faults.{bad_row_in, bad_row_word, bad_rows_in, bad_word, is_behind};
ghost use Rattle.p9_policy.specs.Faults.{low_word, no_rows, rows_with};
ghost use Rattle.p9_policy.specs.Text.{certificate_of};

use crate::read::{is_head, row_in};
use crate::rows::is_below;
use p9_base::{NoMemory, NodeRef, SERVERS_MAX, Statement, number, statements};
use p9_tree::NEXT_MAX;
use std::alloc::Allocator;

/// What is wrong with a line of a certificate.
#[derive(Clone, Copy, Debug, PartialEq, Eq)]
pub enum LineFault {
    /// The first line is to be `cert 1`.
    First,
    /// Each other line is to be `dir SERVER NUMBER`, greater than the row before it.
    Row,
}

impl LineFault {
    /// What is expected of the line.
    pub fn expected(self) -> &'static str {
        match self {
            LineFault::First => "'cert 1' is to be the first",
            LineFault::Row => "'dir SERVER NUMBER', rising",
        }
    }
}

/// A bad line of a certificate.
#[derive(Clone, Copy, Debug, PartialEq, Eq)]
pub struct BadLine {
    /// Its number in its text, from 1 on.
    pub line: u64,
    /// What is wrong with it.
    pub kind: LineFault,
    /// The place of the word that is wrong, among those of the line, from 0. Where a word is missing,
    /// that is the place behind the last one.
    pub word: usize,
}

// The last row that is read, and the one before it.
#[derive(Clone, Copy)]
struct LastRows {
    last: Option<NodeRef>,
    before: Option<NodeRef>,
}

/// All bad lines of the text of a certificate, in order. The first of them is the one for which
/// [`read_cert`](crate::read_cert) refuses the text.
///
/// A text that says nothing has the bad line 1. A first line that is not `cert 1` is read as if it
/// were. A line that says no row is not read. A row that is not greater than the row before it is
/// bad too. Where it is less than that, and greater than the row before that one, it is read in the
/// place of the row before it; otherwise it is not read. The only error is a failed allocation.
pub fn bad_lines<A: Allocator + Copy>(alloc: A, text: &str) -> Result<Vec<BadLine, A>, NoMemory>
    ensures all { IfOk result (λ found. found.items ≡ bad_lines_in text.now) }
    ensures first { IfOk result (λ found.
        option_map (λ bad. bad.line) (slice_get found.items 0)
        ≡ result_err (certificate_of text.now)) }
{
    let statements = statements(alloc, text)?;
    let mut found = Vec::new(alloc);
    push_bad_lines(&mut found, statements.as_slice())?;
    Ok(found)
}

// Adds the bad lines among all statements of a text.
fn push_bad_lines<A: Allocator, B: Allocator>(
    found: &mut Vec<BadLine, A>,
    statements: &[Statement<'_, B>],
) -> Result<(), NoMemory>
    ensures { OnOk result
        (found.new.items ≡ found.old.items ++ bad_lines_among (map statement_view statements.now)) }
{
    let Some((head, others)) = statements.split_first() else {
        found.push(BadLine {
            line: 1,
            kind: LineFault::First,
            word: 0,
        })?;
        return Ok(());
    };
    push_bad_head(found, head)?;
    push_bad_rows(found, others)
}

// Adds the first line, if it is not `cert 1`.
fn push_bad_head<A: Allocator, B: Allocator>(
    found: &mut Vec<BadLine, A>,
    head: &Statement<'_, B>,
) -> Result<(), NoMemory>
    ensures { OnOk result
        (found.new.items ≡ found.old.items ++ bad_head_in (statement_view head.now)) }
{
    let words = head.words.as_slice();
    if !is_head(words) {
        found.push(BadLine {
            line: head.line,
            kind: LineFault::First,
            word: bad_head_word(words),
        })?;
    }
    Ok(())
}

// Adds the bad rows among the statements behind the first.
fn push_bad_rows<A: Allocator, B: Allocator>(
    found: &mut Vec<BadLine, A>,
    statements: &[Statement<'_, B>],
) -> Result<(), NoMemory>
    ensures { OnOk result (found.new.items
        ≡ found.old.items ++ bad_rows_in no_rows (map statement_view statements.now)) }
{
    let mut rows = LastRows {
        last: None,
        before: None,
    };
    for statement in statements {
        let row = row_in(statement.words.as_slice());
        push_bad_row(found, rows, statement, row)?;
        rows = rows.with(row);
    }
    Ok(())
}

// Adds a statement behind these rows, if it says no row, or one that does not rise.
fn push_bad_row<A: Allocator, B: Allocator>(
    found: &mut Vec<BadLine, A>,
    rows: LastRows,
    statement: &Statement<'_, B>,
    row: Option<NodeRef>,
) -> Result<(), NoMemory>
    ensures { OnOk result (found.new.items
        ≡ found.old.items ++ bad_row_in rows (statement_view statement.now) row) }
{
    if !row.is_some_and(|row| is_behind(rows.last, row)) {
        found.push(BadLine {
            line: statement.line,
            kind: LineFault::Row,
            word: bad_word(rows, statement.words.as_slice(), row),
        })?;
    }
    Ok(())
}

// Which word is wrong of a line that says no row, or one that does not rise.
fn bad_word(rows: LastRows, words: &[&str], row: Option<NodeRef>) -> usize
    ensures { result ≡ bad_word rows (map (λ word. word.now) words.now) row }
{
    match row {
        Some(row) => low_word(rows, row),
        None => bad_row_word(words),
    }
}

// Which word of `cert 1` is wrong.
fn bad_head_word(words: &[&str]) -> usize
    ensures { result ≡ bad_head_word (map (λ word. word.now) words.now) }
{
    match words {
        [verb, ..] if *verb != "cert" => 0,
        [_, version, ..] if *version != "1" => 1,
        [_, _, ..] => 2,
        [_] => 1,
        [] => 0,
    }
}

// Which word of `dir SERVER NUMBER` is wrong.
fn bad_row_word(words: &[&str]) -> usize
    ensures { result ≡ bad_row_word (map (λ word. word.now) words.now) }
{
    match words {
        [verb, ..] if *verb != "dir" => 0,
        [_, server, ..] if number(server, SERVERS_MAX as u64).is_none() => 1,
        [_, _, node, ..] if number(node, NEXT_MAX).is_none() => 2,
        [_, _, _, ..] => 3,
        [_, _] => 2,
        [_] => 1,
        [] => 0,
    }
}

// Which word is wrong of a row that does not rise behind these.
fn low_word(rows: LastRows, row: NodeRef) -> usize
    ensures { result ≡ low_word rows row }
{
    if rows.last.is_some_and(|last| row.server < last.server) {
        1
    } else {
        2
    }
}

impl LastRows {
    // The last rows with the row that a line says, if it says one.
    fn with(self, row: Option<NodeRef>) -> LastRows
        ensures { result ≡ rows_with self row }
    {
        let Some(row) = row else {
            return self;
        };
        if is_behind(self.last, row) {
            return LastRows {
                last: Some(row),
                before: self.last,
            };
        }
        if self.last.is_some_and(|last| is_below(row, last)) && is_behind(self.before, row) {
            return LastRows {
                last: Some(row),
                before: self.before,
            };
        }
        self
    }
}

// Whether the node is greater than a row, if there is one.
fn is_behind(before: Option<NodeRef>, row: NodeRef) -> bool
    ensures { result ≡ is_behind before row }
{
    before.is_none_or(|before| is_below(before, row))
}
