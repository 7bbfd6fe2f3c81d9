//! The lines of a namespace file.

ghost use Rattle.std.specs.Prelude.{◌≡◌, Ok, IfOk, IfErr, map};
ghost use Rattle.p9_base.specs.Statement.{statement_view};
ghost use Rattle.p9_nsline.specs.Line.{IsNsFault, line_of, line_view, lines_in};

use crate::error::NsError;
use crate::operation::{Operation, read_operation};
use p9_base::{Statement, statements};
use std::alloc::Allocator;

/// A line that isn't skipped.
#[derive(Clone, Copy)]
pub struct Line<'a> {
    /// Its number in its text, from 1 on.
    pub number: u64,
    /// What its words say.
    pub operation: Operation<&'a str>,
}

/// The lines of a text, in order, blank lines and comments left out. The errors are the first line
/// of bad form, [`NsError::BadLine`], and a failed allocation.
pub fn read_lines<A: Allocator + Copy>(alloc: A, text: &str) -> Result<Vec<Line<'_>, A>, NsError>
    ensures ok { IfOk result (λ found. lines_in text.now ≡ Ok (map line_view found.items)) }
    ensures err { IfErr result (IsNsFault (lines_in text.now)) }
{
    let mut lines = Vec::new(alloc);
    for statement in &statements(alloc, text)? {
        lines.push(read_line(statement)?)?;
    }
    Ok(lines)
}

fn read_line<'a, A: Allocator>(statement: &Statement<'a, A>) -> Result<Line<'a>, NsError>
    ensures ok { IfOk result (λ line. line_of (statement_view statement.now)
        ≡ Ok (line_view line)) }
    ensures err { IfErr result (IsNsFault (line_of (statement_view statement.now))) }
{
    match read_operation(statement.words.as_slice()) {
        Ok(operation) => Ok(Line {
            number: statement.line,
            operation,
        }),
        Err(kind) => Err(NsError::BadLine {
            line: statement.line,
            kind,
        }),
    }
}
