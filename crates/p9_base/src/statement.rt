//! What the lines of a text say, in the form of namespace(6).

ghost use Rattle.std.specs.Prelude.{◌≡◌, map, IfOk};
ghost use Rattle.p9_base.specs.Statement.{statements_of, statement_view};

use crate::line::{is_skipped, lines, words};
use std::alloc::{AllocError, Allocator};

/// A line of a text that says something: it has words, and is no comment.
#[derive(Debug, Drop)]
pub struct Statement<'a, A: Allocator> {
    /// The number of the line in its text, from 1 on.
    pub line: u64,
    /// The words of the line, of which there is one at least.
    pub words: Vec<&'a str, A>,
}

/// The statements of a text, in order. Blank lines and comments, whose first word begins with `#`,
/// are passed over and counted. The only error is a failed allocation.
pub fn statements<A: Allocator + Copy>(
    alloc: A,
    text: &str,
) -> Result<Vec<Statement<'_, A>, A>, AllocError>
    ensures { IfOk result (λ found. map statement_view found.items ≡ statements_of text.now) }
{
    let mut statements = Vec::new(alloc);
    for (i, line) in lines(alloc, text)?.iter().enumerate() {
        let words = words(alloc, line)?;
        if !is_skipped(words.as_slice()) {
            let line = i as u64 + 1;
            statements.push(Statement { line, words })?;
        }
    }
    Ok(statements)
}
