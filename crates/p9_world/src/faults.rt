//! All bad lines of a world's text.

ghost use Rattle.std.specs.Prelude.{◌≡◌, IfOk, option_map, slice_get};
ghost use Rattle.std.specs.Result.{result_err};
ghost use Rattle.p9_base.specs.Statement.{statement_view};
ghost use Rattle.p9_world.specs.Faults.{IsReadOn, fault_view};
ghost use Rattle.p9_world.specs.Read.{read_statement, world_of};
ghost use Rattle.p9_world.specs.World.{empty_world};

use crate::blame::blamed;
use crate::error::{LineFault, Stop};
use crate::guess::go_on;
use crate::read::read_line;
use crate::reader::Reader;
use p9_base::{NoMemory, Statement, statements};
use p9_tree::Tree;
use std::alloc::Allocator;

/// A bad line of a world's text: what is wrong there, with which word, and what is expected.
#[derive(Clone, Copy, Debug, PartialEq, Eq)]
pub struct BadLine {
    /// Its number, from 1. The number 0 stands for the whole text.
    pub line: u64,
    pub kind: LineFault,
    /// The place of the word that is wrong, among those of the line, from 0.
    pub word: usize,
    /// What is expected in its place, in words.
    pub expected: &'static str,
}

/// All bad lines of a world's text, in order. The first is the one for which
/// [`read_world`](crate::read_world) refuses the text, and there is none where it reads the text.
///
/// Behind a bad line the text is read as if it were good, as far as that can be guessed: a server
/// joins all the same, and so does a directory of a bad mode, owner or group. Any other bad line is
/// passed over. A text without a server is bad at line 0.
///
/// The only error is a failed allocation.
pub fn bad_lines<T: Tree>(alloc: T::Alloc, text: &str) -> Result<Vec<BadLine, T::Alloc>, NoMemory>
    ensures { IfOk result (λ found.
        option_map fault_view (slice_get found.items 0) ≡ result_err (world_of text.now)) }
{
    let mut world: Reader<T> = Reader::new(alloc);
    bad_lines_from(alloc, &mut world, text)
}

// The bad lines of a text, which is read into the world of no lines.
fn bad_lines_from<T: Tree>(
    alloc: T::Alloc,
    world: &mut Reader<T>,
    text: &str,
) -> Result<Vec<BadLine, T::Alloc>, NoMemory>
    requires { world.old ≡ empty_world }
    ensures { IfOk result (λ found.
        option_map fault_view (slice_get found.items 0) ≡ result_err (world_of text.now)) }
{
    let mut found = Vec::new(alloc);
    for statement in &statements(alloc, text)? {
        if let Some(bad) = read_on(alloc, world, statement)? {
            found.push(bad)?;
        }
    }
    if world.servers.is_empty() {
        found.push(no_server())?;
    }
    Ok(found)
}

// Makes the change of a statement. Where it is bad, that is returned, and the world is one in which
// the lines behind it are read.
fn read_on<T: Tree, A: Allocator>(
    alloc: T::Alloc,
    world: &mut Reader<T>,
    statement: &Statement<'_, A>,
) -> Result<Option<BadLine>, NoMemory>
    ensures { IfOk result (λ bad.
        IsReadOn (read_statement world.old (statement_view statement.now)) world.new bad) }
{
    let words = statement.words.as_slice();
    match read_line(alloc, world, words) {
        Ok(()) => Ok(None),
        Err(Stop::Refused(kind)) => {
            let blame = blamed(alloc, world, kind, words)?;
            go_on(alloc, world, kind, statement.line, words)?;
            Ok(Some(BadLine {
                line: statement.line,
                kind,
                word: blame.word,
                expected: blame.expected,
            }))
        }
        Err(Stop::NoMemory) => Err(NoMemory),
    }
}

// That a text has no server.
fn no_server() -> BadLine
    ensures line { result.line ≡ 0 }
    ensures kind { result.kind ≡ LineFault.NoServer }
{
    BadLine {
        line: 0,
        kind: LineFault::NoServer,
        word: 0,
        expected: "a line 'server NAME'",
    }
}
