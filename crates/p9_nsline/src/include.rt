//! The lines of the files that a namespace file includes.

ghost use Rattle.std.specs.Prelude.{Some};
ghost use Rattle.p9_nsline.specs.Answer.{GivesLines};
ghost use Rattle.p9_nsline.specs.Include.{file_lines, included_lines, or_bad_include};
ghost use Rattle.p9_nsline.specs.Line.{lines_in};

use crate::environment::Environment;
use crate::error::NsError;
use crate::fault::{OpFault, Stop};
use crate::find::find_file;
use crate::line::{Line, read_lines};
use crate::space::Space;
use p9_base::Fault;
use p9_tree::{Node, Tree};
use std::alloc::Allocator;
use std::str::from_utf8;

/// The lines of the file that a word names.
///
/// The refusals are those of the path, [`OpFault::BadInclude`] for a directory and for a file that
/// isn't UTF-8 or has a line of bad form, and [`OpFault::Path`] with [`Fault::PhaseError`] for a
/// file that doesn't exist any more.
pub fn find_lines<'a, T: Tree>(
    environment: &Environment<'a, T>,
    space: &Space<T::Alloc>,
    path: &str,
) -> Result<Vec<Line<'a>, T::Alloc>, Stop>
    ensures { GivesLines (included_lines environment.now space.now path.now) result }
{
    let file = find_file(environment, space, path)?;
    match environment.node(file) {
        Some(node) => file_lines(environment.alloc(), node),
        None => Err(Stop::Refused(OpFault::Path(Fault::PhaseError))),
    }
}

// The lines of a file, which has to be text of good form.
fn file_lines<A: Allocator + Copy>(alloc: A, node: &Node<A>) -> Result<Vec<Line<'_>, A>, Stop>
    ensures { GivesLines (file_lines (Some node.now)) result }
{
    if node.is_dir() {
        return Err(Stop::Refused(OpFault::BadInclude));
    }
    match from_utf8(node.bytes()) {
        Ok(text) => text_lines(alloc, text),
        Err(_) => Err(Stop::Refused(OpFault::BadInclude)),
    }
}

fn text_lines<A: Allocator + Copy>(alloc: A, text: &str) -> Result<Vec<Line<'_>, A>, Stop>
    ensures { GivesLines (or_bad_include (lines_in text.now)) result }
{
    match read_lines(alloc, text) {
        Ok(lines) => Ok(lines),
        Err(NsError::BadLine { .. }) => Err(Stop::Refused(OpFault::BadInclude)),
        Err(NsError::NoMemory) => Err(Stop::NoMemory),
    }
}
