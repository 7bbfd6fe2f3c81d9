//! The world of a text.

ghost use Rattle.std.specs.Prelude.{◌≡◌, IfErr, IfOk, Ok, map};
ghost use Rattle.p9_base.specs.Statement.{statement_view};
ghost use Rattle.p9_world.specs.Meaning.{Makes};
ghost use Rattle.p9_world.specs.LineWords.{meant};
ghost use Rattle.p9_world.specs.Read.{Steps, Tells, line_meaning, read_statement, world_of};

use crate::entry::{add_dir, add_file};
use crate::error::{LineFault, Stop, WorldError};
use crate::group::add_group;
use crate::hide::hide;
use crate::line_words::LineWords;
use crate::reader::Reader;
use crate::server::add_server;
use crate::user::add_user;
use crate::variable::set_variable;
use crate::world::World;
use p9_base::{Statement, statements};
use p9_tree::Tree;
use std::alloc::Allocator;

/// The world that the lines of a text make, one after another.
///
/// A line is one of `server NAME`, `dir PATH MODE UID GID`, `file PATH MODE UID GID HEX`,
/// `user NAME`, `group NAME LEADER [MEMBER ...]`, `hide SERVER PATH` and `set NAME VALUE`; blank
/// lines and comments are passed over. `server` makes a tree of a root alone, and `dir` and `file`
/// add to the last server above them; `dir /` changes its root.
///
/// The first bad line, and the first fault of [`LineFault`] that it has, is
/// [`WorldError::BadWorld`]. A text without bad lines and without a server is that too, with the
/// line 0 and [`LineFault::NoServer`]. A failed allocation is [`WorldError::NoMemory`].
pub fn read_world<T: Tree>(alloc: T::Alloc, text: &str) -> Result<World<T>, WorldError>
    ensures ok { IfOk result (λ world. world_of text.now ≡ Ok world) }
    ensures err { IfErr result (λ error. Tells error (world_of text.now)) }
{
    let mut world = Reader::new(alloc);
    for statement in &statements(alloc, text)? {
        read_statement(alloc, &mut world, statement)?;
    }
    if world.servers.is_empty() {
        return Err(WorldError::BadWorld {
            line: 0,
            kind: LineFault::NoServer,
        });
    }
    Ok(world.into_world())
}

// Makes the change of one statement.
fn read_statement<T: Tree, A: Allocator>(
    alloc: T::Alloc,
    world: &mut Reader<T>,
    statement: &Statement<'_, A>,
) -> Result<(), WorldError>
    ensures { Steps (read_statement world.old (statement_view statement.now)) world.new result }
{
    match read_line(alloc, world, statement.words.as_slice()) {
        Ok(()) => Ok(()),
        Err(Stop::Refused(kind)) => Err(WorldError::BadWorld {
            line: statement.line,
            kind,
        }),
        Err(Stop::NoMemory) => Err(WorldError::NoMemory),
    }
}

// Makes the change of a line of these words.
pub(crate) fn read_line<T: Tree>(
    alloc: T::Alloc,
    world: &mut Reader<T>,
    words: &[&str],
) -> Result<(), Stop>
    ensures { Makes (line_meaning (map (λ w. w.now) words.now) world.old) world.old world.new
        result }
{
    match LineWords::read(words) {
        Ok(line) => apply(alloc, world, line),
        Err(fault) => Err(Stop::Refused(fault)),
    }
}

// Makes the change of a line.
fn apply<T: Tree>(
    alloc: T::Alloc,
    world: &mut Reader<T>,
    line: LineWords<'_, '_>,
) -> Result<(), Stop>
    ensures { Makes (meant line.entry world.old) world.old world.new result }
{
    match line {
        LineWords::Server(name) => add_server(alloc, world, name),
        LineWords::Dir(node) => add_dir(alloc, world, node),
        LineWords::File(node, hex) => add_file(alloc, world, node, hex),
        LineWords::User(name) => add_user(world, name),
        LineWords::Group(name, leader, members) => add_group(alloc, world, name, leader, members),
        LineWords::Hide(server, path) => hide(alloc, world, server, path),
        LineWords::Set(name, value) => set_variable(alloc, world, name, value),
    }
}
