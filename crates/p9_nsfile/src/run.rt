//! The running of namespace files, as namespace(6).

ghost use Rattle.std.specs.Prelude.{◌≡◌, IfErr, IfOk, Ok, OnErr, OnOk, map};
ghost use Rattle.p9_nsline.specs.Answer.{Acts};
ghost use Rattle.p9_nsline.specs.Environment.{environment_view};
ghost use Rattle.p9_nsline.specs.Line.{IsNsFault, line_view};
ghost use Rattle.p9_nsline.specs.Operation.{operation_view};
ghost use Rattle.p9_nsfile.specs.Given.{KeepsGiven};
ghost use Rattle.p9_nsfile.specs.Run.{acted, included, line_done, lines_done, run_of};

use p9_base::NoMemory;
use p9_nsline::bind::{bind, mount, unmount};
use p9_nsline::{
    Environment, Line, NsError, OpFault, Operation, Space, Stop, cd, find_lines, read_lines,
};
use p9_space::MountTable;
use p9_tree::{Forest, Tree};

/// How deep included files may be nested. The text itself doesn't count.
pub const NESTED_MAX: u8 = 8;

/// Runs a namespace file: the mount table is what its lines make of it, one after another. The
/// result is what operations failed, in order: the line's number, counted from 1, and the fault.
/// An operation that fails does nothing, and the next one goes on. What fails in an included file is
/// reported with the number of the text's own line that includes it. A table that names only nodes
/// that were made stays one.
///
/// `vars` are the variables, each a name and its value, and `servers` the names of the servers by
/// their numbers. The first of a name counts; one that has no tree is a server without nodes.
///
/// Each line is read before the first acts. The first of bad form is [`NsError::BadLine`]; the
/// other error is a failed allocation, [`NsError::NoMemory`]. The table is unchanged after both.
pub fn run_file<T: Tree>(
    alloc: T::Alloc,
    text: &str,
    vars: &[(String<T::Alloc>, String<T::Alloc>)],
    servers: &[String<T::Alloc>],
    forest: &Forest<T>,
    table: &mut MountTable<T::Alloc>,
) -> Result<Vec<(u64, OpFault), T::Alloc>, NsError>
    ensures ok { IfOk result (λ reports. run_of (environment_view forest.now vars.now servers.now)
        text.now table.old ≡ Ok (table.new, reports.items)) }
    ensures err { IfErr result (IsNsFault
        (run_of (environment_view forest.now vars.now servers.now) text.now table.old)) }
    ensures unchanged { OnErr result (table.new ≡ table.old) }
    ensures given { OnOk result (KeepsGiven (environment_view forest.now
        vars.now servers.now) table.old table.new) }
{
    forest.well_formed();
    let lines = read_lines(alloc, text)?;
    let environment = Environment::new(alloc, forest, vars, servers);
    let mut space = Space::begin(alloc, table)?;
    run_lines(&environment, NESTED_MAX, None, &lines, &mut space)?;
    let (made, reports) = space.into_parts();
    *table = made;
    Ok(reports)
}

// Runs lines one after another. `left` is how many files may still be nested, and `outer` the line
// of the text by which a file is included. After a failed allocation the name space is unfinished.
#[cycle(run)]
fn run_lines<T: Tree>(
    environment: &Environment<'_, T>,
    left: u8,
    outer: Option<u64>,
    lines: &[Line<'_>],
    space: &mut Space<T::Alloc>,
) -> Result<(), NoMemory>
    ensures { OnOk result (space.new ≡ lines_done environment.now left outer space.old
        (map line_view lines.now)) }
{
    for line in lines {
        run_line(environment, left, outer, line, space)?;
    }
    Ok(())
}

// Runs a line. A fault is reported with it, or with the outermost line.
#[cycle(run)]
fn run_line<T: Tree>(
    environment: &Environment<'_, T>,
    left: u8,
    outer: Option<u64>,
    line: &Line<'_>,
    space: &mut Space<T::Alloc>,
) -> Result<(), NoMemory>
    ensures { OnOk result (space.new ≡ line_done environment.now
        (included environment.now left) outer space.old (line_view line.now)) }
{
    let number = outer.unwrap_or(line.number);
    match act(environment, left, number, line.operation, space) {
        Ok(()) => Ok(()),
        Err(Stop::Refused(fault)) => space.report(number, fault),
        Err(Stop::NoMemory) => Err(NoMemory),
    }
}

// What an operation does.
#[cycle(run)]
fn act<T: Tree>(
    environment: &Environment<'_, T>,
    left: u8,
    line: u64,
    operation: Operation<&str>,
    space: &mut Space<T::Alloc>,
) -> Result<(), Stop>
    ensures { Acts (acted environment.now (included environment.now left line) space.old
        (operation_view operation.entry)) space.old space.new result }
{
    match operation {
        Operation::Mount {
            flags,
            server,
            old,
            spec,
        } => mount(environment, space, flags, server, old, spec),
        Operation::Bind { flags, new, old } => bind(environment, space, flags, new, old),
        Operation::Cd { dir } => cd(environment, space, dir),
        Operation::Unmount { new, old } => unmount(environment, space, new, old),
        Operation::Clear => {
            space.clear();
            Ok(())
        }
        Operation::Include { path } => include(environment, left, line, path, space),
        Operation::Import => Err(Stop::Refused(OpFault::NotOffered)),
    }
}

// Runs the lines of a file, for the line that is reported.
#[cycle(run)]
fn include<T: Tree>(
    environment: &Environment<'_, T>,
    left: u8,
    line: u64,
    path: &str,
    space: &mut Space<T::Alloc>,
) -> Result<(), Stop>
    ensures { Acts (included environment.now left line space.old path.now) space.old space.new result }
{
    if left == 0 {
        return Err(Stop::Refused(OpFault::TooDeep));
    }
    let lines = find_lines(environment, space, path)?;
    run_lines(environment, left - 1, Some(line), &lines, space)?;
    Ok(())
}
