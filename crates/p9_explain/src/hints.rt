//! Hints: what is allowed and may not be meant.

use crate::source::Source;
use crate::strangers::push_strangers;
use crate::teller::Teller;
use p9_base::{NoMemory, NodeRef, Statement, User};
use p9_cert::{Certificate, may_pass};
use p9_nsline::OpFault;
use p9_prepared::Section;
use p9_shown::AsShown;
use p9_space::{MountTable, ROOT_PLACE, Who};
use p9_tree::Tree;
use p9_world::{LineWords, World};
use std::alloc::Allocator;

/// Adds the hints on an input to a text, each with its line. `reports` are the operations of its
/// namespace file that failed.
pub(crate) fn push_hints<T: Tree>(
    text: &mut String<T::Alloc>,
    teller: &Teller<'_, '_, T>,
    table: &MountTable<T::Alloc>,
    reports: &[(u64, OpFault)],
) -> Result<(), NoMemory> {
    let statements = teller.source.statements(*text.allocator(), Section::World)?;
    let pushed = push_world_hints(text, teller, table, statements.as_slice());
    drop(statements);
    pushed?;
    push_failed_operations(text, teller.source, reports)
}

// Adds the hints on the statements of a world.
fn push_world_hints<T: Tree>(
    text: &mut String<T::Alloc>,
    teller: &Teller<'_, '_, T>,
    table: &MountTable<T::Alloc>,
    statements: &[Statement<'_, T::Alloc>],
) -> Result<(), NoMemory> {
    push_strangers(text, teller, statements)?;
    push_odd_names(text, teller.source, statements)?;
    push_carriage_returns(text, teller.source)?;
    push_idle_users(text, teller, table, statements)
}

/// Adds a hint on a line of a section: a name, which may be empty, and what is said of it.
pub(crate) fn push_hint<A: Allocator + Copy>(
    text: &mut String<A>,
    source: &Source<'_, A>,
    (section, line): (Section, u64),
    name: &str,
    what: &str,
) -> Result<(), NoMemory> {
    text.push_str("hint: ")?;
    source.push_line(text, section, line)?;
    writeln!(text, ": {}{what}", AsShown(name))?;
    Ok(())
}

// The lines of a world with a name that begins with `#` or `%`.
fn push_odd_names<A: Allocator + Copy>(
    text: &mut String<A>,
    source: &Source<'_, A>,
    statements: &[Statement<'_, A>],
) -> Result<(), NoMemory> {
    for statement in statements {
        if has_odd_name(statement.words.as_slice()) {
            let at = (Section::World, statement.line);
            push_hint(text, source, at, "", "a name begins with # or %")?;
        }
    }
    Ok(())
}

// Whether one of the words, or a name in a path, begins with `#` or `%`.
fn has_odd_name(words: &[&str]) -> bool {
    words.iter().any(|word| word.starts_with(['#', '%'])
        || word.contains("/#")
        || word.contains("/%"))
}

// The lines that end with a carriage return.
fn push_carriage_returns<A: Allocator + Copy>(
    text: &mut String<A>,
    source: &Source<'_, A>,
) -> Result<(), NoMemory> {
    for line in source.lines.as_slice() {
        if let (Some(section), true) = (line.section, line.text.ends_with('\r')) {
            let at = (section, source.number_in_section(section, line.number));
            push_hint(text, source, at, "", "a carriage return ends it")?;
        }
    }
    Ok(())
}

// What is said of a listed user who can't pass the root of the name space.
const IDLE: &str = " can't pass the root, and so reaches nothing below it";

// Adds the listed users who can't pass the root of the name space.
fn push_idle_users<T: Tree>(
    text: &mut String<T::Alloc>,
    teller: &Teller<'_, '_, T>,
    table: &MountTable<T::Alloc>,
    statements: &[Statement<'_, T::Alloc>],
) -> Result<(), NoMemory> {
    for statement in statements {
        let Some(user) = user_in(statement.words.as_slice()) else {
            continue;
        };
        if !passes_root(teller.world, table, &user) {
            let at = (Section::World, statement.line);
            push_hint(text, teller.source, at, user.as_str(), IDLE)?;
        }
    }
    Ok(())
}

// The user whom a line lists.
fn user_in(words: &[&str]) -> Option<User> {
    match LineWords::read(words) {
        Ok(LineWords::User(name)) => User::new(name),
        _ => None,
    }
}

// Whether the user may search a member of the root of the name space, or rules it.
fn passes_root<T: Tree>(world: &World<T>, table: &MountTable<T::Alloc>, user: &User) -> bool {
    for member in table.members(ROOT_PLACE).as_slice() {
        if passes(world, user, member.node) {
            return true;
        }
    }
    false
}

// Whether the user may search the node, or rules it.
fn passes<T: Tree>(world: &World<T>, user: &User, at: NodeRef) -> bool {
    let groups = &world.groups;
    match world.forest.node(at) {
        Some(node) => may_pass(Who { user, groups }, node),
        None => false,
    }
}

// The operations of the namespace file that failed.
fn push_failed_operations<A: Allocator + Copy>(
    text: &mut String<A>,
    source: &Source<'_, A>,
    reports: &[(u64, OpFault)],
) -> Result<(), NoMemory> {
    for (line, fault) in reports {
        let at = (Section::Ns, *line);
        push_hint(
            text,
            source,
            at,
            "this failed, and did nothing: ",
            fault.text(),
        )?;
    }
    Ok(())
}

/// Adds to a text the hints on the rows of a certificate that are not in the least one.
pub(crate) fn push_unneeded_rows<A: Allocator + Copy>(
    text: &mut String<A>,
    source: &Source<'_, A>,
    certificate: &Certificate<A>,
    least: &Certificate<A>,
) -> Result<(), NoMemory> {
    let statements = source.statements(*text.allocator(), Section::Cert)?;
    let pushed = push_unneeded(
        text,
        source,
        statements.as_slice(),
        certificate.rows(),
        least,
    );
    drop(statements);
    pushed
}

// Adds the hints on the rows that are not in the least certificate. The statements are that of its
// head and then one for each row.
fn push_unneeded<A: Allocator + Copy>(
    text: &mut String<A>,
    source: &Source<'_, A>,
    statements: &[Statement<'_, A>],
    rows: &[NodeRef],
    least: &Certificate<A>,
) -> Result<(), NoMemory> {
    let mut statements = statements.iter().skip(1);
    for row in rows {
        let Some(statement) = statements.next() else {
            return Ok(());
        };
        if !least.contains(*row) {
            let at = (Section::Cert, statement.line);
            push_hint(text, source, at, "", "no walk needs this row")?;
        }
    }
    Ok(())
}
