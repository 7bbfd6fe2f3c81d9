//! What is said of the certificate of an input: whether it is accepted, and its first gap in words.

ghost use Rattle.std.specs.Prelude.{◌≡◌, IfOk, option_copied};
ghost use Rattle.std.specs.String.{string_bytes};
ghost use Rattle.p9_explain.specs.Certificate.{IsCertificateTold, IsGapTold};

use crate::free::{first_line, push_free};
use crate::member::{Found, push_found};
use crate::source::Source;
use crate::teller::{Teller, push};
use p9_base::{NoMemory, NodeRef};
use p9_cert::{Certificate, Gap, MemberFault, RowFault};
use p9_prepared::Section;
use p9_space::ROOT_PLACE;
use p9_tree::Tree;
use p9_world::World;
use std::alloc::Allocator;

/// What is said of the input's own certificate: that there is none, that it is accepted, or this first
/// gap of it, told as a breach is.
pub(crate) fn certificate_words<T: Tree>(
    teller: &Teller<'_, '_, T>,
    alloc: T::Alloc,
    certificate: Option<&Certificate<T::Alloc>>,
    gap: Option<Gap>,
) -> Result<String<T::Alloc>, NoMemory>
    ensures { IfOk result (λ text.
        IsCertificateTold (option_copied certificate.entry) gap (string_bytes text)) }
{
    let Some(certificate) = certificate else {
        return Ok(String::from_str(alloc, "certificate: none\n")?);
    };
    match gap {
        None => Ok(String::from_str(alloc, "certificate: accepted\n")?),
        Some(gap) => gap_words(teller, alloc, certificate.rows(), gap),
    }
}

// What is said of a certificate that has a gap.
fn gap_words<T: Tree>(
    teller: &Teller<'_, '_, T>,
    alloc: T::Alloc,
    rows: &[NodeRef],
    gap: Gap,
) -> Result<String<T::Alloc>, NoMemory>
    ensures { IfOk result (λ text. IsGapTold (string_bytes text)) }
{
    let mut said = String::new(alloc);
    push_gap(&mut said, teller, rows, gap)?;
    let first = first_line(alloc, said.as_str())?;
    let mut text = format!(in alloc; "certificate: not accepted: {first}\n")?;
    push_free(said.as_str(), &mut text)?;
    Ok(text)
}

// Adds a gap in words.
fn push_gap<T: Tree>(
    text: &mut String<T::Alloc>,
    teller: &Teller<'_, '_, T>,
    rows: &[NodeRef],
    gap: Gap,
) -> Result<(), NoMemory> {
    match gap {
        Gap::Table(at) => push_table_gap(text, at),
        Gap::Row { row, kind } => push_row_gap(text, teller, rows, row, kind),
        Gap::Root { member, kind } => {
            let found = found(ROOT_PLACE, member, kind);
            push_unsafe(text, teller, "a walk begins at ", &found)
        }
        Gap::Child {
            row,
            child,
            member,
            kind,
        } => {
            push_row(text, teller, rows, row)?;
            push_unsafe(text, teller, " leads to ", &found(child, member, kind))
        }
    }
}

// Adds that a bind names a node that was never made.
fn push_table_gap<A: Allocator + Copy>(text: &mut String<A>, at: NodeRef) -> Result<(), NoMemory> {
    let (server, number) = (at.server, at.number);
    writeln!(
        text,
        "a bind names node {number} of server {server}, which was never made"
    )?;
    Ok(())
}

// What is found at a place.
fn found(place: NodeRef, member: NodeRef, fault: MemberFault) -> Found {
    Found {
        member,
        place: Some(place),
        fault,
        walker: None,
    }
}

// Adds what is wrong with a row.
fn push_row_gap<T: Tree>(
    text: &mut String<T::Alloc>,
    teller: &Teller<'_, '_, T>,
    rows: &[NodeRef],
    row: u64,
    kind: RowFault,
) -> Result<(), NoMemory> {
    push_row(text, teller, rows, row)?;
    match (kind, row_at(rows, row)) {
        (RowFault::Absent, _) => push(text, " is no directory\n"),
        (RowFault::Inside, Some(at)) => {
            push(text, " is inside ")?;
            teller.inside(text, at)?;
            push(text, "\n")
        }
        _ => push(text, " is a hidden directory\n"),
    }
}

// The row of this number, from 1.
fn row_at(rows: &[NodeRef], row: u64) -> Option<NodeRef> {
    let position = (row as usize).checked_sub(1)?;
    rows.get(position).copied()
}

// Adds that a walk begins at a place, or a row leads to it, and what is wrong with what is found there.
fn push_unsafe<T: Tree>(
    text: &mut String<T::Alloc>,
    teller: &Teller<'_, '_, T>,
    leads: &'static str,
    found: &Found,
) -> Result<(), NoMemory> {
    push(text, leads)?;
    teller.path(text, found.place.unwrap_or(found.member))?;
    push(text, "\n  ")?;
    teller.path(text, found.member)?;
    push(text, " ")?;
    push_found(text, teller, found)
}

// Adds the row of this number, from 1: its path where there is something, and its line.
fn push_row<T: Tree>(
    text: &mut String<T::Alloc>,
    teller: &Teller<'_, '_, T>,
    rows: &[NodeRef],
    row: u64,
) -> Result<(), NoMemory> {
    let line = row_line(*text.allocator(), teller.source, row)?;
    push(text, "row ")?;
    match node_of_row(teller.world, rows, row) {
        Some(at) => {
            teller.path(text, at)?;
            push(text, " (")?;
            teller.source.push_line(text, Section::Cert, line)?;
            push(text, ")")
        }
        None => teller.source.push_line(text, Section::Cert, line),
    }
}

// The node of the row of this number, from 1, where there is something.
fn node_of_row<T: Tree>(world: &World<T>, rows: &[NodeRef], row: u64) -> Option<NodeRef> {
    let at = row_at(rows, row)?;
    world.forest.node(at)?;
    Some(at)
}

// The line of the row of this number, from 1, in its section: that of its statement, after the first.
fn row_line<A: Allocator + Copy>(
    alloc: A,
    source: &Source<'_, A>,
    row: u64,
) -> Result<u64, NoMemory> {
    let statements = source.statements(alloc, Section::Cert)?;
    let line = match statements.as_slice().get(row as usize) {
        Some(statement) => statement.line,
        None => 1,
    };
    drop(statements);
    Ok(line)
}
