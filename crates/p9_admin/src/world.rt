//! The command `world`: the input of what is kept in a folder, with the trees as they are now.

use crate::PROGRAM;
use crate::present::{Present, read_present, report_stop};
use crate::sink::write_text;
use clap::ArgMatches;
use p9_base::{NoMemory, NodeRef, Stop, lines, words};
use p9_pack::{UnfitNode, is_same_world, unfit_nodes, write_world};
use p9_prepared::{
    Bundle, BundleError, NameSpace, Needs, Part, Section, path_of, prepare, print_line,
    split_bundle,
};
use p9_shell::Failure;
use p9_shell::status::{DONE, REFUSED};
use p9_shown::AsShown;
use p9_space::Member;
use p9_tree::Tree;
use p9_world::{LineWords, Unfit, World};
use std::alloc::Global;

/// Prints what is kept in a folder as an input without a certificate, or writes it into the file of the
/// option `--output`. Returns the exit status.
pub(crate) fn run_world(rt: &HostRuntime, options: &ArgMatches<'_>) -> Result<u8, Failure> {
    let Some(folder) = options.get_str("folder") else {
        return Err(PROGRAM.bad_words(rt));
    };
    let present = read_present(rt, folder)?;
    print_present(rt, options, folder, present)
}

// Prints what is kept in a folder, and returns the exit status.
fn print_present<T: Tree<Alloc = Global>>(
    rt: &HostRuntime,
    options: &ArgMatches<'_>,
    folder: &str,
    present: Present<T>,
) -> Result<u8, Failure> {
    let Present { export, prepared } = present;
    let text = text_in(rt, folder, export.as_slice(), &prepared.space);
    prepared.discard();
    let (text, status) = text?;
    write_text(rt, options.get_str("output"), text.as_slice())?;
    Ok(status)
}

// The text of an input, and the exit status with which it is printed.
fn text_in<T: Tree<Alloc = Global>>(
    rt: &HostRuntime,
    folder: &str,
    export: &[u8],
    space: &NameSpace<T>,
) -> Result<(Vec<u8>, u8), Failure> {
    refuse_unfit(rt, &space.world)?;
    let text = match input_text(rt.alloc(), export, &space.world) {
        Ok(text) => text,
        Err(Stop::Refused(unfit)) => {
            return Err(PROGRAM.refuse(rt, folder, &unfit, Failure::Refused));
        }
        Err(Stop::NoMemory) => return Err(Failure::NoMemory),
    };
    let status = read_back(rt, folder, text.as_slice(), space)?;
    Ok((text, status))
}

// Reports each file or directory that a world's text can't have. Where there is one, nothing is printed.
fn refuse_unfit<T: Tree<Alloc = Global>>(
    rt: &HostRuntime,
    world: &World<T>,
) -> Result<(), Failure> {
    let found = unfit_nodes(rt.alloc(), world)?;
    for node in found.as_slice() {
        report_unfit(rt, world, node)?;
    }
    refuse_some(rt, found.len())
}

// Reports a file or directory that a world's text can't have.
fn report_unfit<T: Tree<Alloc = Global>>(
    rt: &HostRuntime,
    world: &World<T>,
    node: &UnfitNode,
) -> Result<(), Failure> {
    let path = path_of(rt.alloc(), world, node.at)?;
    let why = node.unfit;
    let _ = PROGRAM.refuse(rt, path.as_str(), &why, Failure::Refused);
    Ok(())
}

// Refuses a world of which so many files and directories were reported, unless there are none.
fn refuse_some(rt: &HostRuntime, count: usize) -> Result<(), Failure> {
    if count == 0 {
        return Ok(());
    }
    eprintln!(rt; "p9_admin: {count} can't be in a world, so nothing is printed")?;
    Err(Failure::Refused)
}

// The text of an input: the present world, and the other sections of its export but for the certificate.
fn input_text<T: Tree<Alloc = Global>>(
    alloc: Global,
    export: &[u8],
    world: &World<T>,
) -> Result<Vec<u8>, Stop<Unfit>> {
    let bundle = sections(alloc, export)?;
    let mut text = Vec::new(alloc);
    print_line(Section::World.head(), &mut text)?;
    write_world(alloc, world, &mut text)?;
    if let Some(part) = bundle.world {
        push_variables(alloc, part.text, &mut text)?;
    }
    push_section(Section::Ns, bundle.ns, &mut text)?;
    push_section(Section::Script, bundle.script, &mut text)?;
    Ok(text)
}

// The sections of an export, which is a bundle.
fn sections(alloc: Global, export: &[u8]) -> Result<Bundle<'_>, NoMemory> {
    let text = str::from_utf8(export).unwrap_or("");
    match split_bundle(alloc, text) {
        Ok(bundle) => Ok(bundle),
        Err(BundleError::NoMemory) => Err(NoMemory),
        Err(BundleError::BadBundle { .. }) => Ok(Bundle {
            world: None,
            ns: None,
            cert: None,
            script: None,
        }),
    }
}

// Adds the lines of variables as they are in a world section.
fn push_variables(alloc: Global, section: &str, text: &mut Vec<u8>) -> Result<(), NoMemory> {
    for line in &lines(alloc, section)? {
        push_variable(alloc, line, text)?;
    }
    Ok(())
}

// Adds a line, where it is that of a variable.
fn push_variable(alloc: Global, line: &str, text: &mut Vec<u8>) -> Result<(), NoMemory> {
    let words = words(alloc, line)?;
    if let Ok(LineWords::Set(_, _)) = LineWords::read(words.as_slice()) {
        text.extend_from_slice(line.as_bytes())?;
        text.push(b'\n')?;
    }
    Ok(())
}

// Adds a section, where it is there, with a newline behind its last line too.
fn push_section(
    section: Section,
    part: Option<Part<'_>>,
    text: &mut Vec<u8>,
) -> Result<(), NoMemory> {
    let Some(part) = part else {
        return Ok(());
    };
    print_line(section.head(), text)?;
    text.extend_from_slice(part.text.as_bytes())?;
    if !part.text.is_empty() && !part.text.ends_with('\n') {
        text.push(b'\n')?;
    }
    Ok(())
}

// Reads a text back, and returns the exit status with which it is printed. One that is not read as the same
// world is refused.
fn read_back<T: Tree<Alloc = Global>>(
    rt: &HostRuntime,
    folder: &str,
    text: &[u8],
    space: &NameSpace<T>,
) -> Result<u8, Failure> {
    match prepare::<T>(rt.alloc(), text, Needs::Nothing) {
        Ok(read) => {
            let told = told_of(rt, folder, space, &read.space);
            read.discard();
            told
        }
        Err(error) => Err(report_stop(rt, error.stop)),
    }
}

// Tells what is other in a text that was read back, and returns the exit status.
fn told_of<T: Tree<Alloc = Global>>(
    rt: &HostRuntime,
    folder: &str,
    space: &NameSpace<T>,
    read: &NameSpace<T>,
) -> Result<u8, Failure> {
    if !is_same_world(&space.world, &read.world) {
        let why = "the text is not read as the same world";
        return Err(PROGRAM.refuse(rt, folder, &why, Failure::Refused));
    }
    let mut status = DONE;
    let gone = gone_hidden(&space.world);
    if gone > 0 {
        eprintln!(rt; "note: hidden directories that are not there any more: {gone}")?;
        status = REFUSED;
    }
    if !is_same_table(rt.alloc(), space, read)? {
        eprintln!(rt;
            "note: the namespace section makes another mount table of the present names"
        )?;
        status = REFUSED;
    }
    eprintln!(rt; "note: times and versions are not printed")?;
    Ok(status)
}

// How many hidden directories are not there any more.
fn gone_hidden<T: Tree<Alloc = Global>>(world: &World<T>) -> usize {
    world
        .hidden
        .iter()
        .filter(|dir| world.forest.node(**dir).is_none())
        .count()
}

// Whether the mount tables of two name spaces are the same by the paths of their places.
fn is_same_table<T: Tree<Alloc = Global>>(
    alloc: Global,
    one: &NameSpace<T>,
    other: &NameSpace<T>,
) -> Result<bool, NoMemory> {
    if one.table.len() != other.table.len() {
        return Ok(false);
    }
    for position in 0..one.table.len() {
        if !is_same_row(alloc, one, other, position)? {
            return Ok(false);
        }
    }
    Ok(true)
}

// Whether the rows at a position of the mount tables are the same by the paths of their places.
fn is_same_row<T: Tree<Alloc = Global>>(
    alloc: Global,
    one: &NameSpace<T>,
    other: &NameSpace<T>,
    position: usize,
) -> Result<bool, NoMemory> {
    let (Some((key, members)), Some((other_key, other_members))) = (
        one.table.row(position),
        other.table.row(position),
    ) else {
        return Ok(false);
    };
    if !is_same_path(alloc, one, key, other, other_key)? {
        return Ok(false);
    }
    are_same_members(
        alloc,
        one,
        members.as_slice(),
        other,
        other_members.as_slice(),
    )
}

// Whether the members of two rows are the same by their paths.
fn are_same_members<T: Tree<Alloc = Global>>(
    alloc: Global,
    one: &NameSpace<T>,
    members: &[Member],
    other: &NameSpace<T>,
    others: &[Member],
) -> Result<bool, NoMemory> {
    if members.len() != others.len() {
        return Ok(false);
    }
    for (member, also) in members.iter().zip(others) {
        if member.create != also.create
            || !is_same_path(alloc, one, member.node, other, also.node)?
        {
            return Ok(false);
        }
    }
    Ok(true)
}

// Whether two nodes have the same path.
fn is_same_path<T: Tree<Alloc = Global>>(
    alloc: Global,
    one: &NameSpace<T>,
    at: NodeRef,
    other: &NameSpace<T>,
    other_at: NodeRef,
) -> Result<bool, NoMemory> {
    let path = path_of(alloc, &one.world, at)?;
    let other_path = path_of(alloc, &other.world, other_at)?;
    Ok(path == other_path)
}
