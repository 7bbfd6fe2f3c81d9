//! The export that is served.

use crate::PROGRAM;
use crate::counting::nodes_of;
use crate::keeping::keep_in;
use crate::kept_tree::KeptTree;
use crate::words::Asked;
use p9_base::{NoMemory, NodeRef, User};
use p9_explain::explain;
use p9_folder::{Folder, belongs_to};
use p9_guard::Guard;
use p9_play::guard_of;
use p9_prepared::{Needs, Prepared, is_blank_input, path_of, prepare, print_reports};
use p9_shell::{Failure, tell};
use p9_shown::AsShown;
use p9_tree::Tree;
use p9_world::World;
use std::alloc::Global;
use std::fs;

/// What is served: the guard over an export, and what is known of that.
#[derive(Drop)]
pub(crate) struct Export<T: Tree> {
    pub guard: Guard<T>,
    pub about: About,
    /// The folder in which changes are kept, if they are kept.
    pub folder: Option<Folder>,
}

/// What is known of an export.
#[derive(Drop)]
pub(crate) struct About {
    pub users: Vec<User>,
    /// What failed in its namespace file, a line each.
    pub reports: Vec<u8>,
    /// A line that says what is served.
    pub text: String,
}

// Where the changes of an input are kept.
#[derive(Clone, Copy)]
enum Place<'a> {
    // In memory alone.
    Memory,
    // In a folder that belongs to the input. Its certificate was verified when that was given to it.
    Own(&'a str),
    // In a folder that is to be given to the input.
    New(&'a str),
}

/// Reads the export of a file, and verifies its certificate. Where changes were kept, its trees are those
/// that were kept, and a certificate over these is verified. Where it can't be served, that is reported.
pub(crate) fn read_export<T: KeptTree>(
    rt: &HostRuntime,
    asked: Asked<'_>,
) -> Result<Export<T>, Failure> {
    let input = PROGRAM.had(rt, asked.export, fs::read(rt, asked.export))?;
    match export_of(rt, input.as_slice(), asked)? {
        Some(export) => Ok(export),
        None => Err(say_why::<T>(rt, asked.export, input.as_slice())),
    }
}

// The export of an input, unless the input has a fault or no certificate without a gap.
fn export_of<T: KeptTree>(
    rt: &HostRuntime,
    input: &[u8],
    asked: Asked<'_>,
) -> Result<Option<Export<T>>, Failure> {
    match prepare::<T>(rt.alloc(), input, Needs::Certificate) {
        Ok(prepared) => guarded(rt, input, prepared, asked),
        Err(_) => Ok(None),
    }
}

// The export of an input that is prepared, where its certificate has no gap. In a folder another
// certificate takes its place. So it is verified before a folder is given to the input, and not again.
fn guarded<T: KeptTree>(
    rt: &HostRuntime,
    input: &[u8],
    prepared: Prepared<T>,
    asked: Asked<'_>,
) -> Result<Option<Export<T>>, Failure> {
    let place = place_of(rt, input, asked.folder);
    if matches!(place, Place::New(_)) && prepared.gap().is_some() {
        prepared.discard();
        return Ok(None);
    }
    let mut prepared = prepared;
    match made_ready(rt, input, &mut prepared, asked, place) {
        Ok((about, folder)) => Ok(with_guard(prepared, about, folder)),
        Err(failure) => {
            prepared.discard();
            Err(failure)
        }
    }
}

// Where the changes of an input are kept that are kept in this folder, or in none.
fn place_of<'a>(rt: &HostRuntime, input: &[u8], folder: Option<&'a str>) -> Place<'a> {
    match folder {
        Some(path) if belongs_to(rt, path, input) => Place::Own(path),
        Some(path) => Place::New(path),
        None => Place::Memory,
    }
}

// What is known of an input that is prepared, once it has the trees that are kept.
fn made_ready<T: KeptTree>(
    rt: &HostRuntime,
    input: &[u8],
    prepared: &mut Prepared<T>,
    asked: Asked<'_>,
    place: Place<'_>,
) -> Result<(About, Option<Folder>), Failure> {
    let folder = taken(rt, input, asked.export, place)?;
    if let Some(folder) = &folder {
        keep_in(rt, folder, prepared)?;
    }
    let about = known(rt, prepared, asked.is_anyway)?;
    Ok((about, folder))
}

// Takes the folder in which changes are kept, if they are kept in one. It belongs to this input, which is
// in a file, from then on.
fn taken(
    rt: &HostRuntime,
    input: &[u8],
    file: &str,
    place: Place<'_>,
) -> Result<Option<Folder>, Failure> {
    match place {
        Place::Memory => Ok(None),
        Place::Own(path) => Ok(Some(Folder::take(rt, PROGRAM, path)?)),
        Place::New(path) => {
            let folder = Folder::take(rt, PROGRAM, path)?;
            folder.belong_to(rt, file, input)?;
            Ok(Some(folder))
        }
    }
}

// The guard of an input that is prepared, with what is known of it.
fn with_guard<T: KeptTree>(
    prepared: Prepared<T>,
    about: About,
    folder: Option<Folder>,
) -> Option<Export<T>> {
    match guard_of(prepared) {
        Ok(guard) => Some(Export {
            guard,
            about,
            folder,
        }),
        Err(_) => None,
    }
}

// Says why an export can't be served, as `p9_admin explain` does. For a blank file that would be of the sample
// world of p9.
fn say_why<T: KeptTree>(rt: &HostRuntime, file: &str, input: &[u8]) -> Failure {
    if is_blank_input(input) {
        return PROGRAM.refuse(rt, file, &"the file is empty", Failure::Refused);
    }
    match explained::<T>(rt, file, input) {
        Ok(()) => PROGRAM.refuse(rt, file, &"not served", Failure::Refused),
        Err(failure) => failure,
    }
}

// Says what is wrong with an export.
fn explained<T: KeptTree>(rt: &HostRuntime, file: &str, input: &[u8]) -> Result<(), Failure> {
    let mut text = Vec::new(rt.alloc());
    let _ = explain::<T>(file, input, &mut text)?;
    Ok(tell(rt, text.as_slice())?)
}

// What is known of an input that is prepared. One that hides nothing is refused, unless it is to be
// served anyway.
fn known<T: KeptTree>(
    rt: &HostRuntime,
    prepared: &Prepared<T>,
    is_anyway: bool,
) -> Result<About, Failure> {
    let world = &prepared.space.world;
    if world.hidden.is_empty() && !is_anyway {
        eprintln!(rt; "p9d: the export hides nothing; --anyway serves it")?;
        return Err(Failure::Refused);
    }
    let mut about = About {
        users: Vec::new(rt.alloc()),
        reports: Vec::new(rt.alloc()),
        text: String::new(rt.alloc()),
    };
    match about.fill(prepared) {
        Ok(()) => Ok(about),
        Err(error) => Err(Failure::from(error)),
    }
}

impl About {
    // Adds what is known of an input that is prepared.
    fn fill<T: KeptTree>(&mut self, prepared: &Prepared<T>) -> Result<(), NoMemory> {
        let space = &prepared.space;
        self.users.extend_from_slice(space.world.users.as_slice())?;
        print_reports(space.reports.as_slice(), &mut self.reports)?;
        push_about(&space.world, &mut self.text)
    }
}

// Adds a line that says what is served: how many trees, files and users there are, and what is hidden.
fn push_about<T: KeptTree>(world: &World<T>, text: &mut String) -> Result<(), NoMemory> {
    write!(
        text,
        "p9d: trees: {}, files and directories: {}, users: {}, ",
        world.servers.len(),
        nodes_of(&world.forest),
        world.users.len()
    )?;
    if world.hidden.is_empty() {
        return Ok(text.push_str("nothing is hidden\n")?);
    }
    push_hidden(world, text)
}

// Adds what is hidden.
fn push_hidden<T: KeptTree>(world: &World<T>, text: &mut String) -> Result<(), NoMemory> {
    let mut before = "hidden: ";
    for dir in world.hidden.as_slice() {
        push_dir(world, *dir, before, text)?;
        before = ", ";
    }
    Ok(text.push('\n')?)
}

// Adds the path of a directory after a text.
fn push_dir<T: KeptTree>(
    world: &World<T>,
    dir: NodeRef,
    before: &str,
    text: &mut String,
) -> Result<(), NoMemory> {
    let path = path_of(*text.allocator(), world, dir)?;
    Ok(write!(text, "{before}{}", AsShown(path.as_str()))?)
}
