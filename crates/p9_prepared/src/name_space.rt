//! The name space of an input: its world, and the mount table that its namespace file makes.

ghost use Rattle.std.specs.Prelude.{◌≡◌, ◌<◌, IfErr, IfOk, Ok, OnOk};
ghost use Rattle.std.specs.Prelude.{length};
ghost use Rattle.std.specs.Option.{option_copied};
ghost use Rattle.p9_nsfile.specs.Given.{KeepsGiven};
ghost use Rattle.p9_nsfile.specs.Run.{run_of};
ghost use Rattle.p9_prepared.specs.NameSpace.{environment_of, or_bad_operation, space_in};
ghost use Rattle.p9_prepared.specs.NameSpace.{space_over, world_in};
ghost use Rattle.p9_prepared.specs.Refusal.{IsStop};

use crate::refusal::{Refusal, Stop};
use crate::small::small_world;
use p9_nsfile::{NsError, OpFault, run_file};
use p9_space::MountTable;
use p9_tree::Tree;
use p9_world::{World, WorldError, read_world};
use std::marker::Model;

/// A world, the mount table that a namespace file made over it, and what failed in its making.
///
/// The mount table names only nodes that were made: each key and member lies below its server's
/// next number. Contracts see the reports as a list.
#[derive(Drop)]
pub struct NameSpace<T: Tree> {
    /// The world, with its hidden directories.
    pub world: World<T>,
    /// The mount table.
    pub table: MountTable<T::Alloc>,
    /// The operations of the namespace file that failed: the line of each in its section, from 1,
    /// and why it did nothing.
    pub reports: Vec<(u64, OpFault), T::Alloc>,
}

impl<T: Tree> Model for NameSpace<T> {
    ghost use Rattle.std.specs.Prelude.{IsTrue};
    ghost use Rattle.p9_space.specs.Given.{is_table_given};
    ghost use Rattle.p9_prepared.specs.NameSpace.{NameSpace as NameSpaceOf};

    ghost Value = { NameSpaceOf };

    ghost view = { λ n. record { world = n.world; table = n.table; reports = n.reports.items } };

    ghost invariant = { λ n. IsTrue (is_table_given n.world.forest n.table) };
}

impl<T: Tree> NameSpace<T> {
    /// Drops it. A caller in another crate that drops it so has no code of its own that drops its
    /// parts, and nothing to prove of them.
    pub fn discard(self) {}

    /// The name space of these sections. Without a world section the world is `small`, and without
    /// a namespace section nothing is mounted.
    ///
    /// The first bad line of the world, then that of the namespace file, is the refusal; a failed
    /// allocation is the other reason.
    pub(crate) fn read(
        alloc: T::Alloc,
        world: Option<&str>,
        ns: Option<&str>,
    ) -> Result<NameSpace<T>, Stop>
        ensures ok { IfOk result (λ space. space_in (option_copied world.entry)
            (option_copied ns.entry) ≡ Ok space) }
        ensures stop { IfErr result (IsStop (space_in (option_copied world.entry)
            (option_copied ns.entry))) }
    {
        let world = world_in(alloc, world)?;
        NameSpace::over(alloc, ns.unwrap_or(""), world)
    }

    // The name space that the lines of a namespace file make over a world.
    fn over(alloc: T::Alloc, text: &str, world: World<T>) -> Result<NameSpace<T>, Stop>
        requires { 0 < length world.servers }
        ensures ok { IfOk result (λ space. space_over text.now world ≡ Ok space) }
        ensures stop { IfErr result (IsStop (space_over text.now world)) }
    {
        world.well_formed();
        let mut table = MountTable::new(alloc);
        match run(alloc, text, &world, &mut table) {
            Ok(reports) => Ok(NameSpace {
                world,
                table,
                reports,
            }),
            Err(stop) => {
                drop(world);
                Err(stop)
            }
        }
    }
}

// The world of a section; where it isn't there the sample world.
fn world_in<T: Tree>(alloc: T::Alloc, text: Option<&str>) -> Result<World<T>, Stop>
    ensures ok { IfOk result (λ world. world_in (option_copied text.entry) ≡ Ok world) }
    ensures some { IfOk result (λ world. 0 < length world.servers) }
    ensures stop { IfErr result (IsStop (world_in (option_copied text.entry))) }
{
    let Some(text) = text else {
        return Ok(small_world(alloc)?);
    };
    match read_world(alloc, text) {
        Ok(world) => Ok(world),
        Err(WorldError::BadWorld { line, kind }) => {
            Err(Stop::Refused(Refusal::BadWorld { line, kind }))
        }
        Err(WorldError::NoMemory) => Err(Stop::NoMemory),
    }
}

// Runs a namespace file over a world, and returns what failed.
fn run<T: Tree>(
    alloc: T::Alloc,
    text: &str,
    world: &World<T>,
    table: &mut MountTable<T::Alloc>,
) -> Result<Vec<(u64, OpFault), T::Alloc>, Stop>
    ensures ok { IfOk result (λ reports.
        run_of (environment_of world.now) text.now table.old ≡ Ok (table.new, reports.items)) }
    ensures stop { IfErr result (IsStop (or_bad_operation (run_of
        (environment_of world.now) text.now table.old))) }
    ensures given { OnOk result (KeepsGiven (environment_of world.now) table.old table.new) }
{
    match run_file(
        alloc,
        text,
        &world.vars,
        &world.servers,
        &world.forest,
        table,
    ) {
        Ok(reports) => Ok(reports),
        Err(NsError::BadLine { line, kind }) => {
            Err(Stop::Refused(Refusal::BadOperation { line, kind }))
        }
        Err(NsError::NoMemory) => Err(Stop::NoMemory),
    }
}
