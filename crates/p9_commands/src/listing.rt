//! The mount table, printed as binds.

ghost use Rattle.std.specs.Prelude.{◌≡◌, ◌++◌, IfOk, OnOk};
ghost use Rattle.p9_commands.specs.Judgement.{IsPrinted};
ghost use Rattle.p9_commands.specs.Listing.{bind_line, first_flags, later_flags, members_text};
ghost use Rattle.p9_commands.specs.Listing.{table_text};

use p9_base::{NoMemory, NodeRef};
use p9_prepared::status::DONE;
use p9_prepared::{NameSpace, print_path};
use p9_space::{Member, MountTable};
use p9_tree::Tree;
use p9_world::World;

/// Prints the mount table of a name space, a line for each member of each row. Returns the exit status.
/// Where an allocation fails, a part of it may be printed.
pub(crate) fn list<T: Tree>(
    space: &NameSpace<T>,
    out: &mut Vec<u8, T::Alloc>,
) -> Result<u8, NoMemory>
    ensures { IfOk result (IsPrinted 0 (table_text space.now.world space.now.table) out.old.items
        out.new.items) }
{
    print_table(&space.world, &space.table, out)?;
    Ok(DONE)
}

// Prints a mount table, a line for each member of each row. Where an allocation fails, a part of
// it may be there.
fn print_table<T: Tree>(
    world: &World<T>,
    table: &MountTable<T::Alloc>,
    out: &mut Vec<u8, T::Alloc>,
) -> Result<(), NoMemory>
    ensures { OnOk result (out.new.items ≡ out.old.items ++ table_text world.now table.now) }
{
    for position in 0..table.len() {
        if let Some((key, members)) = table.row(position) {
            print_row(world, key, members.as_slice(), out)?;
        }
    }
    Ok(())
}

// A line for each member of a row.
fn print_row<T: Tree>(
    world: &World<T>,
    key: NodeRef,
    members: &[Member],
    out: &mut Vec<u8, T::Alloc>,
) -> Result<(), NoMemory>
    ensures { OnOk result (out.new.items ≡ out.old.items ++ members_text world.now key
        members.now) }
{
    let Some((first, others)) = members.split_first() else {
        return Ok(());
    };
    print_bind(world, key, first_flags(first.create), first.node, out)?;
    for member in others {
        print_bind(world, key, later_flags(member.create), member.node, out)?;
    }
    Ok(())
}

// The flags of the first member, which replaces what was there.
fn first_flags(create: bool) -> &'static str
    ensures { result.now ≡ first_flags create }
{
    if create { " -c" } else { "" }
}

// The flags of the others, each of which goes after those before it.
fn later_flags(create: bool) -> &'static str
    ensures { result.now ≡ later_flags create }
{
    if create { " -ac" } else { " -a" }
}

// A member's line: `bind`, the flags, the member's path and the key's.
fn print_bind<T: Tree>(
    world: &World<T>,
    key: NodeRef,
    flags: &str,
    node: NodeRef,
    out: &mut Vec<u8, T::Alloc>,
) -> Result<(), NoMemory>
    ensures { OnOk result (out.new.items ≡ out.old.items ++ bind_line world.now key flags.now
        node) }
{
    out.extend_from_slice(b"bind")?;
    out.extend_from_slice(flags.as_bytes())?;
    out.push(b' ')?;
    print_path(world, node, out)?;
    out.push(b' ')?;
    print_path(world, key, out)?;
    out.push(b'\n')?;
    Ok(())
}
