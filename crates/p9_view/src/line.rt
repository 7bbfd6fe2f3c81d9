//! The line of an entry of a tour.

ghost use Rattle.std.specs.Prelude.{◌≡◌, ◌++◌, IfSome, OnOk};
ghost use Rattle.std.specs.List.{list_any};
ghost use Rattle.std.specs.Option.{option_copied, option_map};
ghost use Rattle.p9_space.specs.Place.{file_of};
ghost use Rattle.p9_space.specs.Rights.{who_view};
ghost use Rattle.p9_tree.specs.Inside.{is_hidden};
ghost use Rattle.p9_view.specs.Line.{access_text, dir_text, file_text, hidden_text, line_text};
ghost use Rattle.p9_view.specs.Line.{member_text, members_text, node_text, same_text};

use crate::mode::print_mode;
use crate::passing::{View, print_passing};
use crate::text::print_shown;
use crate::tour::Entry;
use crate::way::Access;
use p9_base::{NoMemory, NodeRef};
use p9_cert::is_hidden;
use p9_prepared::{NameSpace, path_of};
use p9_space::{Member, dir_fault};
use p9_tree::{Node, Tree};
use p9_world::World;
use std::alloc::Allocator;

/// Prints the line of an entry that this path leads to: its path, mode, owner, group and length; after
/// `->` what is mounted there, each member with `-c` where files may be created in it; and notes. Of
/// a directory that has the same members as an earlier one, the path of that is given. Names are
/// printed as they are shown to people. Where an allocation fails, a part of it may be there.
pub(crate) fn print_line<T: Tree>(
    space: &NameSpace<T>,
    view: &View<'_, T::Alloc>,
    path: &str,
    same: Option<&str>,
    entry: &Entry,
    out: &mut Vec<u8, T::Alloc>,
) -> Result<(), NoMemory>
    requires { IfSome view.now.ranks (λ ranks. ranks.users.keys ≡ space.now.world.users) }
    ensures { OnOk result (out.new.items ≡ out.old.items
        ++ line_text space.now (option_map who_view view.now.who) path.now
        (option_copied same.entry) entry.now) }
{
    let members = space.table.members(entry.place);
    let members = members.as_slice();
    print_shown(path, out)?;
    print_file(space, entry.place, out)?;
    if space.table.position(entry.place).is_some() {
        print_members(&space.world, members, out)?;
    }
    out.extend_from_slice(hidden_text(&space.world, members).as_bytes())?;
    print_directory(&space.world, view, members, same, out)?;
    out.extend_from_slice(access_text(entry.access).as_bytes())?;
    out.push(b'\n')?;
    Ok(())
}

// Prints what there is to say of the file of a place.
fn print_file<T: Tree>(
    space: &NameSpace<T>,
    place: NodeRef,
    out: &mut Vec<u8, T::Alloc>,
) -> Result<(), NoMemory>
    ensures { OnOk result (out.new.items ≡ out.old.items
        ++ file_text (file_of place space.now.table space.now.world.forest)) }
{
    match space.world.forest.node(space.table.file(place)) {
        Some(node) => print_attributes(node, out),
        None => {
            out.extend_from_slice(b" (gone)")?;
            Ok(())
        }
    }
}

// Prints the mode, the owner, the group and the length of a file.
fn print_attributes<A: Allocator + Copy, B: Allocator>(
    node: &Node<B>,
    out: &mut Vec<u8, A>,
) -> Result<(), NoMemory>
    ensures { OnOk result (out.new.items ≡ out.old.items ++ node_text node.now) }
{
    let count = node.bytes().len();
    let length = format!(in *out.allocator(); " {count}")?;
    out.push(b' ')?;
    print_mode(node.mode(), out)?;
    out.push(b' ')?;
    print_shown(node.uid().as_str(), out)?;
    out.push(b' ')?;
    print_shown(node.gid().as_str(), out)?;
    out.extend_from_slice(length.as_str().as_bytes())?;
    Ok(())
}

// Prints what is mounted at a place.
fn print_members<T: Tree>(
    world: &World<T>,
    members: &[Member],
    out: &mut Vec<u8, T::Alloc>,
) -> Result<(), NoMemory>
    ensures { OnOk result (out.new.items ≡ out.old.items ++ members_text world.now members.now) }
{
    let Some((first, others)) = members.split_first() else {
        return Ok(());
    };
    out.extend_from_slice(b" -> ")?;
    print_member(world, first, out)?;
    for member in others {
        out.extend_from_slice(b" + ")?;
        print_member(world, member, out)?;
    }
    Ok(())
}

// Prints a member: its server and path, and whether files may be created in it.
fn print_member<T: Tree>(
    world: &World<T>,
    member: &Member,
    out: &mut Vec<u8, T::Alloc>,
) -> Result<(), NoMemory>
    ensures { OnOk result (out.new.items ≡ out.old.items ++ member_text world.now member.now) }
{
    let path = path_of(*out.allocator(), world, member.node)?;
    print_shown(path.as_str(), out)?;
    let create = if member.create { " -c" } else { "" };
    out.extend_from_slice(create.as_bytes())?;
    Ok(())
}

// Says that one of the members is hidden.
fn hidden_text<T: Tree>(world: &World<T>, members: &[Member]) -> &'static str
    ensures { result.now ≡ hidden_text world.now members.now }
{
    let hidden = world.hidden.as_slice();
    if has_hidden(hidden, members) {
        " (hidden)"
    } else {
        ""
    }
}

// Whether one of the members is hidden.
fn has_hidden(hidden: &[NodeRef], members: &[Member]) -> bool
    ensures { result ≡ list_any (λ m. is_hidden m.node hidden.now) members.now }
{
    members.iter().any(|member| is_hidden(hidden, member.node))
}

// Prints what there is to say of a place that is a directory: under which path the same members were
// met before, and who passes it.
fn print_directory<T: Tree>(
    world: &World<T>,
    view: &View<'_, T::Alloc>,
    members: &[Member],
    same: Option<&str>,
    out: &mut Vec<u8, T::Alloc>,
) -> Result<(), NoMemory>
    requires { IfSome view.now.ranks (λ ranks. ranks.users.keys ≡ world.now.users) }
    ensures { OnOk result (out.new.items ≡ out.old.items
        ++ dir_text world.now (option_map who_view view.now.who) members.now
        (option_copied same.entry)) }
{
    if dir_fault(&world.forest, members).is_some() {
        return Ok(());
    }
    print_same(same, out)?;
    print_passing(world, view, members, out)
}

// Prints the path under which the same members were met before, if there is one.
fn print_same<A: Allocator + Copy>(same: Option<&str>, out: &mut Vec<u8, A>) -> Result<(), NoMemory>
    ensures { OnOk result (out.new.items ≡ out.old.items
        ++ same_text (option_copied same.entry)) }
{
    if let Some(path) = same {
        out.extend_from_slice(b" as ")?;
        print_shown(path, out)?;
    }
    Ok(())
}

// Says where a walk goes that does not come to an entry.
fn access_text(access: Access) -> &'static str
    ensures { result.now ≡ access_text access }
{
    match access {
        Access::Now => "",
        Access::AfterMode => " (after a change of mode)",
        Access::Behind => " (behind another of its name)",
    }
}
