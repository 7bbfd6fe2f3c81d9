//! The tree of a name space, as it is printed.

ghost use Rattle.std.specs.Prelude.{◌≡◌, ◌++◌, ℕ, IfOk, IfSome, List, OnOk, find, length};
ghost use Rattle.std.specs.Option.{option_copied, option_map};
ghost use Rattle.std.specs.Str.{bytes_eq};
ghost use Rattle.std.specs.String.{string_bytes};
ghost use Rattle.p9_prepared.specs.Prepared.{prepared_of, rejected_text};
ghost use Rattle.p9_prepared.specs.declared.prepared.Needs.TheVariants.{Nothing};
ghost use Rattle.p9_space.specs.Rights.{who_view};
ghost use Rattle.p9_view.specs.Tree.{AreLines, IsInputShown, IsShownTo, IsTree, unlisted_text};

use crate::line::print_line;
use crate::passing::View;
use crate::text::print_shown;
use crate::tour::Tour;
use crate::visit::tour_of;
use p9_base::{NoMemory, User};
use p9_prepared::status::{DONE, REFUSED};
use p9_prepared::{NameSpace, Needs, PrepareError, Prepared, prepare, print_reports, print_stop};
use p9_space::Who;
use p9_tree::Tree;
use p9_world::World;
use std::alloc::Allocator;

/// Prints the name space of an input as a user meets it, a line for each path by which he may
/// come to a place; without a user all places. Returns the exit status.
///
/// What failed in the namespace file is reported first, and then the input's first fault or that the
/// user is not listed, a line each to `err`. Of the last two the status is 1, and nothing is printed.
/// Where an allocation fails, it returns [`NoMemory`], and a part of the lines may be there.
pub fn show_tree<T: Tree>(
    input: &[u8],
    user: Option<&str>,
    out: &mut Vec<u8, T::Alloc>,
    err: &mut Vec<u8, T::Alloc>,
) -> Result<u8, NoMemory>
    ensures { IfOk result (λ status. IsInputShown (prepared_of Nothing input.now)
        (option_copied user.entry) status out.old.items out.new.items err.old.items
        err.new.items) }
{
    match prepare::<T>(*out.allocator(), input, Needs::Nothing) {
        Ok(prepared) => {
            let status = show(space_of(&prepared), user, out, err);
            prepared.discard();
            status
        }
        Err(PrepareError { reports, stop }) => {
            print_reports(reports.as_slice(), err)?;
            print_stop(stop, err)?;
            Ok(REFUSED)
        }
    }
}

// The name space of an input that is prepared.
fn space_of<T: Tree>(prepared: &Prepared<T>) -> &NameSpace<T>
    ensures { result.now ≡ prepared.now.space }
{
    &prepared.space
}

// Prints a name space for the user of this name, if there is one.
fn show<T: Tree>(
    space: &NameSpace<T>,
    user: Option<&str>,
    out: &mut Vec<u8, T::Alloc>,
    err: &mut Vec<u8, T::Alloc>,
) -> Result<u8, NoMemory>
    ensures { IfOk result (λ status. IsShownTo space.now (option_copied user.entry) status
        out.old.items out.new.items err.old.items err.new.items) }
{
    print_reports(space.reports.as_slice(), err)?;
    let Some(name) = user else {
        print_tree(space, None, out)?;
        return Ok(DONE);
    };
    let Some(user) = listed_user(&space.world, name) else {
        print_unlisted(name, err)?;
        return Ok(REFUSED);
    };
    let groups = &space.world.groups;
    print_tree(space, Some(Who { user, groups }), out)?;
    Ok(DONE)
}

// The listed user of this name.
fn listed_user<'a, T: Tree>(world: &'a World<T>, name: &str) -> Option<&'a User>
    ensures { option_copied result ≡ find (bytes_eq name.now) world.now.users }
{
    world.users.iter().find(|user| name == user.as_str())
}

/// Prints a name space as a user meets it, a line for each path by which he may come to a
/// place; without a user all places. Where an allocation fails, a part of the lines may be there.
pub fn print_tree<'a, T: Tree>(
    space: &'a NameSpace<T>,
    who: Option<Who<'a, T::Alloc>>,
    out: &mut Vec<u8, T::Alloc>,
) -> Result<(), NoMemory>
    ensures { OnOk result ((text : List ℕ)
        × IsTree space.now (option_map who_view who.entry) text
        × (out.new.items ≡ out.old.items ++ text)) }
{
    let tour = tour_of(*out.allocator(), &space.world.forest, &space.table, who)?;
    let view = view_of(*out.allocator(), &space.world, who)?;
    print_lines(space, &view, &tour, out)
}

// The view of a user of a world, or without one that of all listed users.
fn view_of<'a, T: Tree>(
    alloc: T::Alloc,
    world: &World<T>,
    who: Option<Who<'a, T::Alloc>>,
) -> Result<View<'a, T::Alloc>, NoMemory>
    ensures who { IfOk result (λ view. view.who ≡ who.entry) }
    ensures ranks { IfOk result (λ view. IfSome view.ranks (λ ranks.
        ranks.users.keys ≡ world.now.users)) }
{
    View::of(alloc, world.users.as_slice(), who)
}

// Prints the lines of a tour.
fn print_lines<T: Tree>(
    space: &NameSpace<T>,
    view: &View<'_, T::Alloc>,
    tour: &Tour<T::Alloc>,
    out: &mut Vec<u8, T::Alloc>,
) -> Result<(), NoMemory>
    requires { IfSome view.now.ranks (λ ranks. ranks.users.keys ≡ space.now.world.users) }
    ensures { OnOk result ((text : List ℕ)
        × AreLines space.now (option_map who_view view.now.who) tour.now (length tour.now) text
        × (out.new.items ≡ out.old.items ++ text)) }
{
    for (index, entry) in tour.entries().iter().enumerate() {
        let path = tour.path_to(index)?;
        let same = tour.path_to_same(index)?;
        print_line(space, view, path.as_str(), as_text(&same), entry, out)?;
    }
    Ok(())
}

// A text, if there is one.
fn as_text<A: Allocator>(text: &Option<String<A>>) -> Option<&str>
    ensures { option_copied result ≡ option_map string_bytes text.now }
{
    match text {
        Some(text) => Some(text.as_str()),
        None => None,
    }
}

// Prints that a user is not listed.
fn print_unlisted<A: Allocator + Copy>(name: &str, err: &mut Vec<u8, A>) -> Result<(), NoMemory>
    ensures { OnOk result (err.new.items ≡ err.old.items ++ unlisted_text name.now) }
{
    print_shown(name, err)?;
    err.extend_from_slice(b": no listed user\n")?;
    Ok(())
}
