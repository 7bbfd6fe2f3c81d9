//! The path by which a node is printed.

ghost use Rattle.std.specs.Prelude.{◌≡◌, ◌++◌, IfOk, OnOk, map, reverse};
ghost use Rattle.std.specs.Option.{option_map};
ghost use Rattle.std.specs.String.{string_bytes};
ghost use Rattle.p9_tree.specs.Forest.{server_at};
ghost use Rattle.p9_prepared.specs.Path.{entry_at, names_to, node_path, path_of, rooted_path};
ghost use Rattle.p9_prepared.specs.Path.{server_name};

use p9_base::{NoMemory, NodeRef};
use p9_tree::{Forest, Tree};
use p9_world::World;
use std::alloc::Allocator;

/// The path by which a node is named: its server's name, a colon, and from the root on a slash before
/// each name. The root is a slash alone. The only error is that an allocation fails.
pub fn path_of<T: Tree>(
    alloc: T::Alloc,
    world: &World<T>,
    at: NodeRef,
) -> Result<String<T::Alloc>, NoMemory>
    ensures { IfOk result (λ path. string_bytes path ≡ path_of world.now at) }
{
    let names = names_to(alloc, &world.forest, at)?;
    let rooted = rooted_path(alloc, names.as_slice())?;
    Ok(format!(in alloc; "{}:{rooted}", server_name(world, at.server))?)
}

/// Prints a node's path as in a namespace file: `#`, its server's name, and from the root on a slash
/// before each name. The root is a slash alone. Where an allocation fails, a part of it may be there.
pub fn print_path<T: Tree>(
    world: &World<T>,
    at: NodeRef,
    out: &mut Vec<u8, T::Alloc>,
) -> Result<(), NoMemory>
    ensures { OnOk result (out.new.items ≡ out.old.items ++ node_path world.now at) }
{
    out.push(b'#')?;
    out.extend_from_slice(server_name(world, at.server).as_bytes())?;
    let names = names_to(*out.allocator(), &world.forest, at)?;
    let rooted = rooted_path(*out.allocator(), names.as_slice())?;
    out.extend_from_slice(rooted.as_bytes())?;
    Ok(())
}

/// The name of the server of this number. It is empty where there is none.
pub fn server_name<T: Tree>(world: &World<T>, server: u16) -> &str
    ensures { result.now ≡ server_name server world.now }
{
    match world.servers.get(server as usize) {
        Some(name) => name.as_str(),
        None => "",
    }
}

// The names that lead to a node from its server's root.
fn names_to<'a, T: Tree>(
    alloc: T::Alloc,
    forest: &'a Forest<T>,
    at: NodeRef,
) -> Result<Vec<&'a str, T::Alloc>, NoMemory>
    ensures { IfOk result (λ names. map (λ n. n.now) names.items
        ≡ names_to at.number (server_at at.server forest.now).nodes) }
{
    let mut names = names_from(alloc, forest, at)?;
    names.reverse();
    Ok(names)
}

// The names from a node's own up to that below its server's root.
fn names_from<'a, T: Tree>(
    alloc: T::Alloc,
    forest: &'a Forest<T>,
    at: NodeRef,
) -> Result<Vec<&'a str, T::Alloc>, NoMemory>
    ensures { IfOk result (λ names. reverse (map (λ n. n.now) names.items)
        ≡ names_to at.number (server_at at.server forest.now).nodes) }
{
    let mut names = Vec::new(alloc);
    let mut here = at;
    for _ in 0..at.number {
        let Some((parent, name)) = entry(forest, here) else {
            return Ok(names);
        };
        names.push(name)?;
        here.number = parent;
    }
    Ok(names)
}

// In which directory a node is, and under which name.
fn entry<T: Tree>(forest: &Forest<T>, at: NodeRef) -> Option<(u64, &str)>
    ensures { option_map (λ e. (e.0, e.1.now)) result
        ≡ entry_at at.number (server_at at.server forest.now).nodes }
{
    let node = forest.node(at)?;
    Some((node.parent()?, node.name()))
}

/// A slash before each name; without names a slash alone. The only error is that an allocation fails.
pub fn rooted_path<A: Allocator + Copy>(alloc: A, names: &[&str]) -> Result<String<A>, NoMemory>
    ensures { IfOk result (λ path. string_bytes path ≡ rooted_path (map (λ n. n.now) names.now)) }
{
    if names.is_empty() {
        return Ok(String::from_str(alloc, "/")?);
    }
    let mut path = String::new(alloc);
    for name in names {
        path.push('/')?;
        path.push_str(name)?;
    }
    Ok(path)
}
