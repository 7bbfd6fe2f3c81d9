//! Lines `server NAME`.

ghost use Rattle.std.specs.Prelude.{◌≡◌, ◌<◌, Ok, false, is_some, length};
ghost use Rattle.std.specs.List.{list_any};
ghost use Rattle.p9_base.specs.NodeRef.{servers_max};
ghost use Rattle.p9_world.specs.Meaning.{Makes};
ghost use Rattle.p9_world.specs.Server.{is_reserved, is_server_name, server_line, server_number};
ghost use Rattle.p9_world.specs.Server.{with_server};

use crate::error::{LineFault, Stop};
use crate::last_dir::LastDir;
use crate::reader::Reader;
use p9_base::SERVERS_MAX;
use p9_tree::Tree;

// The most bytes of a server's name.
const SERVER_NAME_MAX: usize = 63;

/// A server of this name, with a root of mode 755 that belongs to `sys`, joins after the others.
pub(crate) fn add_server<T: Tree>(
    alloc: T::Alloc,
    world: &mut Reader<T>,
    name: &str,
) -> Result<(), Stop>
    ensures { Makes (server_line name.now world.old) world.old world.new result }
{
    if !is_server_name(name) {
        return Err(Stop::Refused(LineFault::BadName));
    }
    if world.server_positions.has(name) {
        return Err(Stop::Refused(LineFault::Duplicate));
    }
    if world.servers.len() >= SERVERS_MAX {
        return Err(Stop::Refused(LineFault::TooMany));
    }
    push_server(alloc, world, name)
}

/// A server of this name, which no other has, joins after the others.
pub(crate) fn push_server<T: Tree>(
    alloc: T::Alloc,
    world: &mut Reader<T>,
    name: &str,
) -> Result<(), Stop>
    requires absent { is_some (server_number name.now world.old.servers) ≡ false }
    requires room { length world.old.servers < servers_max }
    ensures { Makes (Ok (with_server name.now world.old)) world.old world.new result }
{
    let tree = T::with_root(alloc)?;
    let owned = String::from_str(alloc, name)?;
    world.trees.reserve(1)?;
    world.servers.reserve(1)?;
    world.server_positions.insert(name, world.servers.len())?;
    world.servers.push(owned).unwrap();
    world.trees.push(tree).unwrap();
    world.last_dir = LastDir::root(alloc);
    Ok(())
}

// Whether a server may be called so.
fn is_server_name(name: &str) -> bool
    ensures { result ≡ is_server_name name.now }
{
    1 <= name.len() && name.len() <= SERVER_NAME_MAX && !has_reserved(name)
}

/// Whether one of `/`, `#`, `$` and NUL is among the bytes.
pub(crate) fn has_reserved(name: &str) -> bool
    ensures { result ≡ list_any is_reserved name.now }
{
    name.bytes()
        .any(|b| b == b'/' || b == b'#' || b == b'$' || b == 0)
}
