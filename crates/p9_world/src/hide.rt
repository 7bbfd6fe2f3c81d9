//! Lines `hide SERVER PATH`.

ghost use Rattle.std.specs.Prelude.{◌≡◌, ◌<◌, Ok};
ghost use Rattle.p9_tree.specs.Forest.{next_of};
ghost use Rattle.p9_world.specs.Hide.{hide_line, with_hidden};
ghost use Rattle.p9_world.specs.Meaning.{Makes};

use crate::error::{LineFault, Stop};
use crate::path::{dir_of, names_of};
use crate::reader::Reader;
use p9_base::NodeRef;
use p9_tree::Tree;

/// The directory joins those that are hidden.
pub(crate) fn hide<T: Tree>(
    alloc: T::Alloc,
    world: &mut Reader<T>,
    server: &str,
    path: &str,
) -> Result<(), Stop>
    ensures { Makes (hide_line server.now path.now world.old) world.old world.new result }
{
    let Some(server) = world.server_positions.of(server) else {
        return Err(Stop::Refused(LineFault::NoServer));
    };
    let Some(names) = names_of(alloc, path)? else {
        return Err(Stop::Refused(LineFault::BadPath));
    };
    let Some(number) = dir_of(&world.trees[server], names.as_slice()) else {
        return Err(Stop::Refused(LineFault::NoParent));
    };
    add_hidden(
        world,
        NodeRef {
            server: server as u16,
            number,
        },
    )
}

// Adds a directory that isn't hidden yet.
fn add_hidden<T: Tree>(world: &mut Reader<T>, node: NodeRef) -> Result<(), Stop>
    requires { node.number < next_of node.server world.old.forest }
    ensures { Makes (with_hidden node world.old) world.old world.new result }
{
    world.hidden.reserve(1)?;
    if !world.hidden_set.insert(node)? {
        return Err(Stop::Refused(LineFault::Duplicate));
    }
    world.hidden.push(node).unwrap();
    Ok(())
}
