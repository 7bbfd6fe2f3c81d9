//! Mounts, binds, and what takes them away, as bind(1).

ghost use Rattle.std.specs.Prelude.{◌≡◌, IfOk, None, Some};
ghost use Rattle.std.specs.Option.{option_copied};
ghost use Rattle.p9_nsline.specs.Answer.{Acts};
ghost use Rattle.p9_nsline.specs.Bind.{bound_by, has_spec, is_replace, may_hold, mounted_by};
ghost use Rattle.p9_nsline.specs.Bind.{put_at, root_mounted, unmounted_by};

use crate::environment::Environment;
use crate::fault::{OpFault, Stop};
use crate::find::{find, find_file};
use crate::flags::Flags;
use crate::space::Space;
use p9_base::{NoMemory, NodeRef};
use p9_space::Order;
use p9_tree::Tree;

/// Mounts the root of a server, itself and not what is mounted on it. The server is tested first,
/// then the spec, then the old file.
///
/// The refusals are [`OpFault::UnknownServer`], [`OpFault::SpecGiven`], those of the old file's path,
/// and [`OpFault::KindMismatch`]. The name space is unchanged after a refusal.
pub fn mount<T: Tree>(
    environment: &Environment<'_, T>,
    space: &mut Space<T::Alloc>,
    flags: Flags,
    server: &str,
    old: &str,
    spec: Option<&str>,
) -> Result<(), Stop>
    ensures { Acts (mounted_by environment.now space.old flags server.now old.now
        (option_copied spec.entry)) space.old space.new result }
{
    let server = environment.expand(server)?;
    let root = match environment.server_root(server.as_str()) {
        Ok(root) => root,
        Err(fault) => return Err(Stop::Refused(fault)),
    };
    if has_spec(environment, spec)? {
        return Err(Stop::Refused(OpFault::SpecGiven));
    }
    mount_root(environment, space, flags, root, old)
}

// Mounts the root, itself.
fn mount_root<T: Tree>(
    environment: &Environment<'_, T>,
    space: &mut Space<T::Alloc>,
    flags: Flags,
    root: NodeRef,
    old: &str,
) -> Result<(), Stop>
    ensures { Acts (root_mounted environment.now space.old flags root old.now) space.old space.new
        result }
{
    let to = find(environment, space, old)?.here();
    put(environment, space, to, &[root], flags)
}

// Whether a spec is given: with its variables put in it isn't empty.
fn has_spec<T: Tree>(environment: &Environment<'_, T>, spec: Option<&str>) -> Result<bool, NoMemory>
    ensures { IfOk result (λ given. given ≡ has_spec environment.now (option_copied spec.entry)) }
{
    match spec {
        Some(word) => Ok(environment.expand(word)?.len() > 0),
        None => Ok(false),
    }
}

/// Binds what stands for the new file, its members if it is a union. The new file is found first.
///
/// The refusals are those of the two paths, and [`OpFault::KindMismatch`]. The name space is
/// unchanged after a refusal.
pub fn bind<T: Tree>(
    environment: &Environment<'_, T>,
    space: &mut Space<T::Alloc>,
    flags: Flags,
    new: &str,
    old: &str,
) -> Result<(), Stop>
    ensures { Acts (bound_by environment.now space.old flags new.now old.now) space.old space.new
        result }
{
    let from = find(environment, space, new)?.here();
    let to = find(environment, space, old)?.here();
    let nodes = space.member_nodes(environment.alloc(), from)?;
    put(environment, space, to, &nodes, flags)
}

// Puts nodes in the place of the key, or before or after what is there, if the kinds go
// together.
fn put<T: Tree>(
    environment: &Environment<'_, T>,
    space: &mut Space<T::Alloc>,
    key: NodeRef,
    nodes: &[NodeRef],
    flags: Flags,
) -> Result<(), Stop>
    ensures { Acts (put_at environment.now space.old key nodes.now flags) space.old space.new result }
{
    if !may_hold(environment, flags.order, key, nodes) {
        return Err(Stop::Refused(OpFault::KindMismatch));
    }
    space.bind(key, nodes, flags)?;
    Ok(())
}

// Whether the nodes may stand for the key: directories for a directory, and in the place of a file
// a file. The first node is asked.
fn may_hold<T: Tree>(
    environment: &Environment<'_, T>,
    order: Order,
    key: NodeRef,
    nodes: &[NodeRef],
) -> bool
    ensures { result ≡ may_hold environment.now.forest order key nodes.now }
{
    let [first, ..] = nodes else {
        return false;
    };
    if environment.is_dir(key) {
        environment.is_dir(*first)
    } else {
        !environment.is_dir(*first) && is_replace(order)
    }
}

fn is_replace(order: Order) -> bool
    ensures { result ≡ is_replace order }
{
    match order {
        Order::Replace => true,
        Order::Before | Order::After => false,
    }
}

/// Takes away what is mounted on a file, or one member: the first that is the new file. That file
/// is found first.
///
/// The refusals are those of the two paths, [`OpFault::NotMounted`], and [`OpFault::NotMember`]. The
/// name space is unchanged after a refusal.
pub fn unmount<T: Tree>(
    environment: &Environment<'_, T>,
    space: &mut Space<T::Alloc>,
    new: Option<&str>,
    old: &str,
) -> Result<(), Stop>
    ensures { Acts (unmounted_by environment.now space.old
        (option_copied new.entry) old.now) space.old space.new result }
{
    match new {
        Some(new) => unmount_file(environment, space, new, old),
        None => unmount_all(environment, space, old),
    }
}

fn unmount_all<T: Tree>(
    environment: &Environment<'_, T>,
    space: &mut Space<T::Alloc>,
    old: &str,
) -> Result<(), Stop>
    ensures { Acts (unmounted_by environment.now space.old None old.now) space.old space.new result }
{
    let to = find(environment, space, old)?.here();
    space.take_away(to, None)
}

fn unmount_file<T: Tree>(
    environment: &Environment<'_, T>,
    space: &mut Space<T::Alloc>,
    new: &str,
    old: &str,
) -> Result<(), Stop>
    ensures { Acts (unmounted_by environment.now space.old
        (Some new.now) old.now) space.old space.new result }
{
    let file = find_file(environment, space, new)?;
    let to = find(environment, space, old)?.here();
    space.take_away(to, Some(file))
}
