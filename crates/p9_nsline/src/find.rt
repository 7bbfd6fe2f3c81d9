//! The files that a namespace file names.

ghost use Rattle.std.specs.Prelude.{◌≡◌, ◌∷◌, [], IfOk, string_bytes};
ghost use Rattle.std.specs.List.{after_first, before_first};
ghost use Rattle.std.specs.Option.{option_copied};
ghost use Rattle.p9_base.specs.Name.{slash, is_slash};
ghost use Rattle.p9_nsline.specs.Answer.{Gives};
ghost use Rattle.p9_nsline.specs.Find.{behind_hash, found, found_at, found_file, found_from};
ghost use Rattle.p9_nsline.specs.Find.{found_on_server, walked_along};

use crate::environment::Environment;
use crate::fault::Stop;
use crate::space::Space;
use p9_base::{NoMemory, NodeRef};
use p9_clean::cleaned_elements;
use p9_space::{ROOT_PLACE, Trail};
use p9_tree::Tree;
use std::alloc::Allocator;

/// The trail to the file that a word names, with its variables put in.
///
/// `/` starts at the root place, `#name` at the root of that server, and any other path at the
/// current directory. The path is cleaned, and no permission is needed on its way. Faults are
/// [`crate::OpFault::UnknownServer`], and [`crate::OpFault::Path`] with that of the first step that
/// is refused.
pub(crate) fn find<T: Tree>(
    environment: &Environment<'_, T>,
    space: &Space<T::Alloc>,
    word: &str,
) -> Result<Trail<T::Alloc>, Stop>
    ensures { Gives (found environment.now space.now word.now) result }
{
    let path = environment.expand(word)?;
    find_path(environment, space, path.as_str())
}

/// The file that a word names: the first that stands for its place.
pub(crate) fn find_file<T: Tree>(
    environment: &Environment<'_, T>,
    space: &Space<T::Alloc>,
    word: &str,
) -> Result<NodeRef, Stop>
    ensures { Gives (found_file environment.now space.now word.now) result }
{
    let place = find(environment, space, word)?.here();
    Ok(space.file(place))
}

// The trail to the file that a path names.
fn find_path<T: Tree>(
    environment: &Environment<'_, T>,
    space: &Space<T::Alloc>,
    path: &str,
) -> Result<Trail<T::Alloc>, Stop>
    ensures { Gives (found_at environment.now space.now path.now) result }
{
    match behind_hash(path) {
        Some(rest) => find_on_server(environment, space, rest),
        None => find_from(environment, space, path),
    }
}

// What follows the `#` at the front of a path.
fn behind_hash(path: &str) -> Option<&str>
    ensures { option_copied result ≡ behind_hash path.now }
{
    path.strip_prefix('#')
}

// The trail to the file of a path that names no server.
fn find_from<T: Tree>(
    environment: &Environment<'_, T>,
    space: &Space<T::Alloc>,
    path: &str,
) -> Result<Trail<T::Alloc>, Stop>
    ensures { Gives (found_from environment.now space.now path.now) result }
{
    if path.starts_with('/') {
        let root = environment.trail_at(ROOT_PLACE)?;
        walk(environment, space, &root, path)
    } else {
        walk(environment, space, space.current(), path)
    }
}

// The trail to the file of a path that begins with a server's name, which ends at the first slash.
// What follows that is rooted.
fn find_on_server<T: Tree>(
    environment: &Environment<'_, T>,
    space: &Space<T::Alloc>,
    path: &str,
) -> Result<Trail<T::Alloc>, Stop>
    ensures { Gives (found_on_server environment.now space.now path.now) result }
{
    let (name, rest) = split_name(path);
    match environment.server_root(name) {
        Ok(root) => walk_rooted(environment, space, root, rest),
        Err(fault) => Err(Stop::Refused(fault)),
    }
}

// What is before the first slash of a path, and what follows it.
fn split_name(path: &str) -> (&str, &str)
    ensures name { result.0.now ≡ before_first is_slash path.now }
    ensures rest { result.1.now ≡ after_first is_slash path.now }
{
    match path.split_once('/') {
        Some((name, rest)) => (name, rest),
        None => (path, ""),
    }
}

// Walks from a root along what follows a slash.
fn walk_rooted<T: Tree>(
    environment: &Environment<'_, T>,
    space: &Space<T::Alloc>,
    root: NodeRef,
    rest: &str,
) -> Result<Trail<T::Alloc>, Stop>
    ensures { Gives (walked_along environment.now space.now (root ∷ []) (slash ∷ rest.now)) result }
{
    let root = environment.trail_at(root)?;
    let path = rooted(environment.alloc(), rest)?;
    walk(environment, space, &root, path.as_str())
}

fn rooted<A: Allocator>(alloc: A, rest: &str) -> Result<String<A>, NoMemory>
    ensures { IfOk result (λ path. string_bytes path ≡ slash ∷ rest.now) }
{
    let mut path = String::from_str(alloc, "/")?;
    path.push_str(rest)?;
    Ok(path)
}

// Walks along a path, cleaned.
fn walk<T: Tree>(
    environment: &Environment<'_, T>,
    space: &Space<T::Alloc>,
    start: &Trail<T::Alloc>,
    path: &str,
) -> Result<Trail<T::Alloc>, Stop>
    ensures { Gives (walked_along environment.now space.now start.now path.now) result }
{
    let names = cleaned_elements(environment.alloc(), path)?;
    environment.walk(space.table(), start, &names)
}
