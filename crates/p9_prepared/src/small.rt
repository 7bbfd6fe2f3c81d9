//! The sample world `small`, for an input that brings no world.

ghost use Rattle.std.specs.Prelude.{◌≡◌, IfOk, IsTrue, OnOk, codes};
ghost use Rattle.p9_base.specs.Name.{is_name};
ghost use Rattle.p9_tree.specs.Server.{CanAdd, added};
ghost use Rattle.p9_prepared.specs.Small.{directory_mode, file_mode, glendas, is_blank_input, small};
ghost use Rattle.p9_prepared.specs.Small.{small_world};

use p9_base::{FileFlags, Groups, Kind, Mode, Name, NoMemory, Permissions, User};
use p9_tree::{Forest, New, Tree};
use p9_world::World;

/// Whether an input has nothing but blanks, tabs and newlines. It brings no world, so it reads to the sample
/// world.
pub fn is_blank_input(input: &[u8]) -> bool
    ensures { result ≡ is_blank_input input.now }
{
    input
        .iter()
        .all(|byte| matches!(byte, b' ' | b'\t' | b'\n'))
}

/// The world `small`: one server, `main`, with the directories `/a` and `/a/b` and the file `/a/f`,
/// which are glenda's, and she is the one user.
pub(crate) fn small_world<T: Tree>(alloc: T::Alloc) -> Result<World<T>, NoMemory>
    ensures { IfOk result (λ world. world ≡ small_world) }
{
    let mut trees = Vec::new(alloc);
    trees.push(small::<T>(alloc)?)?;
    let mut users = Vec::new(alloc);
    users.push(glenda())?;
    let mut servers = Vec::new(alloc);
    servers.push(String::from_str(alloc, "main")?)?;
    Ok(World {
        forest: Forest::new(trees),
        users,
        groups: Groups::new(alloc),
        hidden: Vec::new(alloc),
        vars: Vec::new(alloc),
        servers,
    })
}

// The one server of the world `small`.
fn small<T: Tree>(alloc: T::Alloc) -> Result<T, NoMemory>
    ensures { IfOk result (λ tree. T.state tree ≡ small) }
{
    let mut tree = T::with_root(alloc)?;
    add(&mut tree, 0, "a", directory_mode(), b"")?;
    add(&mut tree, 1, "b", directory_mode(), b"")?;
    add(&mut tree, 1, "f", file_mode(), b"hi")?;
    Ok(tree)
}

// Adds a file or directory of glenda's.
fn add<T: Tree>(
    tree: &mut T,
    dir: u64,
    name: &str,
    mode: Mode,
    bytes: &[u8],
) -> Result<(), NoMemory>
    requires name { IsTrue (is_name name.now) }
    requires can_add { let old = T.state tree.old in
        CanAdd old dir (glendas old.next dir name.now mode bytes.now) }
    ensures { OnOk result (
        let old = T.state tree.old in
        T.state tree.new ≡ added old (glendas old.next dir name.now mode bytes.now)) }
{
    let glenda = glenda();
    let new = New {
        name: Name::new(name).unwrap(),
        mode,
        uid: glenda,
        gid: glenda,
        muid: glenda,
        atime: 0,
        mtime: 0,
        bytes,
    };
    tree.add(dir, &new)?;
    Ok(())
}

// The user who has all but the root.
fn glenda() -> User
    ensures { result ≡ codes "glenda" }
{
    User::new("glenda").unwrap()
}

// rwxr-xr-x
fn directory_mode() -> Mode
    ensures { result ≡ directory_mode }
{
    Mode {
        kind: Kind::Directory,
        permissions: Permissions::from_bits(0o755),
    }
}

// rw-r--r--
fn file_mode() -> Mode
    ensures { result ≡ file_mode }
{
    Mode {
        kind: Kind::File(FileFlags {
            append_only: false,
            exclusive: false,
            temporary: false,
        }),
        permissions: Permissions::from_bits(0o644),
    }
}
