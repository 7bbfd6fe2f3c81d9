//! What a change does to the trees of all servers, each at its server's number.

ghost use Rattle.std.specs.Prelude.{◌≡◌, ◌≢◌, ◌+◌, ◌≤◌, IfOk, IsFalse, IsTrue, OnErr, OnOk};
ghost use Rattle.std.specs.Prelude.{[], ◌∷◌, ◌++◌, length, map};
ghost use Rattle.p9_tree.specs.Bytes.{cut_to, file_max, overwritten};
ghost use Rattle.p9_tree.specs.Change.{CanChange, changed};
ghost use Rattle.p9_tree.specs.Forest.{forest_changed_at, has_children_of, is_dir_of, next_of};
ghost use Rattle.p9_tree.specs.Forest.{server_at, tree_changed_at};
ghost use Rattle.p9_tree.specs.New.{CanAddNew, added_new};
ghost use Rattle.p9_tree.specs.Node.{marked, touched, with_bytes, with_owner};
ghost use Rattle.p9_tree.specs.Saved.{CanPutBack, put_back, saved_node, skipped_to};
ghost use Rattle.p9_tree.specs.Server.{exists_at, next_max, rooted, with_changed, with_dropped};

use crate::change::Change;
use crate::new::New;
use crate::saved::Saved;
use crate::tree::Tree;
use p9_base::{NoMemory, NodeRef, Permissions, User};

/// Makes a node in the directory, as [`Tree::add`].
pub(crate) fn add<T: Tree>(
    trees: &mut Vec<T, T::Alloc>,
    dir: NodeRef,
    new: &New<'_>,
) -> Result<NodeRef, NoMemory>
    requires { let server = server_at dir.server (map T.state trees.old.items) in
        CanAddNew server dir.number new.now }
    ensures made { let number = next_of dir.server (map T.state trees.old.items) in
        IfOk result (λ made. made ≡ record { server = dir.server; number = number }) }
    ensures ok { OnOk result (map T.state trees.new.items
        ≡ tree_changed_at dir.server (added_new dir.number new.now) (map T.state trees.old.items)) }
    ensures err { OnErr result (map T.state trees.new.items ≡ map T.state trees.old.items) }
{
    let number = trees[dir.server as usize].add(dir.number, new)?;
    Ok(dir.beside(number))
}

/// Takes out a file or an empty directory, as [`Tree::drop_leaf`].
pub(crate) fn drop_leaf<T: Tree>(trees: &mut Vec<T, T::Alloc>, at: NodeRef)
    requires not_root { at.number ≢ 0 }
    requires empty { IsFalse (has_children_of at (map T.state trees.old.items)) }
    ensures { map T.state trees.new.items
        ≡ tree_changed_at at.server (with_dropped at.number) (map T.state trees.old.items) }
{
    if let Some(tree) = trees.get_mut(at.server as usize) {
        tree.drop_leaf(at.number);
    }
}

/// Makes all of the change in the node, as [`Tree::change`].
pub(crate) fn change<T: Tree>(
    trees: &mut Vec<T, T::Alloc>,
    at: NodeRef,
    change: &Change,
) -> Result<(), NoMemory>
    requires { let server = server_at at.server (map T.state trees.old.items) in
        CanChange server at.number change.now }
    ensures ok { OnOk result (map T.state trees.new.items
        ≡ forest_changed_at at (changed change.entry.now) (map T.state trees.old.items)) }
    ensures err { OnErr result (map T.state trees.new.items ≡ map T.state trees.old.items) }
    ensures there { OnErr result (IsTrue
        (exists_at at.number (server_at at.server (map T.state trees.old.items)).nodes)) }
{
    if let Some(tree) = trees.get_mut(at.server as usize) {
        tree.change(at.number, change)?;
    }
    Ok(())
}

/// Marks the node, as [`Tree::bump`].
pub(crate) fn bump<T: Tree>(trees: &mut Vec<T, T::Alloc>, at: NodeRef, user: User, clock: u32)
    ensures { map T.state trees.new.items
        ≡ forest_changed_at at (marked user clock) (map T.state trees.old.items) }
{
    if let Some(tree) = trees.get_mut(at.server as usize) {
        tree.bump(at.number, user, clock);
    }
}

/// Makes the clock reading the time when the file was last read.
pub(crate) fn touch<T: Tree>(trees: &mut Vec<T, T::Alloc>, at: NodeRef, clock: u32)
    ensures { map T.state trees.new.items
        ≡ forest_changed_at at (touched clock) (map T.state trees.old.items) }
{
    if let Some(tree) = trees.get_mut(at.server as usize) {
        tree.touch(at.number, clock);
    }
}

/// Writes into a file at the offset, as [`Tree::write`].
pub(crate) fn write<T: Tree>(
    trees: &mut Vec<T, T::Alloc>,
    at: NodeRef,
    offset: u64,
    bytes: &[u8],
) -> Result<(), NoMemory>
    requires file { IsFalse (is_dir_of at (map T.state trees.old.items)) }
    requires fits { offset + length bytes.now ≤ file_max }
    ensures ok { OnOk result (map T.state trees.new.items
        ≡ forest_changed_at at (with_bytes (overwritten offset bytes.now)) (map T.state trees.old.items)) }
    ensures err { OnErr result (map T.state trees.new.items ≡ map T.state trees.old.items) }
    ensures there { OnErr result (IsTrue
        (exists_at at.number (server_at at.server (map T.state trees.old.items)).nodes)) }
{
    if let Some(tree) = trees.get_mut(at.server as usize) {
        tree.write(at.number, offset, bytes)?;
    }
    Ok(())
}

/// Keeps the first `size` bytes of a file, or all where they are fewer.
pub(crate) fn cut<T: Tree>(trees: &mut Vec<T, T::Alloc>, at: NodeRef, size: u64)
    ensures { map T.state trees.new.items
        ≡ forest_changed_at at (with_bytes (cut_to size)) (map T.state trees.old.items) }
{
    if let Some(tree) = trees.get_mut(at.server as usize) {
        tree.cut(at.number, size);
    }
}

/// A server joins behind the others, with a tree of a root alone, as [`Tree::with_root`].
pub(crate) fn add_server<T: Tree>(
    alloc: T::Alloc,
    trees: &mut Vec<T, T::Alloc>,
) -> Result<(), NoMemory>
    ensures ok { OnOk result
        (map T.state trees.new.items ≡ map T.state trees.old.items ++ rooted ∷ []) }
    ensures err { OnErr result (map T.state trees.new.items ≡ map T.state trees.old.items) }
{
    trees.push(T::with_root(alloc)?)?;
    Ok(())
}

/// Makes the permissions, owner and group of the server's root these, as [`Tree::set_root`].
pub(crate) fn set_root<T: Tree>(
    trees: &mut Vec<T, T::Alloc>,
    server: u16,
    permissions: Permissions,
    uid: User,
    gid: User,
)
    ensures { map T.state trees.new.items ≡ tree_changed_at server
        (with_changed 0 (with_owner permissions uid gid)) (map T.state trees.old.items) }
{
    if let Some(tree) = trees.get_mut(server as usize) {
        tree.set_root(permissions, uid, gid);
    }
}

/// Makes a node of the server with all of these fields, as [`Tree::put_back`].
pub(crate) fn put_back<T: Tree>(
    trees: &mut Vec<T, T::Alloc>,
    server: u16,
    saved: &Saved<'_>,
) -> Result<(), NoMemory>
    requires { let was = server_at server (map T.state trees.old.items) in
        CanPutBack was (saved_node saved.now) }
    ensures ok { OnOk result (map T.state trees.new.items ≡ tree_changed_at server
        (put_back (saved_node saved.entry.now)) (map T.state trees.old.items)) }
    ensures err { OnErr result (map T.state trees.new.items ≡ map T.state trees.old.items) }
{
    if let Some(tree) = trees.get_mut(server as usize) {
        tree.put_back(saved)?;
    }
    Ok(())
}

/// Makes this the next number of the server, as [`Tree::skip_to`].
pub(crate) fn skip_to<T: Tree>(trees: &mut Vec<T, T::Alloc>, server: u16, next: u64)
    requires more { next_of server (map T.state trees.old.items) ≤ next }
    requires few { next ≤ next_max }
    ensures { map T.state trees.new.items
        ≡ tree_changed_at server (skipped_to next) (map T.state trees.old.items) }
{
    if let Some(tree) = trees.get_mut(server as usize) {
        tree.skip_to(next);
    }
}
