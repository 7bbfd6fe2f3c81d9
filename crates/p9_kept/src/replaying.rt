//! Changes that were recorded, made again.

ghost use Rattle.std.specs.Prelude.{◌≡◌, ◌≢◌, ◌≤◌, ◌+◌, All, Bool, IfOk, IsFalse, IsTrue, List, None, OnOk, length, map};
ghost use Rattle.std.specs.Option.{ForSome};
ghost use Rattle.p9_base.specs.Mode.{is_dir as is_dir_mode};
ghost use Rattle.p9_base.specs.NodeRef.{servers_max};
ghost use Rattle.p9_tree.specs.Bytes.{file_max};
ghost use Rattle.p9_tree.specs.Change.{CanChange, CanChangeNode};
ghost use Rattle.p9_tree.specs.Edit.{edited, PutBack, Skip, Write};
ghost use Rattle.p9_tree.specs.ForestChange.{forest_edit_of};
ghost use Rattle.p9_tree.specs.ForestEdit.{forest_edited, AddServer, OnServer};
ghost use Rattle.p9_tree.specs.New.{CanAddNew};
ghost use Rattle.p9_tree.specs.Node.{is_dir};
ghost use Rattle.p9_tree.specs.Saved.{CanPutBack, saved_node};
ghost use Rattle.p9_tree.specs.Server.{child_of, has_children, is_dir_at};
ghost use Rattle.p9_tree.specs.TreeChange.{edit_of};
ghost use Rattle.p9_record.specs.Closed.{IsEarlier};
ghost use Rattle.p9_kept.specs.Edits.{IsWhole, stood_for, stood_from};
ghost use Rattle.p9_kept.specs.Entered.{AreEntered, KeepsEntered};

use crate::slots::Entered;
use p9_base::{NoMemory, SERVERS_MAX};
use p9_record::{is_earlier, take_closed};
use p9_tree::{
    Change, Entry, FILE_MAX, Forest, ForestChange, NEXT_MAX, New, Node, Saved, Tree, TreeChange,
    fits_file,
};
use std::alloc::Allocator;
use thiserror::Error;

// A record has at least so many bytes for each slot of the names that are entered.
const SLOT: usize = 8;

/// Why recorded changes are not made again.
#[derive(Clone, Copy, Debug, PartialEq, Eq, Error)]
pub enum Refused {
    /// There are bytes that are no change, or a change that can't be made.
    #[error("damaged")]
    Damaged,
    /// The changes are of an earlier version, whose records have another checksum.
    #[error("the changes are of an earlier version, which can't be read")]
    Earlier,
    /// An allocation failed.
    #[error("out of memory")]
    NoMemory,
}

impl From<NoMemory> for Refused {
    fn from(_error: NoMemory) -> Refused {
        Refused::NoMemory
    }
}

/// The forest that the changes make which the bytes spell, one after another, from no server on.
pub fn replay<T: Tree>(alloc: T::Alloc, bytes: &[u8]) -> Result<Forest<T>, Refused>
    ensures forest { IfOk result (λ forest. forest ≡ stood_for bytes.now) }
    ensures whole { OnOk result (IsWhole bytes.now) }
{
    let mut trees = Vec::new(alloc);
    let mut entered = Entered::with_slots(alloc, bytes.len() / SLOT)?;
    replay_in(alloc, &mut trees, &mut entered, bytes)?;
    Ok(Forest::new(trees))
}

// Makes the changes that the bytes spell, one after another. After an `Err` some of them are made.
fn replay_in<T: Tree>(
    alloc: T::Alloc,
    trees: &mut Vec<T, T::Alloc>,
    entered: &mut Entered<T::Alloc>,
    bytes: &[u8],
) -> Result<(), Refused>
    requires few { length trees.old.items ≤ servers_max }
    requires entered { All (λ t. AreEntered entered.old (T.state t).nodes) trees.old.items }
    ensures made { OnOk result (map T.state trees.new.items
        ≡ stood_from (map T.state trees.old.items) bytes.now) }
    ensures whole { OnOk result (IsWhole bytes.now) }
    ensures few { length trees.new.items ≤ servers_max }
{
    let mut rest = bytes;
    while !rest.is_empty() {
        let Some((change, after)) = take_closed(rest) else {
            return Err(refusal_of(rest));
        };
        if after.len() >= rest.len() {
            return Err(Refused::Damaged);
        }
        make(alloc, trees, entered, &change)?;
        rest = after;
    }
    Ok(())
}

// Why bytes that begin with no closed record are refused.
fn refusal_of(bytes: &[u8]) -> Refused
    ensures { result ≡ Refused.Earlier → IsEarlier bytes.now }
{
    if is_earlier(bytes) {
        Refused::Earlier
    } else {
        Refused::Damaged
    }
}

// Makes a change of the trees of all servers.
fn make<T: Tree>(
    alloc: T::Alloc,
    trees: &mut Vec<T, T::Alloc>,
    entered: &mut Entered<T::Alloc>,
    change: &ForestChange<'_>,
) -> Result<(), Refused>
    requires few { length trees.old.items ≤ servers_max }
    requires entered { All (λ t. AreEntered entered.old (T.state t).nodes) trees.old.items }
    ensures entered { OnOk result
        (All (λ t. AreEntered entered.new (T.state t).nodes) trees.new.items) }
    ensures made { OnOk result (map T.state trees.new.items
        ≡ forest_edited (forest_edit_of change.entry.now) (map T.state trees.old.items)) }
    ensures few { length trees.new.items ≤ servers_max }
{
    match change {
        ForestChange::AddServer => add_server(alloc, trees),
        ForestChange::OnServer { server, change } => make_on(trees, entered, *server, change),
    }
}

// A server joins behind the others, with a tree of a root alone.
fn add_server<T: Tree>(alloc: T::Alloc, trees: &mut Vec<T, T::Alloc>) -> Result<(), Refused>
    requires { length trees.old.items ≤ servers_max }
    ensures made { OnOk result (map T.state trees.new.items
        ≡ forest_edited AddServer (map T.state trees.old.items)) }
    ensures entered { OnOk result ((slots : List Bool)
        → All (λ t. AreEntered slots (T.state t).nodes) trees.old.items
        → All (λ t. AreEntered slots (T.state t).nodes) trees.new.items) }
    ensures few { length trees.new.items ≤ servers_max }
{
    if trees.len() >= SERVERS_MAX {
        return Err(Refused::Damaged);
    }
    let tree = T::with_root(alloc)?;
    match trees.push(tree) {
        Ok(()) => Ok(()),
        Err(_) => Err(Refused::NoMemory),
    }
}

// Makes a change of the tree of a server.
fn make_on<T: Tree>(
    trees: &mut Vec<T, T::Alloc>,
    entered: &mut Entered<T::Alloc>,
    server: u16,
    change: &TreeChange<'_>,
) -> Result<(), Refused>
    requires { All (λ t. AreEntered entered.old (T.state t).nodes) trees.old.items }
    ensures entered { OnOk result
        (All (λ t. AreEntered entered.new (T.state t).nodes) trees.new.items) }
    ensures made { OnOk result (map T.state trees.new.items
        ≡ forest_edited (OnServer server (edit_of change.now)) (map T.state trees.old.items)) }
    ensures few { length trees.new.items ≡ length trees.old.items }
{
    let Some(tree) = trees.get_mut(server as usize) else {
        return Err(Refused::Damaged);
    };
    match make_in(tree, entered, change) {
        Ok(true) => Ok(()),
        Ok(false) => Err(Refused::Damaged),
        Err(_) => Err(Refused::NoMemory),
    }
}

// Makes a change of a tree, if it can be made, and returns whether it was. Names that it enters are noted,
// or all of them are given up.
fn make_in<T: Tree>(
    tree: &mut T,
    entered: &mut Entered<T::Alloc>,
    change: &TreeChange<'_>,
) -> Result<bool, NoMemory>
    requires { AreEntered entered.old (T.state tree.old).nodes }
    ensures made { IfOk result (λ made. IsTrue made
        → T.state tree.new ≡ edited (edit_of change.now) (T.state tree.old)) }
    ensures entered { IfOk result (λ made. IsTrue made
        → AreEntered entered.new (T.state tree.new).nodes) }
    ensures kept { KeepsEntered entered.old entered.new }
{
    match change {
        TreeChange::PutBack { saved } => put_back(tree, entered, saved),
        TreeChange::Write {
            number,
            offset,
            bytes,
        } => write(tree, *number, *offset, bytes),
        TreeChange::Skip { next } => Ok(skip_to(tree, *next)),
        _ => {
            entered.give_up();
            make_other(tree, change)
        }
    }
}

// Puts a node back, if that can be done, and returns whether it was.
fn put_back<T: Tree>(
    tree: &mut T,
    entered: &mut Entered<T::Alloc>,
    saved: &Saved<'_>,
) -> Result<bool, NoMemory>
    requires { AreEntered entered.old (T.state tree.old).nodes }
    ensures made { IfOk result (λ made. IsTrue made
        → T.state tree.new ≡ edited (PutBack (saved_node saved.entry.now)) (T.state tree.old)) }
    ensures entered { IfOk result (λ made. IsTrue made
        → AreEntered entered.new (T.state tree.new).nodes) }
    ensures kept { KeepsEntered entered.old entered.new }
{
    if !can_put_back(tree, entered, saved) {
        return Ok(false);
    }
    tree.put_back(saved)?;
    if let Some(entry) = &saved.entry {
        entered.enter(entry.parent, &entry.name);
    }
    Ok(true)
}

// Writes into a file, if that can be done, and returns whether it was.
fn write<T: Tree>(tree: &mut T, number: u64, offset: u64, bytes: &[u8]) -> Result<bool, NoMemory>
    ensures made { IfOk result (λ made. IsTrue made
        → T.state tree.new ≡ edited (Write number offset bytes.now) (T.state tree.old)) }
    ensures entered { IfOk result (λ made. IsTrue made → (slots : List Bool)
        → AreEntered slots (T.state tree.old).nodes → AreEntered slots (T.state tree.new).nodes) }
{
    if is_dir(tree, number) || !fits_file(offset, bytes.len()) {
        return Ok(false);
    }
    tree.write(number, offset, bytes)?;
    Ok(true)
}

// Sets the next number, if that can be done, and returns whether it was.
fn skip_to<T: Tree>(tree: &mut T, next: u64) -> bool
    ensures { IsTrue result → T.state tree.new ≡ edited (Skip next) (T.state tree.old) }
{
    if next < tree.next() || next > NEXT_MAX {
        return false;
    }
    tree.skip_to(next);
    true
}

// Makes a change of a tree that puts no node back, if it can be made, and returns whether it was.
fn make_other<T: Tree>(tree: &mut T, change: &TreeChange<'_>) -> Result<bool, NoMemory>
    ensures { IfOk result (λ made. IsTrue made
        → T.state tree.new ≡ edited (edit_of change.now) (T.state tree.old)) }
{
    match change {
        TreeChange::SetRoot {
            permissions,
            uid,
            gid,
        } => {
            tree.set_root(*permissions, *uid, *gid);
            Ok(true)
        }
        TreeChange::Create { dir, new } => {
            if !can_create(tree, *dir, new) {
                return Ok(false);
            }
            tree.add(*dir, new)?;
            Ok(true)
        }
        TreeChange::Remove { number } => {
            if *number == 0 || tree.after(*number, None).is_some() {
                return Ok(false);
            }
            tree.drop_leaf(*number);
            Ok(true)
        }
        TreeChange::Wstat { number, change } => {
            if !can_change(tree, *number, change) {
                return Ok(false);
            }
            tree.change(*number, change)?;
            Ok(true)
        }
        TreeChange::Mark {
            number,
            user,
            clock,
        } => {
            tree.bump(*number, *user, *clock);
            Ok(true)
        }
        TreeChange::Truncate { number, size } => {
            tree.cut(*number, *size);
            Ok(true)
        }
        TreeChange::Write { .. } | TreeChange::PutBack { .. } | TreeChange::Skip { .. } => Ok(
            false,
        ),
    }
}

// Whether there is a directory of this number.
fn is_dir<T: Tree>(tree: &T, number: u64) -> bool
    ensures { result ≡ is_dir_at number (T.state tree.now).nodes }
{
    tree.node(number).is_some_and(|n| n.is_dir())
}

// Whether a node may be made in the directory.
fn can_create<T: Tree>(tree: &T, dir: u64, new: &New<'_>) -> bool
    ensures { IsTrue result → CanAddNew (T.state tree.now) dir new.now }
{
    tree.next() < NEXT_MAX
        && is_dir(tree, dir)
        && tree.child(dir, &new.name).is_none()
        && new.bytes.len() <= FILE_MAX
        && (!new.mode.is_dir() || new.bytes.is_empty())
}

// Whether a node may be put back with these fields.
fn can_put_back<T: Tree>(tree: &T, entered: &Entered<T::Alloc>, saved: &Saved<'_>) -> bool
    requires { AreEntered entered.now (T.state tree.now).nodes }
    ensures { IsTrue result → CanPutBack (T.state tree.now) (saved_node saved.now) }
{
    let Some(entry) = &saved.entry else {
        return true;
    };
    tree.next() <= saved.number
        && saved.number < NEXT_MAX
        && is_dir(tree, entry.parent)
        && is_free(tree, entered, entry)
        && saved.bytes.len() <= FILE_MAX
        && (!saved.mode.is_dir() || saved.bytes.is_empty())
}

// Whether no node is in this directory under this name. Where the name was never entered, the directory
// isn't looked at.
fn is_free<T: Tree>(tree: &T, entered: &Entered<T::Alloc>, entry: &Entry) -> bool
    requires { AreEntered entered.now (T.state tree.now).nodes }
    ensures { IsTrue result
        → child_of entry.now.parent entry.now.name (T.state tree.now).nodes ≡ None }
{
    !entered.may_have(entry.parent, &entry.name) || tree.child(entry.parent, &entry.name).is_none()
}

// Whether the node of this number may be changed so, if there is one.
fn can_change<T: Tree>(tree: &T, number: u64, change: &Change) -> bool
    ensures { IsTrue result → CanChange (T.state tree.now) number change.now }
{
    match tree.node(number) {
        Some(node) => can_change_node(tree, node, change),
        None => true,
    }
}

// Whether a node may be changed so.
fn can_change_node<T: Tree>(tree: &T, node: &Node<T::Alloc>, change: &Change) -> bool
    ensures { IsTrue result → CanChangeNode (T.state tree.now) node.now change.now }
{
    is_kind_kept(node, change) && is_name_free(tree, node, change) && is_size_fit(node, change)
}

// Whether a new mode, if there is one, is that of a directory exactly where the node is one.
fn is_kind_kept<A: Allocator>(node: &Node<A>, change: &Change) -> bool
    ensures { IsTrue result → ForSome change.now.mode (λ mode. is_dir_mode mode ≡ is_dir node.now) }
{
    match change.mode {
        Some(mode) => mode.is_dir() == node.is_dir(),
        None => true,
    }
}

// Whether a new length, if there is one, is of a file and not too great.
fn is_size_fit<A: Allocator>(node: &Node<A>, change: &Change) -> bool
    ensures file { IsTrue result → ForSome change.now.length (λ size. IsFalse (is_dir node.now)) }
    ensures small { IsTrue result → ForSome change.now.length (λ size. size ≤ file_max) }
{
    match change.length {
        Some(size) => !node.is_dir() && size <= FILE_MAX as u64,
        None => true,
    }
}

// Whether no other node has the new name, if there is one, and the node is not the root.
fn is_name_free<T: Tree>(tree: &T, node: &Node<T::Alloc>, change: &Change) -> bool
    ensures not_root { IsTrue result → ForSome change.now.name (λ name. node.now.number ≢ 0) }
    ensures free { IsTrue result → ForSome change.now.name (λ name. ForSome node.now.parent (λ dir.
        ForSome (child_of dir name (T.state tree.now).nodes) (λ m. m.number ≡ node.now.number))) }
{
    let Some(name) = change.name else {
        return true;
    };
    if node.number() == 0 {
        return false;
    }
    let Some(dir) = node.parent() else {
        return true;
    };
    match tree.child(dir, &name) {
        Some(other) => other.number() == node.number(),
        None => true,
    }
}
