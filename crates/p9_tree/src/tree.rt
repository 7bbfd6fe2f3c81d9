//! What a server's tree does, however it is kept.

ghost use Rattle.std.specs.Prelude.{◌≡◌, ◌≢◌, ◌+◌, ◌≤◌, IfOk, IsFalse, IsTrue, OnErr, OnOk};
ghost use Rattle.std.specs.Prelude.{length};
ghost use Rattle.std.specs.Option.{option_copied};
ghost use Rattle.p9_tree.specs.Bytes.{cut_to, file_max, overwritten, put_front, read_from};
ghost use Rattle.p9_tree.specs.Change.{CanChange, changed};
ghost use Rattle.p9_tree.specs.New.{CanAddNew, added_new};
ghost use Rattle.p9_tree.specs.Node.{marked, touched, with_bytes, with_owner};
ghost use Rattle.p9_tree.specs.Saved.{CanPutBack, put_back, saved_node, skipped_to};
ghost use Rattle.p9_tree.specs.Server.{Server, WellFormed, bytes_at, child_after, child_of};
ghost use Rattle.p9_tree.specs.Server.{has_children, is_dir_at, next_max, node_at};
ghost use Rattle.p9_tree.specs.From.{node_from};
ghost use Rattle.p9_tree.specs.Server.{exists_at, rooted, with_changed, with_dropped};

use crate::change::Change;
use crate::journal::Journal;
use crate::new::New;
use crate::node::Node;
use crate::saved::Saved;
use p9_base::{Name, NoMemory, Permissions, User};
use std::alloc::Allocator;

/// The greatest next number. A server whose next number it is makes no more nodes.
pub const NEXT_MAX: u64 = 1 << 48;

/// The tree of a server: its nodes by rising number, and the number that the next new node gets.
///
/// Each tree is well-formed: its numbers are below the next, which is at most [`NEXT_MAX`]; node 0
/// is a directory named `/` and the one without a parent; each other node has a valid name, and a
/// directory of smaller number for a parent, in which no other has its name; a file has at most
/// [`FILE_MAX`](crate::FILE_MAX) bytes, and a directory none.
///
/// To *mark* a node is to note that a user has changed it now, a file's bytes or a directory's
/// entries, as stat(5): the user becomes the one who changed it last, its version grows by 1 modulo
/// 2^32, and both its times become the clock reading.
///
/// A call that names a number at which there is no node changes nothing. Of the
/// calls on a tree only `add`, `change`, `write` and `put_back` take memory; where an allocation
/// fails they return so, and the tree is unchanged.
pub trait Tree: Sized + Drop {
    /// The allocator of all that grows in it.
    type Alloc: Allocator + Copy;

    /// What keeps the changes of a forest of such trees. It is [`NoJournal`](crate::NoJournal) where
    /// nothing does.
    type Journal: Journal;

    ghost state: { Self → Server };

    /// A tree of a root alone, of mode 755, whose owner, group and last changer are `sys`. Its
    /// version and times are 0. The only error is a failed allocation.
    fn with_root(alloc: Self::Alloc) -> Result<Self, NoMemory>
        ensures { IfOk result (λ tree. state tree ≡ rooted) };

    /// The number that the next new node gets. A number is never given twice.
    fn next(&self) -> u64
        ensures { result ≡ (state self.now).next };

    /// The node of this number.
    fn node(&self, number: u64) -> Option<&Node<Self::Alloc>>
        ensures { option_copied result ≡ node_at number (state self.now).nodes };

    /// The node of least number that is at least this one. From number 0 on, one after another, these
    /// are all nodes.
    fn first_from(&self, number: u64) -> Option<&Node<Self::Alloc>>
        ensures { option_copied result ≡ node_from number (state self.now).nodes };

    /// The node of this name in the directory.
    fn child(&self, dir: u64, name: &Name) -> Option<&Node<Self::Alloc>>
        ensures { option_copied result ≡ child_of dir name.now (state self.now).nodes };

    /// The node of least number in the directory, above the floor if there is one.
    fn after(&self, dir: u64, floor: Option<u64>) -> Option<&Node<Self::Alloc>>
        ensures { option_copied result ≡ child_after dir floor (state self.now).nodes };

    /// Makes the permissions, owner and group of the root these, and the owner the user who
    /// changed it last.
    fn set_root(&mut self, permissions: Permissions, uid: User, gid: User)
        ensures { state self.new
            ≡ with_changed 0 (with_owner permissions uid gid) (state self.old) };

    /// Makes a node of the next number in the directory, and returns its number.
    fn add(&mut self, dir: u64, new: &New<'_>) -> Result<u64, NoMemory>
        requires { CanAddNew (state self.old) dir new.now }
        ensures number { IfOk result (λ number. number ≡ (state self.old).next) }
        ensures ok { OnOk result (state self.new ≡ added_new dir new.now (state self.old)) }
        ensures err { OnErr result (state self.new ≡ state self.old) };

    /// Makes a node with all of these fields. Its number was never given, and from then on no number
    /// up to it is given. Where the fields have no entry, they are those of the root: it gets all of
    /// them but its kind and its bytes, which it keeps. The only error is a failed allocation.
    fn put_back(&mut self, saved: &Saved<'_>) -> Result<(), NoMemory>
        requires { CanPutBack (state self.old) (saved_node saved.now) }
        ensures ok { OnOk result (state self.new
            ≡ put_back (saved_node saved.entry.now) (state self.old)) }
        ensures err { OnErr result (state self.new ≡ state self.old) };

    /// Makes this the next number.
    fn skip_to(&mut self, next: u64)
        requires more { (state self.old).next ≤ next }
        requires few { next ≤ next_max }
        ensures { state self.new ≡ skipped_to next (state self.old) };

    /// Takes out a file or an empty directory. Its parent isn't marked.
    fn drop_leaf(&mut self, number: u64)
        requires not_root { number ≢ 0 }
        requires empty { IsFalse (has_children number (state self.old).nodes) }
        ensures { state self.new ≡ with_dropped number (state self.old) };

    /// Makes all of the change in the node at once: a new length cuts a file or adds zeros to it,
    /// and marks it; a new time of change wins over the mark's, and makes the user the last to have
    /// changed the node. The parent isn't marked. An allocation may fail only where there is a node.
    fn change(&mut self, number: u64, change: &Change) -> Result<(), NoMemory>
        requires { CanChange (state self.old) number change.now }
        ensures ok { OnOk result (state self.new
            ≡ with_changed number (changed change.entry.now) (state self.old)) }
        ensures err { OnErr result (state self.new ≡ state self.old) }
        ensures there { OnErr result (IsTrue (exists_at number (state self.old).nodes)) };

    /// Marks the node, as changed by the user when the clock reads `clock`.
    fn bump(&mut self, number: u64, user: User, clock: u32)
        ensures { state self.new ≡ with_changed number (marked user clock) (state self.old) };

    /// Makes the clock reading the time when the file was last read.
    fn touch(&mut self, number: u64, clock: u32)
        ensures { state self.new ≡ with_changed number (touched clock) (state self.old) };

    /// Writes into a file at the offset, and fills a gap before it with zeros. It isn't marked.
    /// An allocation may fail only where there is a node.
    fn write(&mut self, number: u64, offset: u64, bytes: &[u8]) -> Result<(), NoMemory>
        requires file { IsFalse (is_dir_at number (state self.old).nodes) }
        requires fits { offset + length bytes.now ≤ file_max }
        ensures ok { OnOk result (state self.new
            ≡ with_changed number (with_bytes (overwritten offset bytes.now)) (state self.old)) }
        ensures err { OnErr result (state self.new ≡ state self.old) }
        ensures there { OnErr result (IsTrue (exists_at number (state self.old).nodes)) };

    /// Keeps the first `size` bytes of a file, or all where they are fewer. It isn't marked.
    fn cut(&mut self, number: u64, size: u64)
        ensures { state self.new
            ≡ with_changed number (with_bytes (cut_to size)) (state self.old) };

    /// Copies the file's bytes from the offset on, as many as are there and have room, over the
    /// front of the buffer, and returns how many they are. The rest of the buffer is unchanged.
    fn read_into(&self, number: u64, offset: u64, buffer: &mut [u8]) -> usize
        ensures count { let bytes = bytes_at number (state self.now).nodes in
            result ≡ length (read_from offset (length buffer.old) bytes) }
        ensures filled { let bytes = bytes_at number (state self.now).nodes in
            buffer.new ≡ put_front (read_from offset (length buffer.old) bytes) buffer.old };

    ghost well_formed: { (tree : Self) → WellFormed (state tree) };
}
