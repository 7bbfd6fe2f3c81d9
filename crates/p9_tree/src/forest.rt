//! The trees of all servers.

ghost use Rattle.std.specs.Prelude.{◌≡◌, ◌≢◌, ◌+◌, ◌≤◌, IfOk, IsFalse, IsTrue, OnErr, OnOk};
ghost use Rattle.std.specs.Prelude.{List, [], ◌∷◌, ◌++◌, ◌<◌, length, map};
ghost use Rattle.std.specs.Option.{option_copied};
ghost use Rattle.p9_base.specs.NodeRef.{servers_max};
ghost use Rattle.p9_tree.specs.Bytes.{cut_to, file_max, overwritten, put_front, read_from};
ghost use Rattle.p9_tree.specs.Change.{CanChange, changed};
ghost use Rattle.p9_tree.specs.Forest.{IsForest, bytes_of, child_in, child_in_after};
ghost use Rattle.p9_tree.specs.Forest.{forest_changed_at, has_children_of, is_dir_of, next_of};
ghost use Rattle.p9_tree.specs.Forest.{node_of, server_at, tree_changed_at};
ghost use Rattle.p9_tree.specs.ForestChange.{forest_edit_of};
ghost use Rattle.p9_tree.specs.ForestEdit.{forest_edited};
ghost use Rattle.p9_tree.specs.Journal.{IsSettled, IsSynced, Keeps, KeepsIfAny};
ghost use Rattle.p9_tree.specs.New.{CanAddNew, added_new};
ghost use Rattle.p9_tree.specs.Node.{marked, touched, with_bytes, with_owner};
ghost use Rattle.p9_tree.specs.Saved.{CanPutBack, put_back, saved_node, skipped_to};
ghost use Rattle.p9_tree.specs.Server.{Server, exists_at, next_max, rooted, with_changed};
ghost use Rattle.p9_tree.specs.Server.{with_dropped};

use crate::change::Change;
use crate::forest_change::ForestChange;
use crate::journal::{Journal, Unsettled};
use crate::new::New;
use crate::node::Node;
use crate::saved::Saved;
use crate::tree::Tree;
use crate::tree_change::TreeChange;
use crate::trees;
use p9_base::{Name, NoMemory, NodeRef, Permissions, User};
use std::marker::Model;

/// The trees of all servers. A tree's position is its server's number, which has 16 bits, so there
/// are at most [`p9_base::SERVERS_MAX`]. There may be none.
///
/// Contracts see a forest as the list of its servers.
#[derive(Drop)]
pub struct Forest<T: Tree> {
    trees: Vec<T, T::Alloc>,
    journal: Option<T::Journal>,
}

impl<T: Tree> Model for Forest<T> {
    ghost use Rattle.std.specs.Prelude.{List, map};
    ghost use Rattle.p9_tree.specs.Journal.{IsKept};
    ghost use Rattle.p9_tree.specs.Server.{Server};

    ghost Value = { List Server };

    ghost view = { λ f. map T.state f.trees.items };

    ghost invariant = { λ f. IsKept T.Journal.is_whole T.Journal.stands_for f.journal
        (map T.state f.trees.items) };
}

impl<T: Tree> Forest<T> {
    /// The forest of these trees, whose changes are not noted. This takes no memory.
    pub fn new(trees: Vec<T, T::Alloc>) -> Forest<T>
        requires { length trees.items ≤ servers_max }
        ensures { result ≡ map T.state trees.items }
    {
        Forest {
            trees,
            journal: None,
        }
    }

    /// The trees, in the order of their servers' numbers.
    pub fn trees(&self) -> &[T]
        ensures { map T.state result.now ≡ self.now }
    {
        self.trees.as_slice()
    }

    /// Notes all changes from now on in the journal, in the place of one before.
    pub fn keep(&mut self, journal: T::Journal)
        requires { Keeps T.Journal.is_whole T.Journal.stands_for journal self.old }
        ensures { self.new ≡ self.old }
    {
        self.journal = Some(journal);
    }

    /// The journal in which changes are noted, if there is one.
    pub fn journal(&self) -> Option<&T::Journal>
        ensures { let journal = option_copied result in
            KeepsIfAny T.Journal.is_whole T.Journal.stands_for journal self.now }
    {
        self.journal.as_ref()
    }

    /// Takes the journal out, if there is one. Changes are not noted from then on.
    pub fn take_journal(&mut self) -> Option<T::Journal>
        ensures same { self.new ≡ self.old }
        ensures kept { KeepsIfAny T.Journal.is_whole T.Journal.stands_for result self.old }
    {
        self.journal.take()
    }

    /// Bounds what the journal holds in memory, as [`Journal::relieve`].
    pub fn relieve(&mut self)
        ensures { self.new ≡ self.old }
    {
        relieve(&mut self.journal);
    }

    /// Makes all changes outlast the process, as [`Journal::settle`].
    pub fn settle(&mut self) -> Result<(), Unsettled>
        ensures same { self.new ≡ self.old }
        ensures settled { OnOk result (IsSettled T.Journal.is_whole T.Journal.stands_for
            T.Journal.may_stay self.new) }
    {
        settle(&mut self.journal)
    }

    /// Makes all changes outlast the machine, as [`Journal::sync`].
    pub fn sync(&mut self) -> Result<(), Unsettled>
        ensures same { self.new ≡ self.old }
        ensures synced { OnOk result (IsSynced T.Journal.is_whole T.Journal.stands_for
            T.Journal.may_stay T.Journal.may_stand self.new) }
    {
        sync(&mut self.journal)
    }

    /// The node, if it exists.
    pub fn node(&self, at: NodeRef) -> Option<&Node<T::Alloc>>
        ensures { option_copied result ≡ node_of at self.now }
    {
        self.trees.get(at.server as usize)?.node(at.number)
    }

    /// The node of this name in the directory.
    pub fn child(&self, dir: NodeRef, name: &Name) -> Option<&Node<T::Alloc>>
        ensures { option_copied result ≡ child_in dir name.now self.now }
    {
        self.trees.get(dir.server as usize)?.child(dir.number, name)
    }

    /// The node of least number in the directory, above the floor if there is one.
    pub fn after(&self, dir: NodeRef, floor: Option<u64>) -> Option<&Node<T::Alloc>>
        ensures { option_copied result ≡ child_in_after dir floor self.now }
    {
        self.trees
            .get(dir.server as usize)?
            .after(dir.number, floor)
    }

    /// The number that the server's next new node gets. It is 0 where there is no such server.
    pub fn next_of(&self, server: u16) -> u64
        ensures { result ≡ next_of server self.now }
    {
        self.trees
            .get(server as usize)
            .map_or(0, |tree| tree.next())
    }

    /// Copies the file's bytes from the offset on, as many as are there and have room, over the
    /// front of the buffer, and returns how many they are. The rest of the buffer is unchanged.
    pub fn read_into(&self, at: NodeRef, offset: u64, buffer: &mut [u8]) -> usize
        ensures count { let bytes = bytes_of at self.now in
            result ≡ length (read_from offset (length buffer.old) bytes) }
        ensures filled { let bytes = bytes_of at self.now in
            buffer.new ≡ put_front (read_from offset (length buffer.old) bytes) buffer.old }
    {
        match self.node(at) {
            Some(node) => node.read_into(offset, buffer),
            None => 0,
        }
    }

    /// Makes a node of the server's next number in the directory. Where an allocation fails, the
    /// forest is as before.
    pub fn add(&mut self, dir: NodeRef, new: &New<'_>) -> Result<NodeRef, NoMemory>
        requires { let server = server_at dir.server self.old in
            CanAddNew server dir.number new.now }
        ensures made { let number = next_of dir.server self.old in
            IfOk result (λ made. made ≡ record { server = dir.server; number = number }) }
        ensures ok { OnOk result (self.new
            ≡ tree_changed_at dir.server (added_new dir.number new.now) self.old) }
        ensures err { OnErr result (self.new ≡ self.old) }
    {
        let made = trees::add(&mut self.trees, dir, new)?;
        let change = ForestChange::OnServer {
            server: dir.server,
            change: TreeChange::Create {
                dir: dir.number,
                new: new.copied(),
            },
        };
        note(&mut self.journal, &change);
        Ok(made)
    }

    /// A server joins behind the others, with a tree of a root alone, as [`Tree::with_root`]. Where
    /// an allocation fails, the forest is unchanged.
    pub fn add_server(&mut self, alloc: T::Alloc) -> Result<(), NoMemory>
        requires { length self.old < servers_max }
        ensures ok { OnOk result (self.new ≡ self.old ++ rooted ∷ []) }
        ensures err { OnErr result (self.new ≡ self.old) }
    {
        trees::add_server(alloc, &mut self.trees)?;
        note(&mut self.journal, &ForestChange::AddServer);
        Ok(())
    }

    /// Makes the permissions, owner and group of the server's root these, as [`Tree::set_root`].
    pub fn set_root(&mut self, server: u16, permissions: Permissions, uid: User, gid: User)
        ensures { self.new ≡ tree_changed_at server
            (with_changed 0 (with_owner permissions uid gid)) self.old }
    {
        trees::set_root(&mut self.trees, server, permissions, uid, gid);
        let change = ForestChange::OnServer {
            server,
            change: TreeChange::SetRoot {
                permissions,
                uid,
                gid,
            },
        };
        note(&mut self.journal, &change);
    }

    /// Makes a node of the server with all of these fields, as [`Tree::put_back`]. Where an
    /// allocation fails, the forest is unchanged.
    pub fn put_back(&mut self, server: u16, saved: &Saved<'_>) -> Result<(), NoMemory>
        requires { let was = server_at server self.old in CanPutBack was (saved_node saved.now) }
        ensures ok { OnOk result (self.new
            ≡ tree_changed_at server (put_back (saved_node saved.entry.now)) self.old) }
        ensures err { OnErr result (self.new ≡ self.old) }
    {
        trees::put_back(&mut self.trees, server, saved)?;
        let change = ForestChange::OnServer {
            server,
            change: TreeChange::PutBack {
                saved: saved.copied(),
            },
        };
        note(&mut self.journal, &change);
        Ok(())
    }

    /// Makes this the next number of the server, as [`Tree::skip_to`].
    pub fn skip_to(&mut self, server: u16, next: u64)
        requires more { next_of server self.old ≤ next }
        requires few { next ≤ next_max }
        ensures { self.new ≡ tree_changed_at server (skipped_to next) self.old }
    {
        trees::skip_to(&mut self.trees, server, next);
        let change = ForestChange::OnServer {
            server,
            change: TreeChange::Skip { next },
        };
        note(&mut self.journal, &change);
    }

    /// Takes out a file or an empty directory. Its parent isn't marked.
    pub fn drop_leaf(&mut self, at: NodeRef)
        requires not_root { at.number ≢ 0 }
        requires empty { IsFalse (has_children_of at self.old) }
        ensures { self.new ≡ tree_changed_at at.server (with_dropped at.number) self.old }
    {
        trees::drop_leaf(&mut self.trees, at);
        let change = ForestChange::OnServer {
            server: at.server,
            change: TreeChange::Remove { number: at.number },
        };
        note(&mut self.journal, &change);
    }

    /// Makes all of the change in the node at once, as [`Tree::change`]. An allocation can fail
    /// only where there is a node. The forest is unchanged then.
    pub fn change(&mut self, at: NodeRef, change: &Change) -> Result<(), NoMemory>
        requires { let server = server_at at.server self.old in
            CanChange server at.number change.now }
        ensures ok { OnOk result (self.new
            ≡ forest_changed_at at (changed change.entry.now) self.old) }
        ensures err { OnErr result (self.new ≡ self.old) }
        ensures there { OnErr result (IsTrue
            (exists_at at.number (server_at at.server self.old).nodes)) }
    {
        trees::change(&mut self.trees, at, change)?;
        let made = ForestChange::OnServer {
            server: at.server,
            change: TreeChange::Wstat {
                number: at.number,
                change: *change,
            },
        };
        note(&mut self.journal, &made);
        Ok(())
    }

    /// Marks the node, as [`Tree::bump`].
    pub fn bump(&mut self, at: NodeRef, user: User, clock: u32)
        ensures { self.new ≡ forest_changed_at at (marked user clock) self.old }
    {
        trees::bump(&mut self.trees, at, user, clock);
        let change = ForestChange::OnServer {
            server: at.server,
            change: TreeChange::Mark {
                number: at.number,
                user,
                clock,
            },
        };
        note(&mut self.journal, &change);
    }

    /// Makes the clock reading the time when the file was last read.
    pub fn touch(&mut self, at: NodeRef, clock: u32)
        ensures { self.new ≡ forest_changed_at at (touched clock) self.old }
    {
        trees::touch(&mut self.trees, at, clock);
    }

    /// Writes into a file at the offset, and fills a gap before it with zeros. It isn't marked.
    /// An allocation can fail only where there is a node. The forest is unchanged then.
    pub fn write(&mut self, at: NodeRef, offset: u64, bytes: &[u8]) -> Result<(), NoMemory>
        requires file { IsFalse (is_dir_of at self.old) }
        requires fits { offset + length bytes.now ≤ file_max }
        ensures ok { OnOk result (self.new
            ≡ forest_changed_at at (with_bytes (overwritten offset bytes.now)) self.old) }
        ensures err { OnErr result (self.new ≡ self.old) }
        ensures there { OnErr result (IsTrue
            (exists_at at.number (server_at at.server self.old).nodes)) }
    {
        trees::write(&mut self.trees, at, offset, bytes)?;
        let change = ForestChange::OnServer {
            server: at.server,
            change: TreeChange::Write {
                number: at.number,
                offset,
                bytes,
            },
        };
        note(&mut self.journal, &change);
        Ok(())
    }

    /// Keeps the first `size` bytes of a file, or all where they are fewer. It isn't marked.
    pub fn cut(&mut self, at: NodeRef, size: u64)
        ensures { self.new ≡ forest_changed_at at (with_bytes (cut_to size)) self.old }
    {
        trees::cut(&mut self.trees, at, size);
        let change = ForestChange::OnServer {
            server: at.server,
            change: TreeChange::Truncate {
                number: at.number,
                size,
            },
        };
        note(&mut self.journal, &change);
    }

    /// A forest has at most [`p9_base::SERVERS_MAX`] servers, and each is well-formed. This does
    /// nothing when it runs; it is for a caller that has to know so.
    pub fn well_formed(&self)
        ensures { IsForest self.now }
    {
        let _trees = &self.trees;
    }
}

// Notes a change of a forest, where there is a journal.
fn note<J: Journal>(journal: &mut Option<J>, change: &ForestChange<'_>)
    ensures { (forest : List Server) → KeepsIfAny J.is_whole J.stands_for journal.old forest
        → KeepsIfAny J.is_whole J.stands_for journal.new
        (forest_edited (forest_edit_of change.entry.now) forest) }
{
    if let Some(journal) = journal {
        journal.note(change);
    }
}

// Bounds what a journal holds in memory, where there is one.
fn relieve<J: Journal>(journal: &mut Option<J>)
    ensures { (forest : List Server) → KeepsIfAny J.is_whole J.stands_for journal.old forest
        → KeepsIfAny J.is_whole J.stands_for journal.new forest }
{
    if let Some(journal) = journal {
        journal.relieve();
    }
}

// Makes what was noted outlast the process, where there is a journal.
fn settle<J: Journal>(journal: &mut Option<J>) -> Result<(), Unsettled>
    ensures kept { (forest : List Server) → KeepsIfAny J.is_whole J.stands_for journal.old forest
        → KeepsIfAny J.is_whole J.stands_for journal.new forest }
    ensures settled { OnOk result ((forest : List Server)
        → KeepsIfAny J.is_whole J.stands_for journal.old forest
        → IsSettled J.is_whole J.stands_for J.may_stay forest) }
{
    match journal {
        Some(journal) => journal.settle(),
        None => Err(Unsettled::NoJournal),
    }
}

// Makes what was noted outlast the machine, where there is a journal.
fn sync<J: Journal>(journal: &mut Option<J>) -> Result<(), Unsettled>
    ensures kept { (forest : List Server) → KeepsIfAny J.is_whole J.stands_for journal.old forest
        → KeepsIfAny J.is_whole J.stands_for journal.new forest }
    ensures synced { OnOk result ((forest : List Server)
        → KeepsIfAny J.is_whole J.stands_for journal.old forest
        → IsSynced J.is_whole J.stands_for J.may_stay J.may_stand forest) }
{
    match journal {
        Some(journal) => journal.sync(),
        None => Err(Unsettled::NoJournal),
    }
}
