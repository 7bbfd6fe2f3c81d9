//! A tree in ordered maps.

ghost use Rattle.std.specs.Prelude.{◌≡◌, IfNone, IfSome, IsSome, OnErr, OnOk};
ghost use Rattle.std.specs.BTreeMap.{values};
ghost use Rattle.std.specs.Option.{ForSome, option_map};
ghost use Rattle.p9_index.specs.Entries.{is_listed, number_at};
ghost use Rattle.p9_index.specs.Tree.{IsIndex, KeepsName, Renames, server_of};
ghost use Rattle.p9_index.specs.Join.{CanJoin};
ghost use Rattle.p9_tree.specs.Saved.{saved_node, with_fields};
ghost use Rattle.p9_tree.specs.Server.{WellFormed, added, child_after, child_of, with_changed};

use crate::entries::Entries;
use crate::kept::KeptNode;
use p9_base::{Name, NoMemory, Permissions, User};
use p9_tree::{Change, Entry, Journal, New, NoJournal, Node, Saved, Tree};
use std::alloc::Allocator;
use std::collections::BTreeMap;
use std::marker::PhantomData;

/// A tree in ordered maps: its nodes by number, and the entries of its directories by number and by
/// name. The time of a call grows with the logarithm of the number of nodes, and that of `add`,
/// `change`, `write`, `put_back` and `read_into` also with the number of bytes that they copy. A
/// forest of such trees may be kept in a journal of type `J`.
#[derive(Drop)]
pub struct IndexTree<A: Allocator + Copy, J: Journal = NoJournal> {
    alloc: A,
    nodes: BTreeMap<u64, KeptNode<A>, A>,
    entries: Entries<A>,
    next: u64,
    journal: PhantomData<J>,
    ghost well_formed: { WellFormed (server_of nodes.entries next) },
    ghost index: { IsIndex nodes.entries (is_listed entries) (number_at entries) },
}

impl<A: Allocator + Copy, J: Journal> Tree for IndexTree<A, J> {
    type Alloc = A;

    type Journal = J;

    ghost state = { λ t. server_of t.nodes.entries t.next };

    ghost well_formed = { λ t. t.well_formed };

    fn with_root(alloc: A) -> Result<Self, NoMemory> {
        let mut nodes = BTreeMap::new(alloc);
        nodes.insert(0, KeptNode::new(alloc, Node::root(alloc))?)?;
        Ok(IndexTree {
            alloc,
            nodes,
            entries: Entries::new(alloc),
            next: 1,
            journal: PhantomData,
        })
    }

    fn next(&self) -> u64 {
        self.next
    }

    fn node(&self, number: u64) -> Option<&Node<A>> {
        Some(self.nodes.get(&number)?.node())
    }

    fn first_from(&self, number: u64) -> Option<&Node<A>> {
        let (_, node) = self.nodes.range(number..).next()?;
        Some(node.node())
    }

    fn child(&self, dir: u64, name: &Name) -> Option<&Node<A>> {
        self.node(self.child_number(dir, name)?)
    }

    fn after(&self, dir: u64, floor: Option<u64>) -> Option<&Node<A>> {
        self.node(self.number_after(dir, floor)?)
    }

    fn set_root(&mut self, permissions: Permissions, uid: User, gid: User) {
        if let Some(node) = self.nodes.get_mut(&0) {
            node.set_owner(permissions, uid, gid);
        }
    }

    fn add(&mut self, dir: u64, new: &New<'_>) -> Result<u64, NoMemory> {
        let number = self.next;
        let node = Node::new(self.alloc, number, dir, new)?;
        let entry = Entry {
            parent: dir,
            name: new.name,
        };
        self.join(entry, number, node)?;
        Ok(number)
    }

    fn put_back(&mut self, saved: &Saved<'_>) -> Result<(), NoMemory> {
        let Some(entry) = saved.entry else {
            self.set_root_fields(saved);
            return Ok(());
        };
        let node = Node::restored(self.alloc, saved)?;
        self.join(entry, saved.number, node)
    }

    fn skip_to(&mut self, next: u64) {
        self.next = next;
    }

    fn drop_leaf(&mut self, number: u64) {
        if let Some(node) = self.nodes.remove(&number) {
            if let Some(left) = node.entry() {
                self.entries.take_out(&left, number);
            }
        }
    }

    fn change(&mut self, number: u64, change: &Change) -> Result<(), NoMemory> {
        let Some(node) = self.nodes.get_mut(&number) else {
            return Ok(());
        };
        let Some(Renaming { from, to }) = renaming_of(node, change) else {
            return node.change(change);
        };
        self.entries.name(to, number)?;
        if node.change(change).is_err() {
            self.entries.unname(&to);
            return Err(NoMemory);
        }
        self.entries.unname(&from);
        Ok(())
    }

    fn bump(&mut self, number: u64, user: User, clock: u32) {
        if let Some(node) = self.nodes.get_mut(&number) {
            node.mark(user, clock);
        }
    }

    fn touch(&mut self, number: u64, clock: u32) {
        if let Some(node) = self.nodes.get_mut(&number) {
            node.touch(clock);
        }
    }

    fn write(&mut self, number: u64, offset: u64, bytes: &[u8]) -> Result<(), NoMemory> {
        if let Some(node) = self.nodes.get_mut(&number) {
            node.write(offset, bytes)?;
        }
        Ok(())
    }

    fn cut(&mut self, number: u64, size: u64) {
        if let Some(node) = self.nodes.get_mut(&number) {
            node.cut(size);
        }
    }

    fn read_into(&self, number: u64, offset: u64, buffer: &mut [u8]) -> usize {
        match self.node(number) {
            Some(node) => node.read_into(offset, buffer),
            None => 0,
        }
    }
}

impl<A: Allocator + Copy, J: Journal> IndexTree<A, J> {
    // The number of the node of this name in the directory.
    fn child_number(&self, dir: u64, name: &Name) -> Option<u64>
        ensures { result
            ≡ option_map (λ n. n.number) (child_of dir name.now (values self.now.nodes)) }
    {
        self.entries.number_at(&Entry {
            parent: dir,
            name: *name,
        })
    }

    // The least number of a node in the directory, above the floor if there is one.
    fn number_after(&self, dir: u64, floor: Option<u64>) -> Option<u64>
        ensures { result
            ≡ option_map (λ n. n.number) (child_after dir floor (values self.now.nodes)) }
    {
        self.entries.number_after(dir, floor)
    }

    // Keeps a node under its number and its entry. No number up to its own is given from then on.
    // Where an allocation fails, the tree is unchanged.
    fn join(&mut self, entry: Entry, number: u64, node: Node<A>) -> Result<(), NoMemory>
        requires { CanJoin self.old.nodes.entries self.old.next entry number node }
        ensures ok { OnOk result (server_of self.new.nodes.entries self.new.next
            ≡ added (server_of self.old.nodes.entries number) node) }
        ensures err { OnErr result (server_of self.new.nodes.entries self.new.next
            ≡ server_of self.old.nodes.entries self.old.next) }
    {
        let kept = KeptNode::new(self.alloc, node)?;
        self.entries.enter(entry, number)?;
        if self.nodes.insert(number, kept).is_err() {
            self.entries.take_out(&entry, number);
            return Err(NoMemory);
        }
        self.next = number + 1;
        Ok(())
    }

    // Gives the root the fields that are saved.
    fn set_root_fields(&mut self, saved: &Saved<'_>)
        ensures { server_of self.new.nodes.entries self.new.next
            ≡ with_changed 0 (with_fields (saved_node saved.entry.now))
            (server_of self.old.nodes.entries self.old.next) }
    {
        let Some(node) = self.nodes.get_mut(&0) else {
            return;
        };
        node.set_fields(saved);
    }
}

// The entry that a node leaves, and the one that it gets in its place.
struct Renaming {
    from: Entry,
    to: Entry,
}

// The renaming of the node by the change, if that gives it another name.
fn renaming_of<A: Allocator>(node: &KeptNode<A>, change: &Change) -> Option<Renaming>
    requires { ForSome change.now.name (λ name. IsSome node.now.parent) }
    ensures some { IfSome result (λ it. Renames it.from it.to change.entry.now node.now) }
    ensures none { IfNone result (KeepsName change.entry.now node.now) }
{
    let name = change.name?;
    let from = node.entry()?;
    if name == from.name {
        None
    } else {
        Some(Renaming {
            from,
            to: Entry { name, ..from },
        })
    }
}
