//! Nodes are put back. What they are then is proved, but not that there is memory for them.

ghost use Rattle.std.specs.Prelude.{◌≡◌, false};
ghost use Rattle.std.specs.Option.{option_copied, option_map_or};
ghost use Rattle.p9_tree.specs.Node.{is_dir as is_dir_node};

use p9_base::{DMDIR, Mode, Name, NoMemory, User};
use p9_index::IndexTree;
use p9_tree::{Entry, FILE_MAX, NEXT_MAX, Node, PlainTree, Saved, Tree};
use std::alloc::{Allocator, Global};
use std::process::Abort;

// A node's number, the entry that it has, the bits of its mode, and its bytes.
struct Kept<'a> {
    number: u64,
    entry: Option<(u64, &'a str)>,
    mode: u32,
    bytes: &'a [u8],
}

// The root, a directory and a file in it. Numbers are left out between them.
const NODES: [Kept<'static>; 3] = [
    Kept {
        number: 0,
        entry: None,
        mode: DMDIR | 0o700,
        bytes: b"",
    },
    Kept {
        number: 5,
        entry: Some((0, "d")),
        mode: DMDIR | 0o755,
        bytes: b"",
    },
    Kept {
        number: 9,
        entry: Some((5, "f")),
        mode: 0o644,
        bytes: b"hi there",
    },
];

// The nodes come back in a tree of this kind, whose next number is then the one after them.
fn come_back<T: Tree>(rt: &impl Abort, alloc: T::Alloc) {
    let mut tree = T::with_root(alloc).expect(rt, "memory");
    for node in &NODES {
        comes_back(rt, &mut tree, node);
    }
    let next = tree.next();
    drop(tree);
    assert!(rt; next == 10);
}

fn comes_back<T: Tree>(rt: &impl Abort, tree: &mut T, node: &Kept<'_>) {
    let saved = saved_of(rt, node);
    assert!(rt; put_back(rt, tree, &saved).is_ok());
}

fn saved_of<'a>(rt: &impl Abort, node: &Kept<'a>) -> Saved<'a> {
    let user = User::new("glenda").expect(rt, "a user");
    Saved {
        number: node.number,
        entry: node.entry.map(|(parent, name)| Entry {
            parent,
            name: Name::new(name).expect(rt, "a name"),
        }),
        mode: Mode::from_bits(node.mode).expect(rt, "a mode"),
        uid: user,
        gid: user,
        muid: user,
        version: 3,
        atime: 4,
        mtime: 5,
        bytes: node.bytes,
    }
}

fn put_back<T: Tree>(rt: &impl Abort, tree: &mut T, saved: &Saved<'_>) -> Result<(), NoMemory> {
    let Some(Entry { parent, name }) = saved.entry else {
        return tree.put_back(saved);
    };
    assert!(rt; tree.next() <= saved.number && saved.number < NEXT_MAX);
    assert!(rt; is_dir(tree.node(parent)) && tree.child(parent, &name).is_none());
    assert!(rt; saved.bytes.len() <= FILE_MAX && (!saved.mode.is_dir() || saved.bytes.is_empty()));
    tree.put_back(saved)
}

// Whether it is a directory that exists.
fn is_dir<A: Allocator>(found: Option<&Node<A>>) -> bool
    ensures { result ≡ option_map_or is_dir_node (option_copied found.entry) false }
{
    match found {
        Some(node) => node.is_dir(),
        None => false,
    }
}

#[test]
fn nodes_come_back(rt: HostRuntime) {
    come_back::<PlainTree<Global>>(&rt, rt.alloc());
    come_back::<IndexTree<Global>>(&rt, rt.alloc());
}
