//! The gap of a certificate whose mount table has a node that no server gave.

use crate::samples::CERTIFICATE;
use p9_base::{NodeRef, number};
use p9_cert::{read_cert, verify};
use p9_index::IndexTree;
use p9_space::{MountTable, Order};
use p9_tree::Tree;
use p9_world::read_world;
use std::alloc::Global;
use std::process::Abort;

// The root and a directory, which is 1. The certificate is of both.
const WORLD: &str = "\
server main
dir /a 755 sys sys
user glenda
";

// A node of server 0 with what is bound in its place, as numbers, and the gap: the first of them
// that no server gave. The gap comes before all others.
const ROWS: &str = "\
2 1 = gap table 0 2
1 9 = gap table 0 9
4 5 = gap table 0 4
1 0 = ok
";

// The node of server 0 of a number.
fn node_of(rt: &impl Abort, word: &str) -> NodeRef {
    NodeRef {
        server: 0,
        number: number(word, 100).expect(rt, "a number"),
    }
}

// The certificate has this gap over the world and a mount table.
fn is_found<T: Tree>(rt: &impl Abort, alloc: Global, lent: T::Alloc, row: &str) {
    let (nodes, wanted) = row.split_once(" = ").expect(rt, "a gap");
    let (key, member) = nodes.split_once(' ').expect(rt, "two nodes");
    let world = read_world::<T>(lent, WORLD).expect(rt, "a world");
    let certificate = read_cert(lent, CERTIFICATE).expect(rt, "a certificate");
    let mut table = MountTable::new(lent);
    let (key, members) = (node_of(rt, key), [node_of(rt, member)]);
    assert!(rt; table.bind(key, &members, Order::Replace, false).is_ok());
    let told = match verify(&world, &table, &certificate) {
        Ok(()) => String::from_str(alloc, "ok"),
        Err(gap) => format!(in alloc; "{gap}"),
    };
    drop(world);
    drop(certificate);
    drop(table);
    assert!(rt; told.expect(rt, "memory").as_str() == wanted);
}

// The same, over the program's kind of tree.
fn is_found_over(rt: &impl Abort, alloc: Global, row: &str) {
    is_found::<IndexTree<Global>>(rt, alloc, alloc, row);
}

#[test]
fn what_no_server_gave_is_a_gap(rt: HostRuntime) {
    for row in ROWS.lines() {
        is_found_over(&rt, rt.alloc(), row);
    }
}
