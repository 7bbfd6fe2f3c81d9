//! Guards of small worlds.
//!
//! Who owns a guard or a world gives it to `drop` at the end, so that how it is dropped is proved
//! once, and not in each owner.

use crate::samples::{Bind, node};
use p9_base::NodeRef;
use p9_cert::{Certificate, read_cert};
use p9_guard::{Cause, Guard};
use p9_space::{MountTable, Order};
use p9_tree::Tree;
use p9_world::{World, read_world};
use std::alloc::Allocator;
use std::process::Abort;

/// The root, which all may write, /empty, which is 1, and /vault, which is 2 and hidden, with a
/// key.
pub const COVERED_VAULT: &str = "\
server main
dir / 777 sys sys
dir /empty 755 sys sys
dir /vault 777 sys sys
file /vault/key 666 sys sys 01
user glenda
hide main /vault
";

/// Node 1 in the place of node 2.
pub const COVER: Bind = Bind {
    key: 2,
    node: 1,
    order: Order::Replace,
    create: false,
};

/// A world, with or without node 3, which is its last and a leaf; its certificate, and a bind.
#[derive(Clone, Copy)]
pub struct Scene<'a> {
    pub world: &'a str,
    pub without_last: bool,
    pub certificate: &'a str,
    pub bind: Option<Bind>,
}

// The world of a text, read again where an allocation failed.
fn world_of<T: Tree>(rt: &impl Abort, lent: T::Alloc, text: &str) -> World<T> {
    match read_world(lent, text) {
        Ok(world) => world,
        Err(_) => read_world(lent, text).expect(rt, "a world"),
    }
}

// Takes node 3, which is the last one and a leaf, out of a world.
fn take_out<T: Tree>(rt: &impl Abort, world: &mut World<T>) {
    let last = node(3);
    drop_leaf(rt, world, last);
    assert!(rt; world.forest.node(last).is_none() && world.forest.next_of(0) == 4);
}

// Takes a file or an empty directory out of its server.
fn drop_leaf<T: Tree>(rt: &impl Abort, world: &mut World<T>, at: NodeRef) {
    assert!(rt; at.number != 0);
    assert!(rt; world.forest.after(at, None).is_none());
    world.forest.drop_leaf(at);
}

// A mount table with a bind, if there is one. It is bound again where an allocation failed.
fn table_of<A: Allocator + Copy>(rt: &impl Abort, lent: A, bind: Option<Bind>) -> MountTable<A> {
    let mut table = MountTable::new(lent);
    if let Some(bind) = bind {
        let (key, nodes) = (node(bind.key), [node(bind.node)]);
        if table.bind(key, &nodes, bind.order, bind.create).is_err() {
            let bound = table.bind(key, &nodes, bind.order, bind.create);
            assert!(rt; bound.is_ok());
        }
    }
    table
}

// The certificate of a text, read again where an allocation failed.
fn certificate_of<A: Allocator + Copy>(rt: &impl Abort, lent: A, text: &str) -> Certificate<A> {
    match read_cert(lent, text) {
        Ok(certificate) => certificate,
        Err(_) => read_cert(lent, text).expect(rt, "a certificate"),
    }
}

/// The guard of a scene, whose certificate is good. It is made again where an allocation failed.
pub fn guard_of<T: Tree>(rt: &impl Abort, lent: T::Alloc, scene: &Scene<'_>) -> Guard<T> {
    let mut world = world_of::<T>(rt, lent, scene.world);
    if scene.without_last {
        take_out(rt, &mut world);
    }
    let table = table_of(rt, lent, scene.bind);
    let certificate = certificate_of(rt, lent, scene.certificate);
    match Guard::new(world, table, certificate) {
        Ok(guard) => guard,
        Err((world, table, cause)) => {
            assert!(rt; cause == Cause::NoMemory);
            let certificate = certificate_of(rt, lent, scene.certificate);
            Guard::new(world, table, certificate)
                .ok()
                .expect(rt, "a guard")
        }
    }
}
