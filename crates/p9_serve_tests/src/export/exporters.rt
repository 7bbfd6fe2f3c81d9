//! Exporters of small worlds, and the beginnings of sessions.

use crate::export::exchange::{exchange, in_session};
use crate::samples::{Bind, node};
use p9_export::Export;
use p9_space::{MountTable, is_table_given};
use p9_tree::Tree;
use p9_world::{World, read_world};
use std::alloc::{Allocator, Global};
use std::process::Abort;

/// An exporter of the world of a text, whose first server has these binds.
pub fn exporter<T: Tree>(
    rt: &impl Abort,
    alloc: T::Alloc,
    text: &str,
    binds: &[Bind],
) -> Export<T> {
    let world = read_world(alloc, text).expect(rt, "a world");
    let table = table_of(rt, alloc, binds);
    assert!(rt; is_table_given(&world.forest, &table));
    let World {
        forest,
        users,
        groups,
        hidden,
        vars,
        servers,
    } = world;
    drop(hidden);
    drop(vars);
    drop(servers);
    Export::new(forest, users, groups, table)
}

fn table_of<A: Allocator + Copy>(rt: &impl Abort, alloc: A, binds: &[Bind]) -> MountTable<A> {
    let mut table = MountTable::new(alloc);
    for bind in binds {
        let bound = table.bind(node(bind.key), &[node(bind.node)], bind.order, bind.create);
        assert!(rt; bound.is_ok());
    }
    table
}

/// A client asks for an msize of 8,192.
pub const VERSION: &str = "\
13000000 64 ffff 00200000 0600 395032303030 = 13000000 65 ffff 00200000 0600 395032303030";

/// Glenda attaches fid 0.
pub const ATTACH: &str = "\
19000000 68 0100 00000000 ffffffff 0600 676c656e6461 0000 = 14000000 69 0100 80 00000000 \
0000000000000000";

/// A session with its version, and glenda's fid 0 at the root.
pub fn begin<T: Tree>(
    rt: &impl Abort,
    alloc: Global,
    export: &mut Export<T>,
    session: u32,
    reply: &mut [u8],
) {
    export.open(session).expect(rt, "a session");
    exchange(
        rt,
        alloc,
        export,
        0,
        in_session(rt, session, VERSION),
        reply,
    );
    exchange(rt, alloc, export, 0, in_session(rt, session, ATTACH), reply);
}

/// Closes a session, which is open.
pub fn close<T: Tree>(rt: &impl Abort, export: &mut Export<T>, session: u32) {
    assert!(rt; export.live(session));
    export.close(session, 0);
}
