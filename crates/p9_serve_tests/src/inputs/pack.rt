//! Worlds as their text, worlds that differ, and the accounts of sample texts.

use p9_base::{NoMemory, number};
use p9_index::IndexTree;
use p9_pack::{Accounts, is_same_world, unfit_nodes, write_world};
use p9_tree::Tree;
use p9_world::read_world;
use std::alloc::{Allocator, Global};
use std::process::Abort;

const TEXT: &str = "\
server main
dir / 755 sys sys
dir /usr 750 glenda sys
file /usr/gone 644 glenda sys 00
file /usr/log alt406 glenda sys 00ff0a
dir /vault 700 root root
file /vault/key 600 root root 01
server other
dir / 700 rob rob
file /none 644 rob staff -
user glenda
user rob
group staff rob glenda rob
hide main /vault
hide main /usr
";

// Lines of the text, and what another world has in their place.
const OTHERS: [(&str, &str); 9] = [
    ("server other", "server others"),
    ("dir / 700 rob rob", "dir / 701 rob rob"),
    ("file /none 644 rob staff -", "file /none a644 rob staff -"),
    ("file /none 644 rob staff -", "file /none 644 rob rob -"),
    ("file /none 644 rob staff -", "file /none 644 rob staff 00"),
    ("file /none 644 rob staff -\n", ""),
    ("user rob\n", ""),
    ("group staff rob glenda rob", "group staff rob rob"),
    ("hide main /usr", "hide main /"),
];

// A world is written as it was read. It is the same as the world of the first text where that is its
// text, and else not.
fn is_written<T: Tree>(rt: &impl Abort, lent: T::Alloc, text: &str) {
    let first = read_world::<T>(lent, TEXT).expect(rt, "a world");
    let world = read_world::<T>(lent, text).expect(rt, "a world");
    let is_same = text == TEXT;
    assert!(rt;
        is_same_world(&first, &world) == is_same && is_same_world(&world, &first) == is_same
    );
    assert!(rt; unfit_nodes(lent, &world).is_ok_and(|nodes| nodes.is_empty()));
    let mut out = Vec::new(lent);
    assert!(rt; write_world(lent, &world, &mut out).is_ok());
    assert!(rt; out.as_slice() == text.as_bytes());
    drop(first);
    drop(world);
}

// The same, over the program's kind of tree.
fn is_written_over(rt: &impl Abort, alloc: Global, text: &str) {
    is_written::<IndexTree<Global>>(rt, alloc, text);
}

#[test]
fn worlds_are_written_and_told_apart(rt: HostRuntime) {
    is_written_over(&rt, rt.alloc(), TEXT);
    for (line, other) in OTHERS {
        let text = TEXT.replace(rt.alloc(), line, other).expect(&rt, "memory");
        is_written_over(&rt, rt.alloc(), text.as_str());
    }
}

const PASSWD: &str = "\
root:x:0:0:root:/root:/bin/sh
glenda:x:1000:1000::/usr/glenda:/bin/rc
toor:x:0:0:::

rob:x:1001:100
bad:x:-1:0
short:x:7
huge:x:4294967296:0
";

const GROUP: &str = "\
root:x:0:
users:x:100:glenda,rob,,glenda
glenda:x:1000:
wheel:x:0:rob
nine:x:9
";

// A number and a group, and what the accounts say: the names of the user and of the group of the
// number, whether a user has the group's name, and the group's members.
const TOLD: &str = "\
0 root: root root true root toor
100 users: - users false glenda rob
1000 glenda: glenda glenda true glenda
7 wheel: - - false rob root toor
9 none: - - false
1001 rob: rob - true
";

// What the accounts say of a number and a group.
fn told<A: Allocator + Copy>(
    alloc: A,
    accounts: &Accounts<'_, A>,
    id: u32,
    group: &str,
) -> Result<String<A>, NoMemory> {
    let mut told = format!(in alloc;
        "{} {} {}",
        accounts.user_name(id).unwrap_or("-"),
        accounts.group_name(id).unwrap_or("-"),
        accounts.has_user(group)
    )?;
    for member in &accounts.members(alloc, group)? {
        told.push_str(" ")?;
        told.push_str(member)?;
    }
    Ok(told)
}

// The accounts say this.
fn is_told<A: Allocator + Copy>(rt: &impl Abort, alloc: A, accounts: &Accounts<'_, A>, row: &str) {
    let (asked, wanted) = row.split_once(": ").expect(rt, "a row");
    let (id, group) = asked.split_once(' ').expect(rt, "a number and a group");
    let id = number(id, 10_000).expect(rt, "a number") as u32;
    let said = told(alloc, accounts, id, group).expect(rt, "memory");
    assert!(rt; said.as_str() == wanted);
}

#[test]
fn accounts_are_read(rt: HostRuntime) {
    let accounts = Accounts::read(rt.alloc(), PASSWD, GROUP).expect(&rt, "memory");
    for row in TOLD.lines() {
        is_told(&rt, rt.alloc(), &accounts, row);
    }
}
