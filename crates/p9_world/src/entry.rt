//! Lines `dir PATH MODE UID GID` and `file PATH MODE UID GID HEX`, which belong to the last server.

ghost use Rattle.std.specs.Prelude.{◌≡◌, ◌≤◌, ◌∷◌, [], IfNone, IfOk, IfSome, IsTrue, false, length};
ghost use Rattle.std.specs.Prelude.{option_map, true};
ghost use Rattle.p9_base.specs.Mode.{is_dir};
ghost use Rattle.p9_tree.specs.Bytes.{file_max};
ghost use Rattle.p9_world.specs.Entry.{are_users, bytes_in, dir_line, file_line, in_last_server};
ghost use Rattle.p9_world.specs.Entry.{with_bytes, with_dir, with_entry};
ghost use Rattle.p9_world.specs.LastDir.{IsWhereNamesLead};
ghost use Rattle.p9_world.specs.Meaning.{Makes};
ghost use Rattle.p9_world.specs.Path.{last_and_rest};

use crate::error::{LineFault, Stop};
use crate::last_dir::LastDir;
use crate::line_words::NodeWords;
use crate::mode::{file_mode_in, permissions_in};
use crate::path::{names_of, take_last};
use crate::reader::Reader;
use p9_base::{Kind, Mode, Name, NoMemory, Permissions, User};
use p9_tree::{FILE_MAX, NEXT_MAX, New, Tree};
use std::alloc::Allocator;

/// A directory joins the last server, or the root of that server is changed.
pub(crate) fn add_dir<T: Tree>(
    alloc: T::Alloc,
    world: &mut Reader<T>,
    words: NodeWords<'_>,
) -> Result<(), Stop>
    ensures { Makes (in_last_server (dir_line words.entry.path.now words.entry.mode.now
        words.entry.uid.now words.entry.gid.now) world.old) world.old world.new result }
{
    let Some(tree) = world.trees.last_mut() else {
        return Err(Stop::Refused(LineFault::NoServer));
    };
    add_dir_to(alloc, tree, &mut world.last_dir, words)
}

/// A file joins the last server.
pub(crate) fn add_file<T: Tree>(
    alloc: T::Alloc,
    world: &mut Reader<T>,
    words: NodeWords<'_>,
    hex: &str,
) -> Result<(), Stop>
    ensures { Makes (in_last_server (file_line words.entry.path.now words.entry.mode.now
        words.entry.uid.now words.entry.gid.now hex.now) world.old) world.old world.new result }
{
    let Some(tree) = world.trees.last_mut() else {
        return Err(Stop::Refused(LineFault::NoServer));
    };
    add_file_to(alloc, tree, &mut world.last_dir, words, hex)
}

// A directory joins the tree, or its root is changed.
fn add_dir_to<T: Tree>(
    alloc: T::Alloc,
    tree: &mut T,
    last_dir: &mut LastDir<T::Alloc>,
    words: NodeWords<'_>,
) -> Result<(), Stop>
    requires { IsWhereNamesLead last_dir.old (T.state tree.old) }
    ensures made { Makes (dir_line words.entry.path.now words.entry.mode.now words.entry.uid.now
        words.entry.gid.now (T.state tree.old)) (T.state tree.old) (T.state tree.new) result }
    ensures next { (T.state tree.old).next ≤ (T.state tree.new).next }
    ensures led { IsWhereNamesLead last_dir.new (T.state tree.new) }
{
    let Some(names) = names_of(alloc, words.path)? else {
        return Err(Stop::Refused(LineFault::BadPath));
    };
    let Some(permissions) = permissions_in(words.mode.as_bytes()) else {
        return Err(Stop::Refused(LineFault::BadMode));
    };
    let Some((uid, gid)) = owners(words.uid, words.gid) else {
        return Err(Stop::Refused(LineFault::BadUser));
    };
    make_dir(tree, last_dir, names, permissions, uid, gid)
}

// The directory of these names, or the root where there is none.
fn make_dir<T: Tree>(
    tree: &mut T,
    last_dir: &mut LastDir<T::Alloc>,
    mut names: Vec<Name, T::Alloc>,
    permissions: Permissions,
    uid: User,
    gid: User,
) -> Result<(), Stop>
    requires { IsWhereNamesLead last_dir.old (T.state tree.old) }
    ensures made { Makes (with_dir (last_and_rest names.items) permissions uid gid (T.state tree.old))
        (T.state tree.old) (T.state tree.new) result }
    ensures next { (T.state tree.old).next ≤ (T.state tree.new).next }
    ensures led { IsWhereNamesLead last_dir.new (T.state tree.new) }
{
    let Some(name) = take_last(&mut names) else {
        tree.set_root(permissions, uid, gid);
        return Ok(());
    };
    let entry = NewNode {
        mode: Mode {
            kind: Kind::Directory,
            permissions,
        },
        uid,
        gid,
        bytes: &[],
    };
    add_entry(tree, last_dir, name, names, &entry)
}

// A file joins the tree.
fn add_file_to<T: Tree>(
    alloc: T::Alloc,
    tree: &mut T,
    last_dir: &mut LastDir<T::Alloc>,
    words: NodeWords<'_>,
    hex: &str,
) -> Result<(), Stop>
    requires { IsWhereNamesLead last_dir.old (T.state tree.old) }
    ensures made { Makes (file_line words.entry.path.now words.entry.mode.now words.entry.uid.now
        words.entry.gid.now hex.now (T.state tree.old)) (T.state tree.old) (T.state tree.new)
        result }
    ensures next { (T.state tree.old).next ≤ (T.state tree.new).next }
    ensures led { IsWhereNamesLead last_dir.new (T.state tree.new) }
{
    let Some(mut names) = names_of(alloc, words.path)? else {
        return Err(Stop::Refused(LineFault::BadPath));
    };
    let Some(name) = take_last(&mut names) else {
        return Err(Stop::Refused(LineFault::BadPath));
    };
    let Some(mode) = file_mode_in(words.mode.as_bytes()) else {
        return Err(Stop::Refused(LineFault::BadMode));
    };
    let Some((uid, gid)) = owners(words.uid, words.gid) else {
        return Err(Stop::Refused(LineFault::BadUser));
    };
    let file = FileWords {
        mode,
        uid,
        gid,
        hex,
    };
    add_file_of(alloc, tree, last_dir, name, names, &file)
}

// What a line says of a file: its mode, owner and group, and the word that writes its bytes.
#[derive(Clone, Copy)]
struct FileWords<'a> {
    mode: Mode,
    uid: User,
    gid: User,
    hex: &'a str,
}

// A file joins the tree, of this name in the directory that the names lead to, with the bytes that a
// word writes.
fn add_file_of<T: Tree>(
    alloc: T::Alloc,
    tree: &mut T,
    last_dir: &mut LastDir<T::Alloc>,
    name: Name,
    names: Vec<Name, T::Alloc>,
    file: &FileWords<'_>,
) -> Result<(), Stop>
    requires led { IsWhereNamesLead last_dir.old (T.state tree.old) }
    requires file { is_dir file.now.mode ≡ false }
    ensures made { Makes (with_bytes name names.items file.now.mode file.now.uid file.now.gid
        file.now.hex.now (T.state tree.old)) (T.state tree.old) (T.state tree.new) result }
    ensures next { (T.state tree.old).next ≤ (T.state tree.new).next }
    ensures led { IsWhereNamesLead last_dir.new (T.state tree.new) }
{
    let Some(bytes) = bytes_in(alloc, file.hex)? else {
        return Err(Stop::Refused(LineFault::BadHex));
    };
    if bytes.len() > FILE_MAX {
        return Err(Stop::Refused(LineFault::TooLarge));
    }
    let entry = NewNode {
        mode: file.mode,
        uid: file.uid,
        gid: file.gid,
        bytes: bytes.as_slice(),
    };
    add_entry(tree, last_dir, name, names, &entry)
}

// The owner and the group that two words name.
fn owners(uid: &str, gid: &str) -> Option<(User, User)>
    ensures some { IfSome result (λ owners.
        (owners ≡ (uid.now, gid.now)) × (are_users uid.now gid.now ≡ true)) }
    ensures none { IfNone result (are_users uid.now gid.now ≡ false) }
{
    Some((User::new(uid)?, User::new(gid)?))
}

// What a line says of a node.
#[derive(Clone, Copy)]
struct NewNode<'a> {
    mode: Mode,
    uid: User,
    gid: User,
    bytes: &'a [u8],
}

// A new node joins the tree, of this name in the directory that the names lead to.
fn add_entry<T: Tree>(
    tree: &mut T,
    last_dir: &mut LastDir<T::Alloc>,
    name: Name,
    names: Vec<Name, T::Alloc>,
    entry: &NewNode<'_>,
) -> Result<(), Stop>
    requires led { IsWhereNamesLead last_dir.old (T.state tree.old) }
    requires small { length entry.now.bytes.now ≤ file_max }
    requires empty_dir { IsTrue (is_dir entry.now.mode) → entry.now.bytes.now ≡ [] }
    ensures made { Makes (with_entry name names.items
        (record {
          mode = entry.now.mode;
          uid = entry.now.uid;
          gid = entry.now.gid;
          bytes = entry.now.bytes.now;
        }) (T.state tree.old)) (T.state tree.old) (T.state tree.new) result }
    ensures next { (T.state tree.old).next ≤ (T.state tree.new).next }
    ensures led { IsWhereNamesLead last_dir.new (T.state tree.new) }
{
    let Some(dir) = last_dir.dir_of(tree, names.as_slice()) else {
        return Err(Stop::Refused(LineFault::NoParent));
    };
    if tree.child(dir, &name).is_some() {
        return Err(Stop::Refused(LineFault::Duplicate));
    }
    if tree.next() >= NEXT_MAX {
        return Err(Stop::Refused(LineFault::TooMany));
    }
    let new = New {
        name,
        mode: entry.mode,
        uid: entry.uid,
        gid: entry.gid,
        muid: entry.uid,
        atime: 0,
        mtime: 0,
        bytes: entry.bytes,
    };
    tree.add(dir, &new)?;
    *last_dir = LastDir { names, number: dir };
    Ok(())
}

// The bytes that a word writes in hexadecimal; `-` writes none.
fn bytes_in<A: Allocator + Copy>(alloc: A, word: &str) -> Result<Option<Vec<u8, A>>, NoMemory>
    ensures { IfOk result (λ found. option_map (λ bytes. bytes.items) found ≡ bytes_in word.now) }
{
    if word == "-" {
        return Ok(Some(Vec::new(alloc)));
    }
    match hex::decode(alloc, word) {
        Ok(bytes) => Ok(Some(bytes)),
        Err(hex::FromHexError::OutOfMemory) => Err(NoMemory),
        Err(_) => Ok(None),
    }
}
