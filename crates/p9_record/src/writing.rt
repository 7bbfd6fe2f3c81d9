//! Changes put into a buffer, from the index `at` on. All else in the buffer is unchanged, and the
//! index after the change is returned.

ghost use Rattle.std.specs.Prelude.{◌≡◌, ◌≤◌, ◌<◌, ◌+◌, ◌^◌, IsTrue, length, option_map};
ghost use Rattle.std.specs.Option.{ForSome};
ghost use Rattle.p9_base.specs.Name.{is_name};
ghost use Rattle.p9_base.specs.User.{is_user};
ghost use Rattle.p9_wire.specs.Fields.{number, text};
ghost use Rattle.p9_wire.specs.Writing.{Puts};
ghost use Rattle.p9_tree.specs.Edit.{SetRoot, Remove, Wstat, Mark, Write, Truncate, PutBack, Skip};
ghost use Rattle.p9_tree.specs.ForestChange.{forest_edit_of};
ghost use Rattle.p9_tree.specs.Saved.{saved_node};
ghost use Rattle.p9_tree.specs.TreeChange.{edit_of};
ghost use Rattle.p9_record.specs.Record.{FitsChange, FitsEdit, FitsEntry, FitsForestEdit, FitsNode};
ghost use Rattle.p9_record.specs.Record.{change_bytes, data_of, entry_bytes, fixed_max};
ghost use Rattle.p9_record.specs.Record.{forest_data_of, forest_fixed_max, forest_spelling};
ghost use Rattle.p9_record.specs.Record.{mode_bytes, node_bytes, optional, spelling};

use p9_base::{Kind, Mode, Name, Permissions, User};
use p9_tree::{Change, Entry, ForestChange, New, Saved, TreeChange};
use p9_wire::put::{put_counted, put_text, put_u8, put_u16, put_u32, put_u64};

fn put_mode(out: &mut [u8], at: usize, mode: Mode) -> usize
    requires { at + 4 ≤ length out.old }
    ensures next { result ≡ at + 4 }
    ensures bytes { Puts (mode_bytes mode) at result out.old out.new }
{
    put_u32(out, at, mode.bits())
}

#[tactic(auto, using(crate::proofs::Texts::name_short))]
fn put_name(out: &mut [u8], at: usize, name: &Name) -> usize
    requires { at + 257 ≤ length out.old }
    ensures next { result ≤ at + 257 }
    ensures bytes { Puts (text name.now) at result out.old out.new }
    ensures fits { IsTrue (is_name name.now) }
{
    put_text(out, at, name.as_str())
}

#[tactic(auto, using(crate::proofs::Texts::user_short))]
fn put_user(out: &mut [u8], at: usize, user: &User) -> usize
    requires { at + 65 ≤ length out.old }
    ensures next { result ≤ at + 65 }
    ensures bytes { Puts (text user.now) at result out.old out.new }
    ensures fits { IsTrue (is_user user.now) }
{
    put_text(out, at, user.as_str())
}

fn put_optional_name(out: &mut [u8], at: usize, name: &Option<Name>) -> usize
    requires { at + 258 ≤ length out.old }
    ensures next { result ≤ at + 258 }
    ensures bytes { Puts (optional text name.now) at result out.old out.new }
    ensures fits { ForSome name.now (λ name. IsTrue (is_name name)) }
{
    match name {
        None => put_u8(out, at, 0),
        Some(name) => {
            let at = put_u8(out, at, 1);
            put_name(out, at, name)
        }
    }
}

fn put_optional_user(out: &mut [u8], at: usize, user: &Option<User>) -> usize
    requires { at + 66 ≤ length out.old }
    ensures next { result ≤ at + 66 }
    ensures bytes { Puts (optional text user.now) at result out.old out.new }
    ensures fits { ForSome user.now (λ user. IsTrue (is_user user)) }
{
    match user {
        None => put_u8(out, at, 0),
        Some(user) => {
            let at = put_u8(out, at, 1);
            put_user(out, at, user)
        }
    }
}

fn put_optional_mode(out: &mut [u8], at: usize, mode: Option<Mode>) -> usize
    requires { at + 5 ≤ length out.old }
    ensures next { result ≤ at + 5 }
    ensures bytes { Puts (optional mode_bytes mode) at result out.old out.new }
{
    match mode {
        None => put_u8(out, at, 0),
        Some(mode) => {
            let at = put_u8(out, at, 1);
            put_mode(out, at, mode)
        }
    }
}

fn put_optional_u64(out: &mut [u8], at: usize, n: Option<u64>) -> usize
    requires { at + 9 ≤ length out.old }
    ensures next { result ≤ at + 9 }
    ensures bytes { Puts (optional (number 8) n) at result out.old out.new }
    ensures fits { ForSome n (λ n. n < 2 ^ 64) }
{
    match n {
        None => put_u8(out, at, 0),
        Some(n) => {
            let at = put_u8(out, at, 1);
            put_u64(out, at, n)
        }
    }
}

fn put_optional_u32(out: &mut [u8], at: usize, n: Option<u32>) -> usize
    requires { at + 5 ≤ length out.old }
    ensures next { result ≤ at + 5 }
    ensures bytes { Puts (optional (number 4) n) at result out.old out.new }
    ensures fits { ForSome n (λ n. n < 2 ^ 32) }
{
    match n {
        None => put_u8(out, at, 0),
        Some(n) => {
            let at = put_u8(out, at, 1);
            put_u32(out, at, n)
        }
    }
}

#[tactic(auto, unfolding(crate::specs::Record::spelling))]
fn put_set_root(
    out: &mut [u8],
    at: usize,
    permissions: Permissions,
    uid: &User,
    gid: &User,
) -> usize
    requires { at + fixed_max ≤ length out.old }
    ensures next { result ≤ at + fixed_max }
    ensures bytes { Puts (spelling (SetRoot permissions uid.now gid.now)) at result out.old out.new }
    ensures fits { FitsEdit (SetRoot permissions uid.now gid.now) }
{
    let kind = put_u8(out, at, 0);
    let mode = put_mode(
        out,
        kind,
        Mode {
            kind: Kind::Directory,
            permissions,
        },
    );
    let owner = put_user(out, mode, uid);
    put_user(out, owner, gid)
}

#[tactic(auto, unfolding(crate::specs::Record::spelling))]
fn put_create(out: &mut [u8], at: usize, dir: u64, new: &New<'_>) -> usize
    requires small { length new.now.bytes.now < 2 ^ 32 }
    requires room { at + fixed_max + length new.now.bytes.now ≤ length out.old }
    ensures next { result ≤ at + fixed_max + length new.now.bytes.now }
    ensures bytes { Puts (spelling (edit_of (TreeChange.Create dir new.now))) at result out.old
        out.new }
    ensures fits { FitsEdit (edit_of (TreeChange.Create dir new.now)) }
{
    let kind = put_u8(out, at, 1);
    let place = put_u64(out, kind, dir);
    let name = put_name(out, place, &new.name);
    let mode = put_mode(out, name, new.mode);
    let owner = put_user(out, mode, &new.uid);
    let group = put_user(out, owner, &new.gid);
    let changer = put_user(out, group, &new.muid);
    let read = put_u32(out, changer, new.atime);
    let changed = put_u32(out, read, new.mtime);
    put_counted(out, changed, new.bytes)
}

#[tactic(auto, unfolding(crate::specs::Record::spelling))]
fn put_remove(out: &mut [u8], at: usize, number: u64) -> usize
    requires { at + fixed_max ≤ length out.old }
    ensures next { result ≤ at + fixed_max }
    ensures bytes { Puts (spelling (Remove number)) at result out.old out.new }
    ensures fits { FitsEdit (Remove number) }
{
    let kind = put_u8(out, at, 2);
    put_u64(out, kind, number)
}

fn put_fields(out: &mut [u8], at: usize, change: &Change) -> usize
    requires { at + 480 ≤ length out.old }
    ensures next { result ≤ at + 480 }
    ensures bytes { Puts (change_bytes change.now) at result out.old out.new }
    ensures fits { FitsChange change.now }
{
    let name = put_optional_name(out, at, &change.name);
    let mode = put_optional_mode(out, name, change.mode);
    let group = put_optional_user(out, mode, &change.gid);
    let length = put_optional_u64(out, group, change.length);
    let mtime = put_optional_u32(out, length, change.mtime);
    let user = put_user(out, mtime, &change.user);
    put_u32(out, user, change.clock)
}

#[tactic(auto, unfolding(crate::specs::Record::spelling))]
fn put_wstat(out: &mut [u8], at: usize, number: u64, change: &Change) -> usize
    requires { at + fixed_max ≤ length out.old }
    ensures next { result ≤ at + fixed_max }
    ensures bytes { Puts (spelling (Wstat number change.now)) at result out.old out.new }
    ensures fits { FitsEdit (Wstat number change.now) }
{
    let kind = put_u8(out, at, 3);
    let node = put_u64(out, kind, number);
    put_fields(out, node, change)
}

#[tactic(auto, unfolding(crate::specs::Record::spelling))]
fn put_mark(out: &mut [u8], at: usize, number: u64, user: &User, clock: u32) -> usize
    requires { at + fixed_max ≤ length out.old }
    ensures next { result ≤ at + fixed_max }
    ensures bytes { Puts (spelling (Mark number user.now clock)) at result out.old out.new }
    ensures fits { FitsEdit (Mark number user.now clock) }
{
    let kind = put_u8(out, at, 4);
    let node = put_u64(out, kind, number);
    let by = put_user(out, node, user);
    put_u32(out, by, clock)
}

#[tactic(auto, unfolding(crate::specs::Record::spelling))]
fn put_write(out: &mut [u8], at: usize, number: u64, offset: u64, bytes: &[u8]) -> usize
    requires small { length bytes.now < 2 ^ 32 }
    requires room { at + fixed_max + length bytes.now ≤ length out.old }
    ensures next { result ≤ at + fixed_max + length bytes.now }
    ensures bytes { Puts (spelling (Write number offset bytes.now)) at result out.old out.new }
    ensures fits { FitsEdit (Write number offset bytes.now) }
{
    let kind = put_u8(out, at, 5);
    let node = put_u64(out, kind, number);
    let place = put_u64(out, node, offset);
    put_counted(out, place, bytes)
}

#[tactic(auto, unfolding(crate::specs::Record::spelling))]
fn put_truncate(out: &mut [u8], at: usize, number: u64, size: u64) -> usize
    requires { at + fixed_max ≤ length out.old }
    ensures next { result ≤ at + fixed_max }
    ensures bytes { Puts (spelling (Truncate number size)) at result out.old out.new }
    ensures fits { FitsEdit (Truncate number size) }
{
    let kind = put_u8(out, at, 6);
    let node = put_u64(out, kind, number);
    put_u64(out, node, size)
}

fn put_entry(out: &mut [u8], at: usize, entry: &Entry) -> usize
    requires { at + 265 ≤ length out.old }
    ensures next { result ≤ at + 265 }
    ensures bytes { Puts (entry_bytes (entry.now.parent, entry.now.name)) at result out.old out.new }
    ensures fits { FitsEntry (entry.now.parent, entry.now.name) }
{
    let parent = put_u64(out, at, entry.parent);
    put_name(out, parent, &entry.name)
}

fn put_optional_entry(out: &mut [u8], at: usize, entry: &Option<Entry>) -> usize
    requires { at + 266 ≤ length out.old }
    ensures next { result ≤ at + 266 }
    ensures bytes { Puts (optional entry_bytes (option_map (λ e. (e.parent, e.name)) entry.now)) at
        result out.old out.new }
    ensures fits { ForSome (option_map (λ e. (e.parent, e.name)) entry.now) FitsEntry }
{
    match entry {
        None => put_u8(out, at, 0),
        Some(entry) => {
            let at = put_u8(out, at, 1);
            put_entry(out, at, entry)
        }
    }
}

fn put_saved(out: &mut [u8], at: usize, saved: &Saved<'_>) -> usize
    requires small { length saved.now.bytes.now < 2 ^ 32 }
    requires room { at + 511 + length saved.now.bytes.now ≤ length out.old }
    ensures next { result ≤ at + 511 + length saved.now.bytes.now }
    ensures bytes { Puts (node_bytes (saved_node saved.now)) at result out.old out.new }
    ensures fits { FitsNode (saved_node saved.now) }
{
    let number = put_u64(out, at, saved.number);
    let entry = put_optional_entry(out, number, &saved.entry);
    let mode = put_mode(out, entry, saved.mode);
    let owner = put_user(out, mode, &saved.uid);
    let group = put_user(out, owner, &saved.gid);
    let changer = put_user(out, group, &saved.muid);
    let version = put_u32(out, changer, saved.version);
    let read = put_u32(out, version, saved.atime);
    let changed = put_u32(out, read, saved.mtime);
    put_counted(out, changed, saved.bytes)
}

#[tactic(auto, unfolding(crate::specs::Record::spelling))]
fn put_put_back(out: &mut [u8], at: usize, saved: &Saved<'_>) -> usize
    requires small { length saved.now.bytes.now < 2 ^ 32 }
    requires room { at + fixed_max + length saved.now.bytes.now ≤ length out.old }
    ensures next { result ≤ at + fixed_max + length saved.now.bytes.now }
    ensures bytes { Puts (spelling (PutBack (saved_node saved.now))) at result out.old out.new }
    ensures fits { FitsEdit (PutBack (saved_node saved.now)) }
{
    let kind = put_u8(out, at, 7);
    put_saved(out, kind, saved)
}

#[tactic(auto, unfolding(crate::specs::Record::spelling))]
fn put_skip(out: &mut [u8], at: usize, next: u64) -> usize
    requires { at + fixed_max ≤ length out.old }
    ensures next { result ≤ at + fixed_max }
    ensures bytes { Puts (spelling (Skip next)) at result out.old out.new }
    ensures fits { FitsEdit (Skip next) }
{
    let kind = put_u8(out, at, 8);
    put_u64(out, kind, next)
}

// Puts a change of a tree. The buffer has room for the data that it carries, and for 512 bytes more.
fn put_tree_change(out: &mut [u8], at: usize, change: &TreeChange<'_>) -> usize
    requires small { length (data_of (edit_of change.now)) < 2 ^ 32 }
    requires room { at + fixed_max + length (data_of (edit_of change.now)) ≤ length out.old }
    ensures next { result ≤ at + fixed_max + length (data_of (edit_of change.now)) }
    ensures bytes { Puts (spelling (edit_of change.now)) at result out.old out.new }
    ensures fits { FitsEdit (edit_of change.now) }
{
    match change {
        TreeChange::SetRoot {
            permissions,
            uid,
            gid,
        } => put_set_root(out, at, *permissions, uid, gid),
        TreeChange::Create { dir, new } => put_create(out, at, *dir, new),
        TreeChange::Remove { number } => put_remove(out, at, *number),
        TreeChange::Wstat { number, change } => put_wstat(out, at, *number, change),
        TreeChange::Mark {
            number,
            user,
            clock,
        } => put_mark(out, at, *number, user, *clock),
        TreeChange::Write {
            number,
            offset,
            bytes,
        } => put_write(out, at, *number, *offset, bytes),
        TreeChange::Truncate { number, size } => put_truncate(out, at, *number, *size),
        TreeChange::PutBack { saved } => put_put_back(out, at, saved),
        TreeChange::Skip { next } => put_skip(out, at, *next),
    }
}

#[tactic(auto, unfolding(crate::specs::Record::forest_spelling))]
fn put_on_server(out: &mut [u8], at: usize, server: u16, change: &TreeChange<'_>) -> usize
    requires small { length (data_of (edit_of change.now)) < 2 ^ 32 }
    requires room { at + forest_fixed_max + length (data_of (edit_of change.now)) ≤ length out.old }
    ensures next { result ≤ at + forest_fixed_max + length (data_of (edit_of change.now)) }
    ensures bytes { Puts (forest_spelling (forest_edit_of (ForestChange.OnServer server change.now)))
        at result out.old out.new }
    ensures fits { FitsForestEdit (forest_edit_of (ForestChange.OnServer server change.now)) }
{
    let kind = put_u8(out, at, 1);
    let place = put_u16(out, kind, server);
    put_tree_change(out, place, change)
}

#[tactic(auto, unfolding(crate::specs::Record::forest_spelling))]
fn put_add_server(out: &mut [u8], at: usize) -> usize
    requires { at + forest_fixed_max ≤ length out.old }
    ensures next { result ≡ at + 1 }
    ensures bytes { Puts (forest_spelling (forest_edit_of ForestChange.AddServer)) at result out.old out.new }
{
    put_u8(out, at, 0)
}

/// Puts a change of a forest into the buffer at the index, and returns the index after it. All else in
/// the buffer is unchanged.
pub fn put_change(out: &mut [u8], at: usize, change: &ForestChange<'_>) -> usize
    requires small { length (forest_data_of (forest_edit_of change.now)) < 2 ^ 32 }
    requires room { at + forest_fixed_max + length (forest_data_of (forest_edit_of change.now))
        ≤ length out.old }
    ensures next { result ≤ at + forest_fixed_max + length (forest_data_of (forest_edit_of change.now)) }
    ensures bytes { Puts (forest_spelling (forest_edit_of change.now)) at result out.old out.new }
    ensures fits { FitsForestEdit (forest_edit_of change.now) }
{
    match change {
        ForestChange::AddServer => put_add_server(out, at),
        ForestChange::OnServer { server, change } => put_on_server(out, at, *server, change),
    }
}

/// How many bytes of a file a change carries.
pub fn data_len(change: &ForestChange<'_>) -> usize
    ensures { result ≡ length (forest_data_of (forest_edit_of change.now)) }
{
    match change {
        ForestChange::AddServer => 0,
        ForestChange::OnServer { change, .. } => tree_data_len(change),
    }
}

// How many bytes of a file a change of a tree carries.
fn tree_data_len(change: &TreeChange<'_>) -> usize
    ensures { result ≡ length (data_of (edit_of change.now)) }
{
    match change {
        TreeChange::Create { new, .. } => new.bytes.len(),
        TreeChange::Write { bytes, .. } => bytes.len(),
        TreeChange::PutBack { saved } => saved.bytes.len(),
        _ => 0,
    }
}
