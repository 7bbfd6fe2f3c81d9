//! Changes taken from the front of bytes. Each function returns its value and the bytes after it, or
//! `None` where the bytes begin with no such value.

ghost use Rattle.std.specs.Prelude.{◌≡◌, option_map};
ghost use Rattle.p9_wire.specs.FieldReading.{Gives, number_at};
ghost use Rattle.p9_tree.specs.ForestChange.{forest_edit_of};
ghost use Rattle.p9_tree.specs.Saved.{saved_node};
ghost use Rattle.p9_tree.specs.TreeChange.{edit_of};
ghost use Rattle.p9_record.specs.RecordReading.{body_at, change_at, create_at, edit_at, entry_at};
ghost use Rattle.p9_record.specs.RecordReading.{forest_body_at, forest_edit_at, mark_at, mode_at};
ghost use Rattle.p9_record.specs.RecordReading.{name_at, node_at, on_server_at, optional_at, permissions_at};
ghost use Rattle.p9_record.specs.RecordReading.{put_back_at, remove_at, set_root_at, skip_at};
ghost use Rattle.p9_record.specs.RecordReading.{truncate_at, user_at, write_at, wstat_at};

use p9_base::{Mode, Name, Permissions, User};
use p9_fields::{take_counted, take_text, take_u8, take_u16, take_u32, take_u64};
use p9_tree::{Change, Entry, ForestChange, New, Saved, TreeChange};

#[tactic(auto, unfolding(crate::specs::RecordReading::name_at))]
fn take_name(bytes: &[u8]) -> Option<(Name, &[u8])>
    ensures { Gives (λ x. (x.0, x.1.now)) result (name_at bytes.now) }
{
    let (text, rest) = take_text(bytes)?;
    let name = Name::new(text)?;
    Some((name, rest))
}

#[tactic(auto, unfolding(crate::specs::RecordReading::user_at))]
fn take_user(bytes: &[u8]) -> Option<(User, &[u8])>
    ensures { Gives (λ x. (x.0, x.1.now)) result (user_at bytes.now) }
{
    let (text, rest) = take_text(bytes)?;
    let user = User::new(text)?;
    Some((user, rest))
}

#[tactic(auto, unfolding(crate::specs::RecordReading::mode_at))]
fn take_mode(bytes: &[u8]) -> Option<(Mode, &[u8])>
    ensures { Gives (λ x. (x.0, x.1.now)) result (mode_at bytes.now) }
{
    let (bits, rest) = take_u32(bytes)?;
    let mode = Mode::from_bits(bits)?;
    Some((mode, rest))
}

#[tactic(auto, unfolding(crate::specs::RecordReading::optional_at))]
fn take_optional_name(bytes: &[u8]) -> Option<(Option<Name>, &[u8])>
    ensures { Gives (λ x. (x.0, x.1.now)) result (optional_at name_at bytes.now) }
{
    let (is_there, rest) = take_u8(bytes)?;
    if is_there == 0 {
        return Some((None, rest));
    }
    if is_there != 1 {
        return None;
    }
    let Some((name, rest)) = take_name(rest) else {
        return None;
    };
    Some((Some(name), rest))
}

#[tactic(auto, unfolding(crate::specs::RecordReading::optional_at))]
fn take_optional_user(bytes: &[u8]) -> Option<(Option<User>, &[u8])>
    ensures { Gives (λ x. (x.0, x.1.now)) result (optional_at user_at bytes.now) }
{
    let (is_there, rest) = take_u8(bytes)?;
    if is_there == 0 {
        return Some((None, rest));
    }
    if is_there != 1 {
        return None;
    }
    let Some((user, rest)) = take_user(rest) else {
        return None;
    };
    Some((Some(user), rest))
}

#[tactic(auto, unfolding(crate::specs::RecordReading::optional_at))]
fn take_optional_mode(bytes: &[u8]) -> Option<(Option<Mode>, &[u8])>
    ensures { Gives (λ x. (x.0, x.1.now)) result (optional_at mode_at bytes.now) }
{
    let (is_there, rest) = take_u8(bytes)?;
    if is_there == 0 {
        return Some((None, rest));
    }
    if is_there != 1 {
        return None;
    }
    let (mode, rest) = take_mode(rest)?;
    Some((Some(mode), rest))
}

#[tactic(auto, unfolding(crate::specs::RecordReading::optional_at))]
fn take_optional_u64(bytes: &[u8]) -> Option<(Option<u64>, &[u8])>
    ensures { Gives (λ x. (x.0, x.1.now)) result (optional_at (number_at 8) bytes.now) }
{
    let (is_there, rest) = take_u8(bytes)?;
    if is_there == 0 {
        return Some((None, rest));
    }
    if is_there != 1 {
        return None;
    }
    let (n, rest) = take_u64(rest)?;
    Some((Some(n), rest))
}

#[tactic(auto, unfolding(crate::specs::RecordReading::optional_at))]
fn take_optional_u32(bytes: &[u8]) -> Option<(Option<u32>, &[u8])>
    ensures { Gives (λ x. (x.0, x.1.now)) result (optional_at (number_at 4) bytes.now) }
{
    let (is_there, rest) = take_u8(bytes)?;
    if is_there == 0 {
        return Some((None, rest));
    }
    if is_there != 1 {
        return None;
    }
    let (n, rest) = take_u32(rest)?;
    Some((Some(n), rest))
}

#[tactic(auto, unfolding(crate::specs::RecordReading::change_at))]
fn take_fields(bytes: &[u8]) -> Option<(Change, &[u8])>
    ensures { Gives (λ x. (x.0, x.1.now)) result (change_at bytes.now) }
{
    let Some((name, rest)) = take_optional_name(bytes) else {
        return None;
    };
    let (mode, rest) = take_optional_mode(rest)?;
    let Some((gid, rest)) = take_optional_user(rest) else {
        return None;
    };
    let (length, rest) = take_optional_u64(rest)?;
    let (mtime, rest) = take_optional_u32(rest)?;
    let Some((user, rest)) = take_user(rest) else {
        return None;
    };
    let (clock, rest) = take_u32(rest)?;
    let change = Change {
        name,
        mode,
        gid,
        length,
        mtime,
        user,
        clock,
    };
    Some((change, rest))
}

#[tactic(auto, unfolding(crate::specs::RecordReading::permissions_at))]
fn take_permissions(bytes: &[u8]) -> Option<(Permissions, &[u8])>
    ensures { Gives (λ x. (x.0, x.1.now)) result (permissions_at bytes.now) }
{
    let (mode, rest) = take_mode(bytes)?;
    if !mode.is_dir() {
        return None;
    }
    Some((mode.permissions, rest))
}

#[tactic(auto, unfolding(crate::specs::RecordReading::set_root_at))]
fn set_root(bytes: &[u8]) -> Option<(TreeChange<'_>, &[u8])>
    ensures { Gives (λ x. (edit_of x.0, x.1.now)) result (set_root_at bytes.now) }
{
    let (permissions, rest) = take_permissions(bytes)?;
    let Some((uid, rest)) = take_user(rest) else {
        return None;
    };
    let Some((gid, rest)) = take_user(rest) else {
        return None;
    };
    Some((
        TreeChange::SetRoot {
            permissions,
            uid,
            gid,
        },
        rest,
    ))
}

#[tactic(auto, unfolding(crate::specs::RecordReading::create_at))]
fn create(bytes: &[u8]) -> Option<(TreeChange<'_>, &[u8])>
    ensures { Gives (λ x. (edit_of x.0, x.1.now)) result (create_at bytes.now) }
{
    let (dir, rest) = take_u64(bytes)?;
    let Some((name, rest)) = take_name(rest) else {
        return None;
    };
    let (mode, rest) = take_mode(rest)?;
    let Some((uid, rest)) = take_user(rest) else {
        return None;
    };
    let Some((gid, rest)) = take_user(rest) else {
        return None;
    };
    let Some((muid, rest)) = take_user(rest) else {
        return None;
    };
    let (atime, rest) = take_u32(rest)?;
    let (mtime, rest) = take_u32(rest)?;
    let (bytes, rest) = take_counted(rest)?;
    let new = New {
        name,
        mode,
        uid,
        gid,
        muid,
        atime,
        mtime,
        bytes,
    };
    Some((TreeChange::Create { dir, new }, rest))
}

#[tactic(auto, unfolding(crate::specs::RecordReading::remove_at))]
fn remove(bytes: &[u8]) -> Option<(TreeChange<'_>, &[u8])>
    ensures { Gives (λ x. (edit_of x.0, x.1.now)) result (remove_at bytes.now) }
{
    let (number, rest) = take_u64(bytes)?;
    Some((TreeChange::Remove { number }, rest))
}

#[tactic(auto, unfolding(crate::specs::RecordReading::wstat_at))]
fn wstat(bytes: &[u8]) -> Option<(TreeChange<'_>, &[u8])>
    ensures { Gives (λ x. (edit_of x.0, x.1.now)) result (wstat_at bytes.now) }
{
    let (number, rest) = take_u64(bytes)?;
    let Some((change, rest)) = take_fields(rest) else {
        return None;
    };
    Some((TreeChange::Wstat { number, change }, rest))
}

#[tactic(auto, unfolding(crate::specs::RecordReading::mark_at))]
fn mark(bytes: &[u8]) -> Option<(TreeChange<'_>, &[u8])>
    ensures { Gives (λ x. (edit_of x.0, x.1.now)) result (mark_at bytes.now) }
{
    let (number, rest) = take_u64(bytes)?;
    let Some((user, rest)) = take_user(rest) else {
        return None;
    };
    let (clock, rest) = take_u32(rest)?;
    Some((
        TreeChange::Mark {
            number,
            user,
            clock,
        },
        rest,
    ))
}

#[tactic(auto, unfolding(crate::specs::RecordReading::write_at))]
fn write(bytes: &[u8]) -> Option<(TreeChange<'_>, &[u8])>
    ensures { Gives (λ x. (edit_of x.0, x.1.now)) result (write_at bytes.now) }
{
    let (number, rest) = take_u64(bytes)?;
    let (offset, rest) = take_u64(rest)?;
    let (bytes, rest) = take_counted(rest)?;
    Some((
        TreeChange::Write {
            number,
            offset,
            bytes,
        },
        rest,
    ))
}

#[tactic(auto, unfolding(crate::specs::RecordReading::truncate_at))]
fn truncate(bytes: &[u8]) -> Option<(TreeChange<'_>, &[u8])>
    ensures { Gives (λ x. (edit_of x.0, x.1.now)) result (truncate_at bytes.now) }
{
    let (number, rest) = take_u64(bytes)?;
    let (size, rest) = take_u64(rest)?;
    Some((TreeChange::Truncate { number, size }, rest))
}

#[tactic(auto, unfolding(crate::specs::RecordReading::entry_at))]
fn take_entry(bytes: &[u8]) -> Option<(Entry, &[u8])>
    ensures { Gives (λ x. ((x.0.parent, x.0.name), x.1.now)) result (entry_at bytes.now) }
{
    let (parent, rest) = take_u64(bytes)?;
    let Some((name, rest)) = take_name(rest) else {
        return None;
    };
    Some((Entry { parent, name }, rest))
}

#[tactic(auto, unfolding(crate::specs::RecordReading::optional_at))]
fn take_optional_entry(bytes: &[u8]) -> Option<(Option<Entry>, &[u8])>
    ensures { Gives (λ x. (option_map (λ e. (e.parent, e.name)) x.0, x.1.now)) result
        (optional_at entry_at bytes.now) }
{
    let (is_there, rest) = take_u8(bytes)?;
    if is_there == 0 {
        return Some((None, rest));
    }
    if is_there != 1 {
        return None;
    }
    let Some((entry, rest)) = take_entry(rest) else {
        return None;
    };
    Some((Some(entry), rest))
}

#[tactic(auto, unfolding(crate::specs::RecordReading::node_at))]
fn take_saved(bytes: &[u8]) -> Option<(Saved<'_>, &[u8])>
    ensures { Gives (λ x. (saved_node x.0, x.1.now)) result (node_at bytes.now) }
{
    let (number, rest) = take_u64(bytes)?;
    let Some((entry, rest)) = take_optional_entry(rest) else {
        return None;
    };
    let (mode, rest) = take_mode(rest)?;
    let Some((uid, rest)) = take_user(rest) else {
        return None;
    };
    let Some((gid, rest)) = take_user(rest) else {
        return None;
    };
    let Some((muid, rest)) = take_user(rest) else {
        return None;
    };
    let (version, rest) = take_u32(rest)?;
    let (atime, rest) = take_u32(rest)?;
    let (mtime, rest) = take_u32(rest)?;
    let (bytes, rest) = take_counted(rest)?;
    let saved = Saved {
        number,
        entry,
        mode,
        uid,
        gid,
        muid,
        version,
        atime,
        mtime,
        bytes,
    };
    Some((saved, rest))
}

#[tactic(auto, unfolding(crate::specs::RecordReading::put_back_at))]
fn put_back(bytes: &[u8]) -> Option<(TreeChange<'_>, &[u8])>
    ensures { Gives (λ x. (edit_of x.0, x.1.now)) result (put_back_at bytes.now) }
{
    let Some((saved, rest)) = take_saved(bytes) else {
        return None;
    };
    Some((TreeChange::PutBack { saved }, rest))
}

#[tactic(auto, unfolding(crate::specs::RecordReading::skip_at))]
fn skip(bytes: &[u8]) -> Option<(TreeChange<'_>, &[u8])>
    ensures { Gives (λ x. (edit_of x.0, x.1.now)) result (skip_at bytes.now) }
{
    let (next, rest) = take_u64(bytes)?;
    Some((TreeChange::Skip { next }, rest))
}

#[tactic(auto, unfolding(crate::specs::RecordReading::body_at))]
fn body_of(kind: u8, bytes: &[u8]) -> Option<(TreeChange<'_>, &[u8])>
    ensures { Gives (λ x. (edit_of x.0, x.1.now)) result (body_at kind bytes.now) }
{
    match kind {
        0 => set_root(bytes),
        1 => create(bytes),
        2 => remove(bytes),
        3 => wstat(bytes),
        4 => mark(bytes),
        5 => write(bytes),
        6 => truncate(bytes),
        7 => put_back(bytes),
        8 => skip(bytes),
        _ => None,
    }
}

// The change of a tree that the bytes begin with.
#[tactic(auto, unfolding(crate::specs::RecordReading::edit_at))]
fn take_tree_change(bytes: &[u8]) -> Option<(TreeChange<'_>, &[u8])>
    ensures { Gives (λ x. (edit_of x.0, x.1.now)) result (edit_at bytes.now) }
{
    let (kind, rest) = take_u8(bytes)?;
    body_of(kind, rest)
}

#[tactic(auto, unfolding(crate::specs::RecordReading::on_server_at))]
fn on_server(bytes: &[u8]) -> Option<(ForestChange<'_>, &[u8])>
    ensures { Gives (λ x. (forest_edit_of x.0, x.1.now)) result (on_server_at bytes.now) }
{
    let (server, rest) = take_u16(bytes)?;
    let Some((change, rest)) = take_tree_change(rest) else {
        return None;
    };
    Some((ForestChange::OnServer { server, change }, rest))
}

#[tactic(auto, unfolding(crate::specs::RecordReading::forest_body_at))]
fn forest_body_of(kind: u8, bytes: &[u8]) -> Option<(ForestChange<'_>, &[u8])>
    ensures { Gives (λ x. (forest_edit_of x.0, x.1.now)) result (forest_body_at kind bytes.now) }
{
    match kind {
        0 => Some((ForestChange::AddServer, bytes)),
        1 => on_server(bytes),
        _ => None,
    }
}

/// The change of a forest that the bytes begin with, and the bytes after it. It is `None` where
/// they begin with no such change.
#[tactic(auto, unfolding(crate::specs::RecordReading::forest_edit_at))]
pub fn take_change(bytes: &[u8]) -> Option<(ForestChange<'_>, &[u8])>
    ensures { Gives (λ x. (forest_edit_of x.0, x.1.now)) result (forest_edit_at bytes.now) }
{
    let (kind, rest) = take_u8(bytes)?;
    forest_body_of(kind, rest)
}
