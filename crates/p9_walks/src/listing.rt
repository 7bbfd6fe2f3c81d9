//! The entries of a directory, over a union, as read(5). A read goes on in the member where the last
//! one ended, and takes the next member at its end. It takes no memory.

ghost use Rattle.std.specs.Prelude.{◌≡◌, ◌≢◌, ◌≤◌, ◌<◌, ◌+◌, ◌^◌, [], IfErr, IfOk, IfSome, OnOk};
ghost use Rattle.std.specs.Prelude.{filter, length, map, take};
ghost use Rattle.std.specs.List.{flat_map};
ghost use Rattle.p9_base.specs.NodeRef.{beside};
ghost use Rattle.p9_base.specs.declared.fault.Fault.TheVariants.{SmallReadCount};
ghost use Rattle.p9_tree.specs.Forest.{children_of};
ghost use Rattle.p9_wire.specs.Fields.{stat_bytes};
ghost use Rattle.p9_space.specs.Rights.{who_view};
ghost use Rattle.p9_step.specs.Listing.{entries_of, entry_at, is_behind, is_listed, left_of};
ghost use Rattle.p9_step.specs.Read.{cursor_after, entry_bytes, fitting};
ghost use Rattle.p9_step.specs.Qid.{stat_of};
ghost use Rattle.p9_walks.specs.Listing.{Fills, IsFloor, IsReached, PutsStat};

use crate::qid::stat_of;
use p9_base::{Fault, NodeRef};
use p9_fids::Cursor;
use p9_space::{Member, TO_READ, Who, may};
use p9_tree::{Forest, Node, Tree};
use p9_wire::write_stat;
use std::alloc::Allocator;

/// What a read of a directory put into the buffer.
#[derive(Clone, Copy)]
pub struct Filled {
    /// So many bytes at the front of the buffer.
    pub size: usize,
    /// The last entry of this read or one before.
    pub cursor: Option<Cursor>,
    /// Whether an entry is left that has no room.
    pub is_full: bool,
}

/// Puts as many whole entries after the cursor as have room at the front of the buffer.
///
/// Where entries are left and the first has no room it is [`Fault::SmallReadCount`].
pub fn list<T: Tree>(
    forest: &Forest<T>,
    members: &[Member],
    who: Who<'_, T::Alloc>,
    cursor: Option<Cursor>,
    buffer: &mut [u8],
) -> Result<Filled, Fault>
    ensures size { IfOk result (λ filled. filled.size ≤ length buffer.old) }
    ensures bytes { let left = left_of forest.now (who_view who.entry) cursor members.now in
        IfOk result (λ filled. take filled.size buffer.new
        ≡ flat_map entry_bytes (fitting (length buffer.old) left)) }
    ensures cursor { let left = left_of forest.now (who_view who.entry) cursor members.now in
        IfOk result (λ filled. filled.cursor
        ≡ cursor_after cursor (fitting (length buffer.old) left)) }
    ensures ok { let left = left_of forest.now (who_view who.entry) cursor members.now in
        OnOk result (fitting (length buffer.old) left ≡ [] → left ≡ []) }
    ensures err { let left = left_of forest.now (who_view who.entry) cursor members.now in
        IfErr result (λ fault. (fault ≡ SmallReadCount) × (left ≢ []) ×
        (fitting (length buffer.old) left ≡ [])) }
{
    let filled = fill(forest, members, who, cursor, buffer);
    if filled.is_full && filled.size == 0 {
        return Err(Fault::SmallReadCount);
    }
    Ok(filled)
}

// As many whole entries after the cursor as have room, of its member and those after that.
fn fill<T: Tree>(
    forest: &Forest<T>,
    members: &[Member],
    who: Who<'_, T::Alloc>,
    cursor: Option<Cursor>,
    buffer: &mut [u8],
) -> Filled
    ensures { Fills (length buffer.old) (left_of forest.now (who_view who.entry) cursor members.now)
        cursor buffer.new result }
{
    forest.well_formed();
    let mut filled = Filled {
        size: 0,
        cursor,
        is_full: false,
    };
    for position in first_position(cursor)..members.len() {
        let more = fill_member(
            forest,
            position,
            members[position],
            who,
            filled.cursor,
            &mut buffer[filled.size..],
        );
        filled = Filled {
            size: filled.size + more.size,
            cursor: more.cursor,
            is_full: more.is_full,
        };
        if more.is_full {
            return filled;
        }
    }
    filled
}

// The position of the member where the last read ended.
fn first_position(cursor: Option<Cursor>) -> usize
    ensures { IsReached cursor result }
{
    match cursor {
        Some(last) => last.member,
        None => 0,
    }
}

// As many whole entries of the member after the cursor as have room, if it is listed.
fn fill_member<T: Tree>(
    forest: &Forest<T>,
    position: usize,
    member: Member,
    who: Who<'_, T::Alloc>,
    cursor: Option<Cursor>,
    buffer: &mut [u8],
) -> Filled
    requires { IfSome cursor (λ last. last.member ≤ position) }
    ensures { Fills (length buffer.old) (filter (is_behind cursor)
        (entries_of forest.now (who_view who.entry) position member)) cursor buffer.new result }
{
    if is_listed(forest, position, member, who) {
        fill_dir(forest, position, member.node, cursor, buffer)
    } else {
        Filled {
            size: 0,
            cursor,
            is_full: false,
        }
    }
}

// As many whole entries of the directory after the cursor as have room.
fn fill_dir<T: Tree>(
    forest: &Forest<T>,
    position: usize,
    dir: NodeRef,
    cursor: Option<Cursor>,
    buffer: &mut [u8],
) -> Filled
    requires { IfSome cursor (λ last. last.member ≤ position) }
    ensures { Fills (length buffer.old) (filter (is_behind cursor) (map (entry_at position dir)
        (children_of dir forest.now))) cursor buffer.new result }
{
    forest.well_formed();
    let mut filled = Filled {
        size: 0,
        cursor,
        is_full: false,
    };
    while let Some(node) = forest.after(dir, floor_in(filled.cursor, position)) {
        let Some(size) = put_stat(dir, node, &mut buffer[filled.size..]) else {
            return Filled {
                is_full: true,
                ..filled
            };
        };
        filled.size += size;
        filled.cursor = Some(Cursor {
            member: position,
            number: node.number(),
        });
    }
    filled
}

// The number above which the entries of the member at the position are after the cursor.
fn floor_in(cursor: Option<Cursor>, position: usize) -> Option<u64>
    requires { IfSome cursor (λ last. last.member ≤ position) }
    ensures { IsFloor cursor position result }
{
    match cursor {
        Some(last) if last.member == position => Some(last.number),
        _ => None,
    }
}

// Puts the stat of a node of the directory at the front of the buffer, if it has room, and returns
// its size.
fn put_stat<A: Allocator>(dir: NodeRef, node: &Node<A>, buffer: &mut [u8]) -> Option<usize>
    requires { node.now.number < 2 ^ 48 }
    ensures { PutsStat (stat_bytes (stat_of (beside dir node.now.number) node.now)) buffer.old
        buffer.new result }
{
    let stat = stat_of(dir.beside(node.number()), node);
    if stat.size() > buffer.len() {
        return None;
    }
    Some(write_stat(&stat, buffer))
}

// Whether the member is an alive directory that the user may read; the first without this test.
fn is_listed<T: Tree>(
    forest: &Forest<T>,
    position: usize,
    member: Member,
    who: Who<'_, T::Alloc>,
) -> bool
    ensures { result ≡ is_listed forest.now (who_view who.entry) position member }
{
    match forest.node(member.node) {
        Some(node) => node.is_dir() && (position == 0 || may(who, node, TO_READ)),
        None => false,
    }
}
