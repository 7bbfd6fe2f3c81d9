//! The changes that make a forest from none, put into the draft of a log.

ghost use Rattle.std.specs.Prelude.{◌≡◌, ◌≤◌, [], ◌∷◌, ◌++◌, List, OnOk, length, map};
ghost use Rattle.p9_base.specs.NodeRef.{servers_max};
ghost use Rattle.p9_tree.specs.ForestChange.{forest_edit_of};
ghost use Rattle.p9_tree.specs.ForestEdit.{forest_edited};
ghost use Rattle.p9_tree.specs.Saved.{put_back};
ghost use Rattle.p9_tree.specs.Server.{Server};
ghost use Rattle.p9_kept.specs.Making.{IsNextOf, IsUntouched, Makes, with_front};

use crate::noting::Noted;
use p9_log::{Device, Log, LogError};
use p9_tree::{ForestChange, Node, Saved, Tree, TreeChange};
use std::alloc::Allocator;

// The most bytes of a file in a change of a draft.
const PIECE_MAX: usize = 1 << 16;

// From so many bytes on what was spelled goes into the draft.
const FLUSHED: usize = 1 << 19;

/// Puts the changes that make a forest from none into the log's draft, which has none yet. They are
/// spelled in a buffer, piece by piece, which is empty then.
pub(crate) fn put_forest<D: Device, A: Allocator, T: Tree>(
    log: &mut Log<D>,
    noted: &mut Noted<A>,
    trees: &[T],
) -> Result<(), LogError>
    requires { length trees.now ≤ servers_max }
    ensures made { OnOk result (Makes (D.drafted log.old.device) noted.old []
        → Makes (D.drafted log.new.device) noted.new (map T.state trees.now)) }
    ensures empty { OnOk result (noted.new ≡ []) }
    ensures usable { log.new.usable ≡ log.old.usable }
    ensures log { IsUntouched D.seen D.moment D.may_leave D.left_since log.old.device
        log.new.device }
{
    for (server, tree) in trees.iter().enumerate() {
        put_tree(log, noted, server as u16, tree)?;
    }
    flush(log, noted)
}

// Puts the changes that make a server behind the others.
fn put_tree<D: Device, A: Allocator, T: Tree>(
    log: &mut Log<D>,
    noted: &mut Noted<A>,
    server: u16,
    tree: &T,
) -> Result<(), LogError>
    ensures made { OnOk result ((front : List Server) → length front ≡ server
        → Makes (D.drafted log.old.device) noted.old front
        → Makes (D.drafted log.new.device) noted.new (front ++ T.state tree.now ∷ [])) }
    ensures usable { log.new.usable ≡ log.old.usable }
    ensures log { IsUntouched D.seen D.moment D.may_leave D.left_since log.old.device
        log.new.device }
{
    put(log, noted, &ForestChange::AddServer)?;
    let mut number = 0;
    while let Some(node) = tree.first_from(number) {
        put_node(log, noted, server, node)?;
        number = node.number() + 1;
    }
    let change = TreeChange::Skip { next: tree.next() };
    put(log, noted, &ForestChange::OnServer { server, change })
}

// Puts the changes that put a node back, with all of its bytes.
fn put_node<D: Device, A: Allocator, N: Allocator>(
    log: &mut Log<D>,
    noted: &mut Noted<A>,
    server: u16,
    node: &Node<N>,
) -> Result<(), LogError>
    ensures made { OnOk result ((front : List Server) (made : Server) → length front ≡ server
        → IsNextOf made node.now
        → Makes (D.drafted log.old.device) noted.old (front ++ made ∷ [])
        → Makes (D.drafted log.new.device) noted.new
        (front ++ put_back node.now made ∷ [])) }
    ensures usable { log.new.usable ≡ log.old.usable }
    ensures log { IsUntouched D.seen D.moment D.may_leave D.left_since log.old.device
        log.new.device }
{
    let first = node.bytes().len().min(PIECE_MAX);
    let saved = Saved {
        bytes: &node.bytes()[..first],
        ..node.saved()
    };
    let change = TreeChange::PutBack { saved };
    put(log, noted, &ForestChange::OnServer { server, change })?;
    put_rest(log, noted, server, node, first)
}

// Puts the changes that write a node's bytes from the index on, in pieces.
fn put_rest<D: Device, A: Allocator, N: Allocator>(
    log: &mut Log<D>,
    noted: &mut Noted<A>,
    server: u16,
    node: &Node<N>,
    from: usize,
) -> Result<(), LogError>
    ensures made { OnOk result ((front : List Server) (made : Server) → length front ≡ server
        → IsNextOf made node.now
        → Makes (D.drafted log.old.device) noted.old
        (front ++ put_back (with_front from node.now) made ∷ [])
        → Makes (D.drafted log.new.device) noted.new
        (front ++ put_back node.now made ∷ [])) }
    ensures usable { log.new.usable ≡ log.old.usable }
    ensures log { IsUntouched D.seen D.moment D.may_leave D.left_since log.old.device
        log.new.device }
{
    let number = node.number();
    let bytes = node.bytes();
    let mut at = from;
    while at < bytes.len() {
        let end = at + (bytes.len() - at).min(PIECE_MAX);
        let change = TreeChange::Write {
            number,
            offset: at as u64,
            bytes: &bytes[at..end],
        };
        put(log, noted, &ForestChange::OnServer { server, change })?;
        at = end;
    }
    Ok(())
}

// Puts a change behind the others, and where they are many all of them into the draft.
fn put<D: Device, A: Allocator>(
    log: &mut Log<D>,
    noted: &mut Noted<A>,
    change: &ForestChange<'_>,
) -> Result<(), LogError>
    ensures made { OnOk result ((forest : List Server)
        → Makes (D.drafted log.old.device) noted.old forest
        → Makes (D.drafted log.new.device) noted.new
        (forest_edited (forest_edit_of change.now) forest)) }
    ensures usable { log.new.usable ≡ log.old.usable }
    ensures log { IsUntouched D.seen D.moment D.may_leave D.left_since log.old.device
        log.new.device }
{
    let Ok(()) = noted.push(change) else {
        return Err(LogError::Memory);
    };
    if noted.len() >= FLUSHED {
        flush(log, noted)?;
    }
    Ok(())
}

// Puts what was spelled into the draft.
fn flush<D: Device, A: Allocator>(log: &mut Log<D>, noted: &mut Noted<A>) -> Result<(), LogError>
    ensures made { OnOk result ((forest : List Server)
        → Makes (D.drafted log.old.device) noted.old forest
        → Makes (D.drafted log.new.device) noted.new forest) }
    ensures empty { OnOk result (noted.new ≡ []) }
    ensures usable { log.new.usable ≡ log.old.usable }
    ensures log { IsUntouched D.seen D.moment D.may_leave D.left_since log.old.device
        log.new.device }
{
    noted.add_to_draft(log)
}
