//! The blocks of a file are read.

ghost use Rattle.std.specs.Prelude.{◌≡◌, drop, IfOk, length};
ghost use Rattle.p9_log.specs.Blocks.{Gives, behind, block_at, bytes_at, counts, sized_at};
ghost use Rattle.p9_log.specs.Reading.{IsFound, closed_at, len_without_zeros};

use crate::crash::Crash;
use byteorder::{ByteOrder, LittleEndian};
use std::alloc::{AllocError, Allocator};

/// What is in the blocks of a file, and where they are.
#[derive(Drop)]
pub(crate) struct Found<A: Allocator> {
    pub(crate) bytes: Vec<u8, A>,
    /// Where the blocks end.
    pub(crate) end: usize,
    /// How many bytes are behind them.
    pub(crate) behind: usize,
    /// How many of these there are up to the last that isn't 0.
    pub(crate) left_out: usize,
    /// Where a closed sync gate is before some of them.
    pub(crate) kept: Option<usize>,
}

/// The bytes of all blocks that count.
pub(crate) fn read_blocks<A: Allocator>(
    alloc: A,
    file: &[u8],
    how: Crash,
) -> Result<Found<A>, AllocError>
    ensures found { IfOk result (λ found. IsFound how file.now found.bytes.items found.end
        found.behind found.kept) }
    ensures left_out { IfOk result (λ found.
        found.left_out ≡ len_without_zeros (drop found.end file.now)) }
{
    let mut bytes = Vec::new(alloc);
    let mut mode = how;
    let mut rest = file;
    let mut kept = None;
    while let Some((block, after, behind)) = next_block(mode, rest) {
        bytes.extend_from_slice(block)?;
        kept = closed_gate(mode, after, file.len() - rest.len(), kept);
        mode = after;
        rest = behind;
    }
    Ok(Found {
        bytes,
        end: file.len() - rest.len(),
        behind: rest.len(),
        left_out: len_without_zeros(rest),
        kept,
    })
}

/// How many bytes there are up to the last that isn't 0.
fn len_without_zeros(bytes: &[u8]) -> usize
    ensures { result ≡ len_without_zeros bytes.now }
{
    let zeros = bytes.iter().rev().take_while(|byte| **byte == 0).count();
    bytes.len() - zeros
}

fn closed_gate(mode: Crash, after: Crash, at: usize, kept: Option<usize>) -> Option<usize>
    ensures { result ≡ closed_at mode after at kept }
{
    match (mode, after) {
        (Crash::Killed, Crash::Stopped) => Some(at),
        _ => kept,
    }
}

/// The bytes of the first block, how the blocks behind it are read, and what is behind it. It is None
/// where there is no whole block that counts.
fn next_block(how: Crash, bytes: &[u8]) -> Option<(&[u8], Crash, &[u8])>
    ensures { Gives (λ x. (x.0.now, x.1, x.2.now)) result (block_at how bytes.now) }
{
    let [synced, written, rest @ ..] = bytes else {
        return None;
    };
    if !does_count(how, *synced, *written) {
        return None;
    }
    let (block, rest) = take_sized(rest)?;
    Some((block, way_behind(how, *synced), rest))
}

/// Whether a block with these gates counts.
fn does_count(how: Crash, synced: u8, written: u8) -> bool
    ensures { result ≡ counts how synced written }
{
    match how {
        Crash::Killed => written == 1,
        Crash::Stopped => synced == 1 && written == 1,
    }
}

/// How the blocks behind a block with this sync gate are read.
fn way_behind(how: Crash, synced: u8) -> Crash
    ensures { result ≡ behind how synced }
{
    match how {
        Crash::Killed if synced == 1 => Crash::Killed,
        _ => Crash::Stopped,
    }
}

/// The bytes behind their number, and those behind them.
#[tactic(auto, unfolding(crate::specs::Blocks::sized_at))]
fn take_sized(bytes: &[u8]) -> Option<(&[u8], &[u8])>
    ensures { Gives (λ x. (x.0.now, x.1.now)) result (sized_at bytes.now) }
{
    if bytes.len() < 8 {
        return None;
    }
    take_bytes(LittleEndian::read_u64(bytes) as usize, &bytes[8..])
}

/// So many bytes, and those behind them.
fn take_bytes(count: usize, bytes: &[u8]) -> Option<(&[u8], &[u8])>
    ensures { Gives (λ x. (x.0.now, x.1.now)) result (bytes_at count bytes.now) }
{
    if bytes.len() < count {
        return None;
    }
    Some(bytes.split_at(count))
}
