//! Records are put behind others.

ghost use Rattle.std.specs.Prelude.{◌≡◌, ◌≤◌, ◌++◌, ◌==◌, [], IfOk, OnErr, OnOk, length, take};
ghost use Rattle.p9_log.specs.declared.crash.Crash.{Crash};
ghost use Rattle.p9_log.specs.declared.crash.Crash.TheVariants.{Killed, Stopped};
ghost use Rattle.p9_log.specs.Blocks.{content_in};
ghost use Rattle.p9_log.specs.Device.{LeavesOnly};
ghost use Rattle.p9_log.specs.Log.{IsAppended, LeaveAsSeen};
ghost use Rattle.p9_record.specs.Closed.{closed_spelling};
ghost use Rattle.p9_record.specs.Record.{FitsForestEdit};
ghost use Rattle.p9_tree.specs.ForestChange.{forest_edit_of};
ghost use Rattle.p9_kept.specs.Making.{IsUntouched};

use p9_base::NoMemory;
use p9_log::{Device, HEAD, Log, LogError, TAIL};
use p9_record::{data_len, put_closed};
use p9_tree::{FILE_MAX, ForestChange};
use std::alloc::Allocator;
use std::marker::Model;

// The most bytes of a record without the bytes of a file that it carries.
const FIXED_MAX: usize = 523;

/// Records, one behind another. They are in a buffer with room before and behind them, in which a log
/// makes a block of them. What is behind them there are bytes of records that were before, so a record
/// is put over these, and nothing is cleared first.
#[derive(Drop)]
pub(crate) struct Noted<A: Allocator> {
    buffer: Vec<u8, A>,
    // where they end
    end: usize,
}

impl<A: Allocator> Model for Noted<A> {
    ghost use Rattle.std.specs.Prelude.{◌≤◌, ◌+◌, List, length, ℕ};
    ghost use Rattle.p9_log.specs.Rest.{held};

    ghost Value = { List ℕ };

    ghost view = { λ n. held n.buffer.items n.end };

    ghost invariant = { λ n. (10 ≤ n.end) × (n.end + 2 ≤ length n.buffer.items) };
}

impl<A: Allocator> Noted<A> {
    /// No records, and room for so many bytes, with that for a block of them. The only error is a failed
    /// allocation.
    pub fn with_room(alloc: A, bytes: usize) -> Result<Noted<A>, NoMemory>
        ensures { IfOk result (λ noted. noted ≡ []) }
    {
        let mut buffer = Vec::new(alloc);
        buffer.resize(bytes.max(HEAD + TAIL), 0)?;
        Ok(Noted { buffer, end: HEAD })
    }

    /// How many bytes they have.
    pub fn len(&self) -> usize
        ensures { result ≡ length self.now }
    {
        self.end - HEAD
    }

    /// Whether there are none.
    pub fn is_empty(&self) -> bool
        ensures { result ≡ (length self.now == 0) }
    {
        self.end == HEAD
    }

    /// Forgets them.
    pub fn clear(&mut self)
        ensures { self.new ≡ [] }
    {
        self.end = HEAD;
    }

    /// Puts a change behind them. Where an allocation fails, or the change carries more bytes than a file
    /// has, they are unchanged.
    pub fn push(&mut self, change: &ForestChange<'_>) -> Result<(), NoMemory>
        ensures ok { OnOk result (self.new ≡ self.old ++ closed_spelling (forest_edit_of change.now)) }
        ensures fits { OnOk result (FitsForestEdit (forest_edit_of change.now)) }
        ensures err { OnErr result (self.new ≡ self.old) }
    {
        let data = data_len(change);
        if data > FILE_MAX {
            return Err(NoMemory);
        }
        lengthen(&mut self.buffer, self.end + FIXED_MAX + data + TAIL)?;
        self.end = put_closed(self.buffer.as_mut_slice(), self.end, change);
        Ok(())
    }

    /// Adds them to a log, as [`Log::append`]. After an `Ok` there are none.
    pub fn append_to<D: Device>(&mut self, log: &mut Log<D>) -> Result<(), LogError>
        ensures empty { OnOk result (self.new ≡ []) }
        ensures written { OnOk result (content_in Killed (D.seen log.new.device)
            ≡ content_in Killed (D.seen log.old.device) ++ self.old) }
        ensures synced { OnOk result (content_in Stopped (D.seen log.new.device)
            ≡ content_in Stopped (D.seen log.old.device)) }
        ensures outcomes { OnOk result (LeaveAsSeen (D.seen log.new.device)
            (D.may_leave log.new.device)) }
        // A crash at any moment of the call leaves what it might have left before, or this.
        ensures any_moment { (how : Crash) → LeavesOnly D.moment D.left_since how
            (IsAppended how (D.seen log.old.device) self.old) log.old.device log.new.device }
    {
        log.append(self.buffer.as_mut_slice(), self.end)?;
        self.end = HEAD;
        Ok(())
    }

    /// Adds them to a draft of a log, as [`Log::add_to_draft`]. After an `Ok` there are none.
    pub fn add_to_draft<D: Device>(&mut self, log: &mut Log<D>) -> Result<(), LogError>
        ensures empty { OnOk result (self.new ≡ []) }
        ensures drafted { OnOk result (content_in Stopped (D.drafted log.new.device)
            ≡ content_in Stopped (D.drafted log.old.device) ++ self.old) }
        ensures usable { log.new.usable ≡ log.old.usable }
        ensures log { IsUntouched D.seen D.moment D.may_leave D.left_since log.old.device
            log.new.device }
    {
        log.add_to_draft(self.buffer.as_mut_slice(), self.end)?;
        self.end = HEAD;
        Ok(())
    }
}

// Makes a buffer so long, where it is shorter. What it has stays in front. The only error is a failed
// allocation.
fn lengthen<A: Allocator>(buffer: &mut Vec<u8, A>, len: usize) -> Result<(), NoMemory>
    ensures long { OnOk result (len ≤ length buffer.new.items) }
    ensures front { OnOk result
        (take (length buffer.old.items) buffer.new.items ≡ buffer.old.items) }
    ensures err { OnErr result (buffer.new.items ≡ buffer.old.items) }
{
    if buffer.len() < len {
        buffer.resize(len, 0)?;
    }
    Ok(())
}
