//! What the Plan 9 manual promises to a client, as laws of the step: each law is one of the manual's
//! sentences, over the definitions that the exporter is proved to follow. Each function does
//! nothing: its clauses are the laws.
#![tactic(auto)]

ghost use Rattle.p9_manual_laws.specs.Asked.{FrameIsAsked};
ghost use Rattle.p9_manual_laws.specs.Clunks.{ClunkFreesFid};
ghost use Rattle.p9_manual_laws.specs.Creates.{CreatedIsFound};
ghost use Rattle.p9_manual_laws.specs.Files.{ReadsDontDisturb, WrittenIsReadBack};
ghost use Rattle.p9_manual_laws.specs.Listings.{ReadsGiveAll};
ghost use Rattle.p9_manual_laws.specs.Modes.{NewModeIsMasked};
ghost use Rattle.p9_manual_laws.specs.Removes.{RemovedIsGone, RemovedStaysGone};
ghost use Rattle.p9_manual_laws.specs.Walks.{WalkLeadsByTable};
ghost use Rattle.p9_manual_laws.specs.Wstats.{UntouchedStatChangesNothing};

/// A frame of an open session that spells a message with a tag, by the grammar of 9P2000, is
/// answered as that message, and the reply has the same tag, as intro(5). In a state that the
/// exporter can come to, the bytes of the answer spell the reply by the grammar too.
pub fn a_frame_is_answered_as_its_message()
    ensures { FrameIsAsked }
{}

/// A clunk frees its fid for a new one, as clunk(5).
pub fn a_clunk_frees_its_fid()
    ensures { ClunkFreesFid }
{}

/// A wstat with every field untouched changes nothing, as stat(5). A number is untouched where it is
/// the greatest of its field or that of the file's stat, and a text where it is empty or that of the
/// file's stat.
pub fn an_untouched_stat_changes_nothing()
    ensures { UntouchedStatChangesNothing }
{}

/// What was written is read back, by any session, as read(5).
pub fn what_was_written_is_read_back()
    ensures { WrittenIsReadBack }
{}

/// Reads of one file by two sessions don't disturb each other.
pub fn reads_do_not_disturb_each_other()
    ensures { ReadsDontDisturb }
{}

/// A file that was created has the mode that the octal formula of open(5) gives for the one that was
/// asked for, the fid's user as its owner and its directory's group. It is found by a walk, and is
/// listed after the files that were in its directory.
pub fn a_created_file_is_found()
    ensures { CreatedIsFound }
{}

/// Reads of a directory from 0 to its end give, together, all entries, as read(5).
pub fn reads_give_all_entries()
    ensures { ReadsGiveAll }
{}

/// A file that was removed is found by no walk, and its fids are answered 'phase error', as
/// remove(5). A remove or a clunk still ends such a fid.
pub fn a_removed_file_is_gone()
    ensures { RemovedIsGone }
{}

/// A file that was removed stays gone, whatever events come later: its number is never given again.
pub fn a_removed_file_stays_gone()
    ensures { RemovedStaysGone }
{}

/// A walk of a fid leads where a walk in the mount table leads, as walk(5). Each qid is that of the
/// file to which the names up to its own lead. Where a step is refused, nothing changes: the reply
/// has the qids of the names before it, or its fault if there are none.
pub fn a_walk_leads_by_the_mount_table()
    ensures { WalkLeadsByTable }
{}

/// The mode that a new file gets is by the octal formula of open(5).
pub fn a_new_mode_is_masked()
    ensures { NewModeIsMasked }
{}
