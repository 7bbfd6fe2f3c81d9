//! What follows for the frames of a restricted stream. Each function does nothing: its clauses are the
//! laws.

ghost use Rattle.p9_restricted.specs.Laws.{FramesAreMasked, MessagesAreMasked};
ghost use Rattle.p9_restricted.specs.Laws.{NobodyAttachesAsAnother, OthersAreKept, PiecesAreMasked};

/// What the reads of a new restricted stream give, joined, is a front of what is made of the bytes
/// that came of the stream below: [`frames_are_masked`] says what that is. The pieces may be of any
/// lengths, and so may be those that the stream below gives.
pub fn pieces_are_masked<S>()
    ensures { PiecesAreMasked S }
{}

/// The frames of what a restricted stream makes of bytes are the frames of these bytes, one for one,
/// and of each is made what is made of it alone. The same holds of the bytes after the last whole
/// frame.
pub fn frames_are_masked()
    ensures { FramesAreMasked }
{}

/// In a frame that attaches as a user who may not attach this way, blanks stand in the place of the
/// user's name. All else of its message stays, and any other message stays. A frame that has no
/// message has none then.
pub fn messages_are_masked()
    ensures { MessagesAreMasked }
{}

/// A frame whose message stays is passed on to the byte.
pub fn others_are_kept()
    ensures { OthersAreKept }
{}

/// A client of a restricted stream attaches as the users alone for whom the stream is. The turns are
/// of any connections on one guard, each of a session of its own, in any order. One of them reads
/// what a restricted stream gives, in pieces of any length. Suppose that its session has fids of these
/// users alone before, as a session that is not there yet. Suppose too that no listed user has a name
/// of blanks alone ([`has_no_blank_name`](crate::has_no_blank_name)). Then the session has fids of
/// these users alone after the turns.
pub fn nobody_attaches_as_another()
    ensures { NobodyAttachesAsAnother }
{}
