//! What follows from turns alone. Each function does nothing: its clauses are the laws.
//!
//! The turns are of any number of connections on one guard, each of a session of its own, in any
//! order, at any readings of the clock.

ghost use Rattle.p9_conn.specs.Laws.{FramesComeInOrder, HistoryIsPromised, HistoryIsRun};
ghost use Rattle.p9_conn.specs.Laws.{RepliesGoOut};
ghost use Rattle.p9_conn.specs.Told.{BytesBecomeReplies};

/// The guard's state, and the replies, are those of the run of the events that the turns made, with
/// their marks.
pub fn a_history_is_a_run()
    ensures { HistoryIsRun }
{}

/// A connection's frames are the first frames of the bytes that it read, and no byte between is
/// lost.
pub fn frames_come_in_order()
    ensures { FramesComeInOrder }
{}

/// What a connection wrote, followed by what is pending, is its replies, joined. A closed one has
/// written a beginning of that.
pub fn replies_go_out()
    ensures { RepliesGoOut }
{}

/// Where the guard's state is guarded, nothing inside a hidden directory has changed after the
/// turns, and no byte of a reply depends on what is there.
pub fn a_history_is_promised()
    ensures { HistoryIsPromised }
{}

/// From the bytes that are read to those that are written, of a connection alone over a stream whose
/// bytes are known: the frames are the first ones of the bytes that it gave, and what it holds is what
/// it held, followed by the replies of the run of these frames, up to what is pending.
pub fn bytes_become_replies<S>()
    ensures { BytesBecomeReplies S }
{}
