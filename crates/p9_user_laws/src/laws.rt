//! What follows from the step about the users of a session's fids.

ghost use Rattle.p9_user_laws.specs.Users.{FidsBelongToWhoAttached};

/// A fid of a session belongs to nobody but a user as whom that session attached. The law takes any
/// list of allowed users, any session name and any run. Suppose that each frame of the session that
/// attaches as a listed user attaches as an allowed one. Suppose too that each fid that the session
/// has before the run belongs to an allowed user. Then each fid that it has after the run belongs to
/// an allowed user. Nothing is asked of the frames of other sessions. The session may be closed and
/// opened again in the run. An allocation may fail in any event. Before the run the sessions are by
/// rising name, as in every state that the exporter comes to. A state without sessions has all that
/// is asked of it.
pub fn fids_belong_to_who_attached()
    ensures { FidsBelongToWhoAttached }
{}
