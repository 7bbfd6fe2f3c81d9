//! What follows of an export in which no listed user can change anything that he can come to.

ghost use Rattle.p9_fixed_laws.specs.Laws.{FixedBegins, NoReadsNoDifference, OthersDontShow};
ghost use Rattle.p9_fixed_laws.specs.Laws.{RunStaysFixed, SessionsAreAlone, StepStaysFixed};

/// A well-formed state without sessions is fixed, if its certificate is closed and no listed user
/// can change anything that he can come to.
pub fn a_fixed_export_begins()
    ensures { FixedBegins }
{}

/// A step of a fixed state leads to a fixed one: its forest is the sealed one, apart from times of
/// last access. If the event is no read of a file, its forest is the one before the step, these times
/// too. An allocation may fail.
pub fn a_step_changes_nothing()
    ensures { StepStaysFixed }
{}

/// So does a run of any events of any sessions, with any marks.
pub fn a_run_changes_nothing()
    ensures { RunStaysFixed }
{}

/// Other sessions change nothing of a session, and nothing that it is told but times of last access.
/// The law takes any run of a fixed state, and any session. Beside it stands the run of the events of
/// that session alone, in their order and with their marks. Both make the same of the session. Each
/// reply to it is the one that the other run would give if the times of last access in the forest
/// were others. If the event is neither a stat, nor a read of a directory, nor a wstat that names such
/// a time, it is the very reply; so the bytes of files are. If it is no such wstat, the reply is as
/// long. What other sessions send, when, and whether an allocation fails in it decides nothing else.
pub fn sessions_are_alone()
    ensures { SessionsAreAlone }
{}

/// If no other session reads a file, all replies to a session are those of the run of its events alone.
pub fn no_reads_no_difference()
    ensures { NoReadsNoDifference }
{}

/// So two runs from one fixed state in which a session has the same events make the same of it,
/// whatever other sessions send in each. If in neither of them another session reads a file, it is
/// told the same, byte by byte.
pub fn others_do_not_show()
    ensures { OthersDontShow }
{}
