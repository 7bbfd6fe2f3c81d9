//! What follows from the definitions alone. Each function does nothing: its clauses are the laws.

ghost use Rattle.p9_cert.specs.Laws.{NoGapIsClosed};

pub use p9_policy::laws::written_reads_back;

/// There is no gap exactly where the certificate is closed: the mount table names only nodes that
/// were made, each row is a directory that is neither hidden nor inside a hidden one, and the root
/// place and each child of a row are safe.
pub fn no_gap_is_closed()
    ensures { NoGapIsClosed }
{}
