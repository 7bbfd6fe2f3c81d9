//! How a run of a program ended.

/// How the run of a program that wrote a file ended. It decides what the file may have in it, and so
/// how much of the file counts.
#[derive(Clone, Copy, Debug, PartialEq, Eq)]
pub enum Crash {
    /// The process was killed, or it ended by itself, and the machine has gone on since.
    Killed,
    /// The machine stopped, as where it lost its power, or it was started again.
    Stopped,
}
