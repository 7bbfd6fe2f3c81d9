//! The version of the programs.

/// The version of the programs that stand beside `p9`, with the commit that they are built of and
/// whether all of it is proved. What builds a program writes these two into it, over a text of the
/// same length. As long as nothing did, the commit is unknown.
pub const VERSION: &str = "1.0 of an unknown commit, not proved";
