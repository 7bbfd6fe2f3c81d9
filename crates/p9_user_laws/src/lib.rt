//! Who holds the fids of a session, as a law of the machine that the exporter is proved to follow.
//! The function does nothing: its clause is the law.
#![tactic(auto)]

pub mod laws;
