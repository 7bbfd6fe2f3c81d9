//! Laws of servers whose changes are kept: of any number of lives, with a crash behind each. Each
//! function does nothing: its clause is the law.
#![tactic(auto)]

pub mod laws;
