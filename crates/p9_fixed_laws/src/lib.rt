//! Laws of an export in which no listed user can change anything that he can come to: no event
//! changes its forest, apart from times of last access, and what a session is told does not depend
//! on what other sessions send. Each function does nothing: its clause is the law.
#![tactic(auto)]

pub mod laws;
