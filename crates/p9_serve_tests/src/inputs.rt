//! Tests of the program's commands and of those of p9_admin that no row of `p9_rows` has: failed
//! allocations, mount tables that no input makes, and the texts of errors. And of p9_asked and p9_pack.

mod asked;
mod gaps;
mod pack;
mod refusals;
mod texts;
