//! Tests of p9_tree and p9_index: nodes that are put back, and the journal of a forest.

mod kept;
mod saved;
