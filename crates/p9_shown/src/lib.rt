//! Text as it is shown to people: each text on one line, and without what a terminal obeys.
#![tactic(auto)]

mod text;

pub use text::{AsShown, is_visible, push_shown, shown};
