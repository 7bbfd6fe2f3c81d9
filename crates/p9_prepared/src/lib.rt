//! What an input reads to. It is split into sections, its world is made, its namespace file is run over
//! that, and its certificate and its script are read. The first fault is a refusal.
#![tactic(auto, unfolding(p9_base::specs::Results::need))]

mod bundle;
mod head;
mod input;
mod layout;
mod line;
mod name_space;
mod path;
mod prepared;
mod refusal;
mod report;
mod script;
mod script_faults;
mod section;
mod small;
pub mod status;

pub use bundle::{Bundle, BundleError, Part, split_bundle};
pub use head::Way;
pub use layout::{InputLine, input_lines};
pub use line::{print_bytes, print_line};
pub use name_space::NameSpace;
pub use path::{path_of, print_path, rooted_path, server_name};
pub use prepared::{Needs, PrepareError, Prepared, name_space_of, prepare, prepare_and_report};
pub use refusal::{Refusal, Stop, print_stop};
pub use report::print_reports;
pub use script::{ScriptError, read_script};
pub use script_faults::{BadEvent, EVENT_EXPECTED, bad_events};
pub use section::{SECTIONS, Section};
pub use small::is_blank_input;
