//! The text of each error.

use p9_base::NodeRef;
use p9_cert::Gap;
use p9_guard::{Cause, Stopped};

const GAP: Gap = Gap::Table(NodeRef {
    server: 1,
    number: 7,
});

// A gap as the cause of a refusal is printed as the gap alone.
#[test]
fn errors_have_texts(rt: HostRuntime) {
    let shown = format!(in rt.alloc();
        "{}, {}, {}",
        Cause::Gap(GAP),
        Cause::NoMemory,
        Stopped { done: 3 }
    );
    let shown = shown.expect(&rt, "memory");
    assert!(rt; shown.as_str() == "gap table 1 7, out of memory, out of memory");
}
