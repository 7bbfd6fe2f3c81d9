//! The texts of errors that no row shows.

use p9_base::NoMemory;
use p9_export::OpenError;
use p9_nsfile::{BadForm, NsError};
use p9_space::UnmountError;

const TEXTS: &str = "\
out of memory, not mounted, not in the union, session is open, out of memory, out of memory, \
line 7: bad flag";

#[test]
fn errors_have_texts(rt: HostRuntime) {
    let (line, kind) = (7, BadForm::BadFlag);
    let shown = format!(in rt.alloc();
        "{NoMemory}, {}, {}, {}, {}, {}, {}",
        UnmountError::NotMounted,
        UnmountError::NotMember,
        OpenError::Live,
        OpenError::NoMemory,
        NsError::NoMemory,
        NsError::BadLine { line, kind }
    );
    let shown = shown.expect(&rt, "memory");
    assert!(rt; shown.as_str() == TEXTS);
}
