//! The texts of errors.

use p9_cert::ReadError;
use p9_commands::BadCommandLine;
use p9_prepared::{BundleError, ScriptError};
use p9_world::{LineFault, WorldError};
use std::alloc::Global;
use std::process::Abort;

const FAULTS: [(LineFault, &str); 12] = [
    (LineFault::UnknownWord, "unknown word"),
    (LineFault::WordCount, "wrong number of words"),
    (LineFault::NoServer, "no server"),
    (LineFault::BadName, "bad name"),
    (LineFault::BadPath, "bad path"),
    (LineFault::BadMode, "bad mode"),
    (LineFault::BadUser, "bad user"),
    (LineFault::BadHex, "bad hex"),
    (LineFault::TooLarge, "file too large"),
    (LineFault::NoParent, "no such directory"),
    (LineFault::Duplicate, "already there"),
    (LineFault::TooMany, "too many"),
];

// A fault of a line of a world has its text alone, and after its line.
fn has_text(rt: &impl Abort, alloc: Global, kind: LineFault, text: &str) {
    let error = WorldError::BadWorld { line: 7, kind };
    let shown = format!(in alloc; "{kind}, {error}").expect(rt, "memory");
    let wanted = format!(in alloc; "{text}, line 7: {text}").expect(rt, "memory");
    assert!(rt; shown.as_str() == wanted.as_str());
}

#[test]
fn faults_of_worlds_have_texts(rt: HostRuntime) {
    for (kind, text) in &FAULTS {
        has_text(&rt, rt.alloc(), *kind, text);
    }
}

#[test]
fn errors_have_texts(rt: HostRuntime) {
    let shown = format!(in rt.alloc();
        "{}, {}, {}, {}, {}, {}, {}, {}",
        WorldError::NoMemory,
        ReadError::BadCert { line: 7 },
        ReadError::NoMemory,
        BundleError::BadBundle { line: 7 },
        BundleError::NoMemory,
        ScriptError::BadScript { line: 8 },
        ScriptError::NoMemory,
        BadCommandLine
    );
    let shown = shown.expect(&rt, "memory");
    assert!(rt;
        shown.as_str()
            == "out of memory, line 7 is bad, out of memory, line 7 begins no section, out of memory, \
line 8 is bad, out of memory, p9: bad command line"
    );
}
