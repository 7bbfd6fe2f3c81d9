//! Paths and what cleaning makes of them, with rows from the manual and of the same kind.

use p9_clean::clean;
use std::alloc::Global;
use std::process::Abort;

// A path, and what is left of it after the bar.
const CLEANED: &str = "\
|.
.|.
..|..
/|/
//|/
///|/
/.|/
/..|/
/../..|/
/../a|/a
./|.
././.|.
a|a
a/|a
a//b/|a/b
a/./b/..|a
a/..|.
a/b/../..|.
a/../..|..
../a/..|..
../../a/../b|../../b
a/../../../b|../../b
/a/b/../../..|/
/a/../../b//./|/b
...|...
/.../../..a/.b|/..a/.b
.a/..b/../c..|.a/c..
/usr/λόγος/../日本語/.|/usr/日本語
é/./ü|é/ü
 /\t| /\t";

#[test]
fn row_cleaning(rt: HostRuntime) {
    for line in CLEANED.lines() {
        is_cleaned(&rt, rt.alloc(), line);
    }
}

// What cleaning makes of the path of a line.
fn is_cleaned(rt: &impl Abort, alloc: Global, line: &str) {
    let (path, want) = line.split_once('|').expect(rt, "a path");
    let cleaned = clean(alloc, path).expect(rt, "memory");
    assert!(rt; cleaned.as_str() == want, "{path}");
}
