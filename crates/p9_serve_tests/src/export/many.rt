//! Many files with each request for memory refused in turn. They fill more than one node of an ordered map,
//! which then asks for memory at an entry.

use crate::export::both::{Trial, refusals};
use crate::export::sent_again::{Play, Script};
use crate::samples::SMALL;
use std::alloc::{AllocError, Global};
use std::process::Abort;

// The files that are made in /a. The first of them has the number 4, and each is made by a fid of its
// number.
const FILES: u8 = 16;

// Makes the files, each of which is open for reading and writing then.
fn write_creates(rows: &mut String) -> Result<(), AllocError> {
    for file in 0..FILES {
        let (fid, name) = (file + 4, b'A' + file);
        write!(
            rows,
            "\
1 14000000 6e 0100 00000000 {fid:02x}000000 0100 0100 61 = 16000000 6f 0100 0100 80 {file:02x}000000 \
0100000000000000
1 13000000 72 0100 {fid:02x}000000 0100 {name:02x} a4010000 02 = 18000000 73 0100 00 00000000 \
{fid:02x}00000000000000 e81f0000
"
        )?;
    }
    Ok(())
}

// Each gets another name and five bytes at once, and one more byte behind them.
fn write_changes(rows: &mut String) -> Result<(), AllocError> {
    for file in 0..FILES {
        let (fid, name) = (file + 4, b'0' + file);
        write!(
            rows,
            "\
1 3f000000 7e 0100 {fid:02x}000000 3200 3000 ffff ffffffff ff ffffffff ffffffffffffffff ffffffff \
ffffffff ffffffff 0500000000000000 0100 {name:02x} 0000 0000 0000 = 07000000 7f 0100
1 18000000 76 0100 {fid:02x}000000 6400000000000000 01000000 21 = 0b000000 77 0100 01000000
"
        )?;
    }
    Ok(())
}

// The requests with their replies.
fn rows(rt: &impl Abort, alloc: Global) -> String {
    let mut rows = String::new(alloc);
    write_creates(&mut rows).expect(rt, "memory");
    write_changes(&mut rows).expect(rt, "memory");
    rows
}

// How many requests for memory there are over each kind of tree.
fn refusals_with(rt: &impl Abort, alloc: Global, rows: &str) -> (u64, u64) {
    let script = Script {
        world: SMALL,
        binds: &[],
        sessions: 1,
        now: 0,
        rows,
        fewer: 0,
    };
    refusals(rt, alloc, Trial::Play(Play::Script(script)))
}

// A file asks for a fid and where that has come to, for its name and its bytes, and its changes for another
// name and more bytes. Over ordered maps each asks for an allocation of its own, too, and some for a node of
// a map.
#[test]
fn many_files_are_made_and_changed_at_each_refusal(rt: HostRuntime) {
    let rows = rows(&rt, rt.alloc());
    let (plain, index) = refusals_with(&rt, rt.alloc(), rows.as_str());
    drop(rows);
    let files = u64::from(FILES);
    assert!(rt; plain > 4 * files && index > plain, "{plain}, {index}");
}
