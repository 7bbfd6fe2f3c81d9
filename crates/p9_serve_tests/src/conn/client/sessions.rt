//! A session over a guard: each call once.

use crate::conn::client::answered::{Answered, Server};
use crate::conn::client::calls::call;
use crate::conn::client::plays::parted;
use p9_client::{Session, Stream};
use p9_guard::Guard;
use p9_serve::served_guard;
use p9_tree::Tree;
use p9_wire::{Frame, frame_of};
use std::alloc::Global;
use std::io;
use std::process::Abort;

// The name of the guard's one session.
const SESSION: u32 = 1;

// A directory that all may write, with a file of glenda's, a directory that only sys may read, and
// one that has one.
const INPUT: &str = "\
%% world
server main
dir /pub 777 sys sys
file /pub/hello 644 glenda glenda 68656c6c6f
dir /shut 700 sys sys
dir /pub/sub 755 glenda glenda
user glenda
%% cert
cert 1
dir 0 0
dir 0 1
dir 0 3
dir 0 4
";

// A guard, whose one session is served.
#[derive(Drop)]
struct Served<T: Tree> {
    guard: Guard<T>,
}

impl<T: Tree> Server for Served<T> {
    fn answer(
        &mut self,
        input: &mut Vec<u8, Global>,
        output: &mut Vec<u8, Global>,
    ) -> io::Result<()> {
        let taken = answer_first(&mut self.guard, input.as_slice(), output)?;
        *input = input.split_off(taken.min(input.len()))?;
        Ok(())
    }
}

// Makes the reply of a guard to the first request, if it is whole. Returns how many bytes that has.
fn answer_first<T: Tree>(
    guard: &mut Guard<T>,
    input: &[u8],
    output: &mut Vec<u8, Global>,
) -> io::Result<usize> {
    let Frame::Whole(size) = frame_of(input) else {
        return Ok(0);
    };
    let size = size.min(input.len());
    let Some(room) = guard.reply_max(SESSION) else {
        return Ok(0);
    };
    output.resize(room, 0)?;
    let len = guard.answer(SESSION, &input[..size], 0, output.as_mut_slice());
    output.truncate(len);
    Ok(size)
}

// A session's life: calls, and what they come to. Glenda attaches fid 0. A file is made and written, and
// gets another name. A directory is made beside it, and the directory that all may write has its entries,
// in the order in which they were made. The file is read and removed. A directory that only sys may read is
// walked to and not opened, and a name with a NUL has no message. The twentieth of forty names isn't there:
// the new fid is none then, and the first one is where it was.
const LIFE: &str = "\
version = done
attach glenda = done
walk pub = done
make note = done
put a note = done
clunk = done
walk pub note = done
rename other = done
stat = done other 6
clunk = done
walk pub = done
mkdir more = done
clunk = done
walk pub = done
open = done
list = done hello sub/ other more/
clunk = done
walk pub other = done
open = done
get = done a note
remove = done
walk pub other = file does not exist
walk shut = done
open = permission denied
attach glen\0da = the request is too long for a message
clunk = done
walk .. .. .. .. .. .. .. .. .. .. .. .. .. .. .. .. .. .. .. missing .. .. .. .. .. .. .. .. .. .. .. \
    .. .. .. .. .. .. .. .. .. = file does not exist
stat = unknown fid
walk .. .. .. .. .. .. .. .. .. .. .. .. .. .. .. .. .. .. .. .. .. .. .. .. .. .. .. .. .. .. .. \
    .. .. .. .. .. .. .. .. .. = done
clunk = done
";

// A call comes to this.
fn is_told<S: Stream + Drop>(
    rt: &impl Abort,
    alloc: Global,
    session: &mut Session<S, Global>,
    row: &str,
) {
    let (line, wanted) = parted(rt, row, " = ");
    let mut told = String::new(alloc);
    assert!(rt; call(session, alloc, line, &mut told).is_ok());
    assert!(rt; told.as_str() == wanted, "{row}: {told}");
}

// A session's life over this stream.
fn lives_over<S: Stream + Drop>(rt: &impl Abort, alloc: Global, stream: S) {
    let mut session = Session::new(alloc, stream, 8_192).expect(rt, "memory");
    for row in LIFE.lines() {
        is_told(rt, alloc, &mut session, row);
    }
    drop(session);
}

// A session's life with a guard, over a stream whose calls move at most so many bytes.
fn lives_by<T: Tree>(rt: &impl Abort, alloc: Global, mut guard: Guard<T>, most: usize) {
    assert!(rt; guard.open(SESSION).is_ok());
    let mut stream = Answered::new(alloc, Served { guard });
    stream.most = most;
    lives_over(rt, alloc, stream);
}

// The same with a new guard.
fn lives_anew(rt: &impl Abort, alloc: Global, most: usize) {
    let mut reported = Vec::new(alloc);
    let guard = served_guard(INPUT.as_bytes(), &mut reported).expect(rt, "memory");
    lives_by(rt, alloc, guard.expect(rt, "a guard"), most);
}

#[test]
fn a_file_lives(rt: HostRuntime) {
    for most in [usize::MAX, 1] {
        lives_anew(&rt, rt.alloc(), most);
    }
}
