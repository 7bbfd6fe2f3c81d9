//! Scripts: what the sessions of a guard do one after the other.

use std::process::Abort;

/// A world of one file, `/a/f`, and a certificate that is closed over it.
pub const SMALL: &str = "\
%% world
server main
dir /a 755 glenda glenda
dir /a/b 755 glenda glenda
file /a/f 644 glenda glenda 6869
user glenda
%% cert
cert 1
dir 0 0
dir 0 1
dir 0 2
";

/// One session removes the file that another one has open.
pub const REMOVED: &str = "\
open 1
1 13000000 64 ffff 00200000 0600 395032303030 > 13000000 65 ffff 00200000 0600 395032303030
1 19000000 68 0100 00000000 ffffffff 0600 676c656e6461 0000 > \
    14000000 69 0100 80 00000000 0000000000000000
open 2
2 13000000 64 ffff 00200000 0600 395032303030 > 13000000 65 ffff 00200000 0600 395032303030
2 19000000 68 0100 00000000 ffffffff 0600 676c656e6461 0000 > \
    14000000 69 0100 80 00000000 0000000000000000
2 17000000 6e 0200 00000000 01000000 0200 0100 61 0100 66 > \
    23000000 6f 0200 0200 80 00000000 0100000000000000 00 00000000 0300000000000000
2 0c000000 70 0300 01000000 00 > 18000000 71 0300 00 00000000 0300000000000000 e81f0000
1 17000000 6e 0200 00000000 01000000 0200 0100 61 0100 66 > \
    23000000 6f 0200 0200 80 00000000 0100000000000000 00 00000000 0300000000000000
1 0b000000 7a 0300 01000000 > 07000000 7b 0300
2 17000000 74 0400 01000000 0000000000000000 0a000000 > \
    14000000 6b 0400 0b00 7068617365206572726f72
2 0b000000 78 0500 01000000 > 07000000 79 0500
2 17000000 6e 0600 00000000 01000000 0200 0100 61 0100 66 > \
    16000000 6f 0600 0100 80 01000000 0100000000000000
";

/// A step of a script. A line opens a session, or has a session, a request of it, `>` and the reply, in
/// hexadecimal digits.
#[derive(Clone, Copy)]
pub enum Step<'a> {
    Open(u32),
    Send {
        session: u32,
        request: &'a str,
        reply: &'a str,
    },
}

/// The step of a line.
pub fn step_of<'a>(rt: &impl Abort, line: &'a str) -> Step<'a> {
    let (first, rest) = line.split_once(' ').expect(rt, "two words");
    if first == "open" {
        return Step::Open(session_of(rt, rest));
    }
    let (request, reply) = rest.split_once('>').expect(rt, "a request and its reply");
    Step::Send {
        session: session_of(rt, first),
        request,
        reply,
    }
}

fn session_of(rt: &impl Abort, word: &str) -> u32 {
    word.parse::<u32>().ok().expect(rt, "a session")
}
