//! Allocations that fail: a command says so, and run again it does all that it has to.

use p9_base::NoMemory;
use p9_commands::run_command_over;
use p9_explain::{explain, explain_change};
use p9_index::IndexTree;
use p9_map::map;
use p9_seal::{SealError, Wishes, seal};
use p9_testing::Refusing;
use p9_tree::Tree;
use p9_view::show_tree;
use std::alloc::Global;
use std::process::Abort;
use std::str::from_utf8;

// A command over an input, and how it is to end. Where an allocation of an attach fails, the
// command may print something else.
#[derive(Clone, Copy)]
struct Run {
    word: &'static str,
    input: &'static str,
    out: &'static str,
    refused_out: &'static str,
    err: &'static str,
    status: u8,
}

const PLAYS: [Run; 4] = [
    Run {
        word: "play",
        input: ATTACH,
        out: ATTACH_OUT,
        refused_out: ATTACH_REFUSED,
        err: "",
        status: 0,
    },
    Run {
        word: "play",
        input: CERTIFIED,
        out: ATTACH_OUT,
        refused_out: ATTACH_REFUSED,
        err: VAULT_ERR,
        status: 0,
    },
    // Nothing is played with a certificate that has a gap.
    Run {
        word: "play",
        input: GAP,
        out: "",
        refused_out: "",
        err: "ns:1: not mounted\ncert: gap root member 0 0 missing\n",
        status: 1,
    },
    Run {
        word: "ns",
        input: NAME_SPACE,
        out: "bind #main/x #main/x\nbind -ac #main/u #main/x\n",
        refused_out: "",
        err: "ns:2: not mounted\n",
        status: 0,
    },
];

const VERDICTS: [Run; 6] = [
    Run {
        word: "check",
        input: VAULT,
        out: "yes\ncert 1\ndir 0 0\ndir 0 1\n",
        refused_out: "",
        err: VAULT_ERR,
        status: 0,
    },
    Run {
        word: "check",
        input: LEAK,
        out: "no\nstep 0 0 glenda pub\nbreach inside 0 3\n",
        refused_out: "",
        err: VAULT_ERR,
        status: 1,
    },
    Run {
        word: "check",
        input: DEEP,
        out: "no\nstep 0 0 glenda a\nstep 0 1 glenda b\nstep 0 2 glenda e\nstep 0 5 glenda v\n\
            breach owned 0 6\n",
        refused_out: "",
        err: "",
        status: 1,
    },
    Run {
        word: "check",
        input: GUARDED,
        out: "yes\ncert 1\ndir 0 0\ndir 0 1\ndir 0 2\ndir 0 3\ndir 0 4\ndir 0 5\n",
        refused_out: "",
        err: "",
        status: 0,
    },
    Run {
        word: "verify",
        input: CERTIFIED,
        out: "ok\n",
        refused_out: "",
        err: VAULT_ERR,
        status: 0,
    },
    Run {
        word: "verify",
        input: GAP,
        out: "gap root member 0 0 missing\n",
        refused_out: "",
        err: VAULT_ERR,
        status: 1,
    },
];

const EXPLAINED: [Run; 5] = [
    Run {
        word: "seal",
        input: UNSEALED,
        out: SEALED,
        refused_out: "",
        err: "",
        status: 0,
    },
    Run {
        word: "seal as fixed",
        input: UNSEALED,
        out: CHANGE,
        refused_out: "",
        err: "",
        status: 1,
    },
    Run {
        word: "explain",
        input: UNSEALED,
        out: "refused: cert:1: bad line\nmine:10, cert:1: bad line 'none': 'cert 1' is to be the first\n",
        refused_out: "",
        err: "",
        status: 1,
    },
    Run {
        word: "explain",
        input: ROOTLESS,
        out: ROOTLESS_EXPLAINED,
        refused_out: "",
        err: "",
        status: 1,
    },
    Run {
        word: "explain",
        input: OPEN,
        out: OPEN_EXPLAINED,
        refused_out: "",
        err: "",
        status: 1,
    },
];

const SHOWN: [Run; 3] = [
    Run {
        word: "map",
        input: WALKED,
        out: "verdict: no",
        refused_out: "",
        err: "",
        status: 1,
    },
    Run {
        word: "tree",
        input: RULED,
        out: RULED_TREE,
        refused_out: "",
        err: "",
        status: 0,
    },
    Run {
        word: "tree of glenda",
        input: RULED,
        out: GLENDAS_TREE,
        refused_out: "",
        err: "",
        status: 0,
    },
];

// The first attach, and its replies.
const ATTACH: &str = "%% script
open 1
msg 1 0 1300000064ffff002000000600395032303030
msg 1 0 1900000068010000000000ffffffff0600676c656e64610000
";

const ATTACH_OUT: &str = "1300000065ffff002000000600395032303030
1400000069010080000000000000000000000000
";

// The replies where an allocation of the attach failed.
const ATTACH_REFUSED: &str = "1300000065ffff002000000600395032303030
160000006b01000d006f7574206f66206d656d6f7279
";

// A world of one's own, a namespace file with an operation that fails, and a script that isn't
// played.
const NAME_SPACE: &str = "%% world
server main
dir /u 755 glenda glenda
dir /x 755 glenda glenda
user glenda
set there /x
%% ns
bind -ac /u $there
unmount /u
%% script
open 1
";

// A vault, with a namespace file of which an operation fails.
const VAULT: &str = "%% world
server main
dir / 755 sys sys
dir /pub 777 sys sys
dir /vault 000 sys sys
dir /vault/in 755 sys sys
user glenda
hide main /vault
%% ns
unmount /pub
";

const VAULT_ERR: &str = "ns:1: not mounted
";

// A vault, with a namespace file that fails at its first line, and binds a part of the vault at its
// second.
const LEAK: &str = "%% world
server main
dir / 755 sys sys
dir /pub 777 sys sys
dir /vault 000 sys sys
dir /vault/in 755 sys sys
user glenda
hide main /vault
%% ns
unmount /pub
bind -a /vault/in /pub
";

// A chain of directories, with a hidden one at its end that its owner may open, and groups and a
// variable.
const DEEP: &str = "%% world
server main
dir /a 755 sys sys
dir /a/b 755 sys sys
dir /a/c 755 sys sys
dir /a/d 755 sys sys
dir /a/b/e 755 sys sys
dir /a/b/e/v 000 glenda sys
file /a/b/f alt406 glenda sys 00ff0a
user glenda
user rob
hide main /a/b/e/v
group staff rob glenda
group both rob ken glenda rob
group empty sys
set home /a/b
%% ns
bind -a /a/c /a/d
";

// A chain of directories, with a guarded hidden one at its end.
const GUARDED: &str = "%% world
server main
dir /a 755 sys sys
dir /a/b 755 sys sys
dir /a/c 755 sys sys
dir /a/d 755 sys sys
dir /a/b/e 755 sys sys
dir /a/b/e/v 000 sys sys
user glenda
hide main /a/b/e/v
%% ns
bind -a /a/c /a/d
";

// The vault with its certificate, and a script that a verification reads and does not play.
const CERTIFIED: &str = "%% world
server main
dir / 755 sys sys
dir /pub 777 sys sys
dir /vault 000 sys sys
dir /vault/in 755 sys sys
user glenda
hide main /vault
%% ns
unmount /pub
%% cert
cert 1
dir 0 0
dir 0 1
%% script
open 1
msg 1 0 1300000064ffff002000000600395032303030
msg 1 0 1900000068010000000000ffffffff0600676c656e64610000
";

// The vault with a certificate that has a gap, and a script.
const GAP: &str = "%% world
server main
dir / 755 sys sys
dir /pub 777 sys sys
dir /vault 000 sys sys
dir /vault/in 755 sys sys
user glenda
hide main /vault
%% ns
unmount /pub
%% cert
cert 1
dir 0 1
%% script
open 1
msg 1 0 1300000064ffff002000000600395032303030
";

// A vault with a bad certificate, before a script.
const UNSEALED: &str = "%% world
server main
dir /pub 777 sys sys
dir /vault 700 sys sys
user glenda
hide main /vault
%% ns
bind -a /pub /
%% cert
none
%% script
open 1
";

// The vault with its certificate.
const SEALED: &str = "%% world
server main
dir /pub 777 sys sys
dir /vault 700 sys sys
user glenda
hide main /vault
%% ns
bind -a /pub /
%% cert
cert 1
dir 0 0
dir 0 1
%% script
open 1
";

// What a listed user can change in the vault, which so is no fixed name space, and how that is
// mended.
const CHANGE: &str =
    "glenda may write main:/pub (mine:3, world:2, 777 sys sys: others may write), bound at main:/ (mine:8, ns:1)
mend: give it to an owner and a group leader who is not listed, and no write bit to others or to groups with listed members
";

// An input whose certificate has a gap, and what is said of it.
const ROOTLESS: &str = "%% world
server main
dir /vault 700 ken ken
file /note 644 ann ann -
user glenda
hide main /vault
%% cert
cert 1
";

const ROOTLESS_EXPLAINED: &str = "claim: glenda neither sees nor changes what is inside main:/vault
yes: clients can reach 1 directory, and nothing hidden
fixed: no listed user can change anything that he reaches
certificate: not accepted: a walk begins at main:/
  main:/ (mine:2, world:1, 755 sys sys) is no row: others may read and search it
hint: mine:4, world:3: ann is no listed user
";

// An input that leaks, and what is said of it.
const OPEN: &str = "%% world\nserver a\ndir /v 755 u u\nuser u\nhide a /v\n%% ns\nbind /x /\n";

const OPEN_EXPLAINED: &str = "claim: u neither sees nor changes what is inside a:/v
no: the inside of a:/v is within reach
  u attaches at a:/
  u passes a:/   (mine:2, world:1, 755 sys sys: others may search)
  a:/v           (mine:3, world:2, 755 u u) is open: others may read, write and search it
mend: give it to an owner and a group leader who is not listed, and no bits to others or to groups with listed members
certificate: none
hint: mine:7, ns:1: this failed, and did nothing: file does not exist
";

// A walk into a hidden directory, and a union of two servers.
const WALKED: &str = "%% world
server main
dir /vault 755 sys sys
dir /vault/in 755 sys sys
server other
user glenda
hide main /vault
%% ns
mount -a other /
";

// A union of two servers, and a directory that a user rules in two places.
const RULED: &str = "%% world
server main
dir /own 600 glenda sys
dir /own/in 755 sys sys
dir /m 755 sys sys
server other
user glenda
%% ns
mount -a other /
bind /own /m
";

// Its trees: of all places, and of those that the user meets.
const RULED_TREE: &str = "/ d-rwxr-xr-x sys sys 0 -> main:/ + other:/ passed by everybody
/own d-rw------- glenda sys 0 passed by everybody
/own/in d-rwxr-xr-x sys sys 0 passed by everybody
/m d-rw------- glenda sys 0 -> main:/own as /own passed by everybody
";

const GLENDAS_TREE: &str = "/ d-rwxr-xr-x sys sys 0 -> main:/ + other:/
/own d-rw------- glenda sys 0 (ruled, not searched)
/own/in d-rwxr-xr-x sys sys 0 (after a change of mode)
/m d-rw------- glenda sys 0 -> main:/own as /own (ruled, not searched)
";

// Seals an input.
fn sealed<T: Tree>(input: &[u8], out: &mut Vec<u8, T::Alloc>) -> Result<u8, NoMemory> {
    match seal::<T>(*out.allocator(), input, Wishes::default()) {
        Ok(text) => {
            out.extend_from_slice(text.as_bytes())?;
            Ok(0)
        }
        Err(SealError::NoMemory) => Err(NoMemory),
        Err(_) => Ok(2),
    }
}

// Seals an input as a fixed name space, and explains why it is none.
fn sealed_as_fixed<T: Tree>(input: &[u8], out: &mut Vec<u8, T::Alloc>) -> Result<u8, NoMemory> {
    let wishes = Wishes {
        anyway: false,
        fixed: true,
    };
    match seal::<T>(*out.allocator(), input, wishes) {
        Err(SealError::Changeable(change)) => {
            explain_change::<T>("mine", input, &change, out)?;
            Ok(1)
        }
        Err(SealError::NoMemory) => Err(NoMemory),
        _ => Ok(2),
    }
}

// Draws an input. What is printed is the verdict, if it is in the picture.
fn drawn<T: Tree>(
    input: &[u8],
    out: &mut Vec<u8, T::Alloc>,
    err: &mut Vec<u8, T::Alloc>,
) -> Result<u8, NoMemory> {
    let mut picture = Vec::new(*out.allocator());
    let status = map::<T>(input, &mut picture, err)?;
    if from_utf8(picture.as_slice()).is_ok_and(|text| text.contains("verdict: no")) {
        out.extend_from_slice(b"verdict: no")?;
    }
    Ok(status)
}

// Does what a word says.
fn run_word<T: Tree>(
    word: &str,
    input: &[u8],
    out: &mut Vec<u8, T::Alloc>,
    err: &mut Vec<u8, T::Alloc>,
) -> Result<u8, NoMemory> {
    match word {
        "seal" => sealed::<T>(input, out),
        "seal as fixed" => sealed_as_fixed::<T>(input, out),
        "explain" => explain::<T>("mine", input, out),
        "map" => drawn::<T>(input, out, err),
        "tree" => show_tree::<T>(input, None, out, err),
        "tree of glenda" => show_tree::<T>(input, Some("glenda"), out, err),
        _ => run_command_over::<T>(word, input, out, err),
    }
}

// A command ends as it is to, or says that an allocation failed, and when it is run again it ends so.
fn is_run<T: Tree>(rt: &impl Abort, lent: T::Alloc, run: &Run) {
    let mut out = Vec::new(lent);
    let mut err = Vec::new(lent);
    let mut ended = Err(NoMemory);
    for _ in 0..2 {
        out.clear();
        err.clear();
        ended = run_word::<T>(run.word, run.input.as_bytes(), &mut out, &mut err);
        if ended.is_ok() {
            break;
        }
    }
    assert!(rt; ended == Ok(run.status) && err.as_slice() == run.err.as_bytes());
    let is_refused = !run.refused_out.is_empty() && out.as_slice() == run.refused_out.as_bytes();
    assert!(rt; is_refused || out.as_slice() == run.out.as_bytes());
}

// The same with each request for memory refused in turn. Returns how many there are.
fn refusals_of(rt: &impl Abort, alloc: Global, run: &Run) -> u64 {
    let memory = Refusing::new(alloc);
    let mut refusals = 0;
    for n in 1..u64::MAX {
        refusals = n - 1;
        memory.refuse(n);
        is_run::<IndexTree<&Refusing<Global>>>(rt, &memory, run);
        if !memory.has_refused() {
            break;
        }
    }
    refusals
}

// There are more than 20 of each.
fn are_run_again(rt: &impl Abort, alloc: Global, runs: &[Run]) {
    for run in runs {
        assert!(rt; refusals_of(rt, alloc, run) > 20);
    }
}

#[test]
fn a_play_is_run_again_at_each_refusal(rt: HostRuntime) {
    are_run_again(&rt, rt.alloc(), &PLAYS);
}

#[test]
fn a_verdict_is_printed_again_at_each_refusal(rt: HostRuntime) {
    are_run_again(&rt, rt.alloc(), &VERDICTS);
}

#[test]
fn an_input_is_sealed_and_explained_again_at_each_refusal(rt: HostRuntime) {
    are_run_again(&rt, rt.alloc(), &EXPLAINED);
}

#[test]
fn a_picture_and_a_tree_are_printed_again_at_each_refusal(rt: HostRuntime) {
    are_run_again(&rt, rt.alloc(), &SHOWN);
}
