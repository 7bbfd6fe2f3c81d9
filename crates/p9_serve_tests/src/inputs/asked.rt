//! What the words of p9's command line ask for.

use p9_asked::{Asked, command_asked};
use std::alloc::Global;
use std::process::Abort;

// The words after the program's name, and what they ask for.
const CASES: &str = "\
: Play
play: Play
ns: Ns
serve -a 127.0.0.1:564 -r 1: serve 127.0.0.1:564 1
serve -r 1000000000 -a [::1]:0: serve [::1]:0 1000000000
serve -a=127.0.0.1:564 -r2: serve 127.0.0.1:564 2
serve: none
serve -a 127.0.0.1:564: none
serve -r 1: none
serve -a 127.0.0.1:564 -r 0: none
serve -a 127.0.0.1:564 -r 1000000001: none
serve -a 127.0.0.1:564 -r 18446744073709551617: none
serve -a 127.0.0.1:564 -r +1: none
serve -a 127.0.0.1:564 -r: none
serve -a 127.0.0.1:564 -r 1 -r 1: none
serve -a 127.0.0.1:564 -r 1 more: none
serve -a 127.0.0.1:564 -r 1 --: none
serve -a 127.0.0.1:564 -r 1 --help: none
serve -a 127.0.0.1 -r 1: none
serve -a localhost:564 -r 1: none
serve -a 127.0.0.1:65536 -r 1: none
-a 127.0.0.1:564 -r 1 serve: none
play -a 127.0.0.1:564 -r 1: none
help serve: none
serve help: none
--help: none
--version: none
-h: none
";

#[test]
fn words_ask_for_what_is_written_after_them(rt: HostRuntime) {
    for line in CASES.lines() {
        is_asked(&rt, rt.alloc(), line);
    }
}

// The words of a line ask for what is after them.
fn is_asked(rt: &impl Abort, alloc: Global, line: &str) {
    let (words, wanted) = line.rsplit_once(": ").expect(rt, "two parts");
    let found = asked(rt, alloc, words);
    assert!(rt; found.as_str() == wanted, "{words}: {found}");
}

// What words ask for, as a text.
fn asked(rt: &impl Abort, alloc: Global, words: &str) -> String {
    let all = words_of(rt, alloc, words);
    let text = match command_asked(alloc, all.as_slice()).expect(rt, "memory") {
        Some(Asked::Command(command)) => format!(in alloc; "{command:?}"),
        Some(Asked::Serve { address, rounds }) => format!(in alloc; "serve {address} {rounds}"),
        None => String::from_str(alloc, "none"),
    };
    text.expect(rt, "memory")
}

// The program's name, and words.
fn words_of(rt: &impl Abort, alloc: Global, words: &str) -> Vec<String> {
    let mut all = Vec::new(alloc);
    push(rt, alloc, &mut all, "p9");
    for word in words.split_whitespace() {
        push(rt, alloc, &mut all, word);
    }
    all
}

fn push(rt: &impl Abort, alloc: Global, all: &mut Vec<String>, word: &str) {
    let word = String::from_str(alloc, word).expect(rt, "memory");
    all.push(word).expect(rt, "memory");
}
