//! The texts of errors of words that no row shows: rows have bad lines of scripts, in which a tag may be left
//! out.

use p9_words::{Expected, Key, WordsError};

const TEXTS: &str = "\
out of memory, 'tag' expected after byte 7, a message of less than 4294967296 bytes expected after byte 13";

#[test]
fn errors_have_texts(rt: HostRuntime) {
    let tag = WordsError::Unexpected {
        at: 7,
        expected: Expected::Key(Key::Tag),
    };
    let message = WordsError::Unexpected {
        at: 13,
        expected: Expected::ShortMessage,
    };
    let shown = format!(in rt.alloc(); "{}, {tag}, {message}", WordsError::NoMemory);
    let shown = shown.expect(&rt, "memory");
    assert!(rt; shown.as_str() == TEXTS);
}
