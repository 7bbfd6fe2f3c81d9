//! What is expected in the place of what is wrong with a line of a world.

use crate::error::LineFault;

/// What is expected of the path of a directory to be hidden.
pub(crate) const EXPECTED_DIR: &str = "the path of a dir line above";

/// What is expected of it, where it is that of a file.
pub(crate) const EXPECTED_NO_FILE: &str =
    "it is a file; a directory is hidden, as the one that it is in";

/// What is expected of a line that begins with this word.
pub(crate) fn expected(kind: LineFault, verb: &str) -> &'static str {
    match kind {
        LineFault::UnknownWord => "server, dir, file, user, group, hide or set",
        LineFault::WordCount => expected_words(verb),
        LineFault::NoServer => "the line 'server NAME' is to be above",
        LineFault::BadName => "1 to 63 bytes without /, # and $",
        LineFault::BadPath => "names of 1 to 255 bytes, with / before each",
        LineFault::BadMode if verb == "file" => "three octal digits, as 644, after any of a, l, t",
        LineFault::BadMode => "three octal digits, as 755",
        LineFault::BadUser => "a name of 1 to 63 bytes",
        LineFault::BadHex => "- or two hexadecimal digits a byte, as 68690a",
        LineFault::TooLarge => "16777216 bytes at most",
        LineFault::NoParent => "a dir line above for the directory that it is in",
        LineFault::Duplicate => "each is named once",
        LineFault::TooMany => "65536 servers at most",
    }
}

// The words of an operation of a world.
fn expected_words(verb: &str) -> &'static str {
    match verb {
        "server" => "server NAME",
        "dir" => "dir PATH MODE OWNER GROUP",
        "file" => "file PATH MODE OWNER GROUP HEX",
        "user" => "user NAME",
        "group" => "group NAME LEADER MEMBER ..",
        "hide" => "hide SERVER PATH",
        _ => "set NAME VALUE",
    }
}
