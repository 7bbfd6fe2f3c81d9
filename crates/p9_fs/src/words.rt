//! The words of the command line, and of a line of commands.

use crate::get::GetOptions;
use crate::limits::Limits;
use crate::remote::Listing;
use clap::{ArgMatches, Command};
use p9_shell::{ArgShape, CommandShape, Given, ProgramShape, Value, with_commands};
use std::alloc::{AllocError, Global};

/// What is asked for.
#[derive(Clone, Copy)]
pub enum Verb<'a> {
    /// The entries of a directory, or a file.
    List {
        path: &'a str,
        listing: Listing,
    },
    /// The bytes of a file.
    Cat {
        path: &'a str,
    },
    /// What the server reports of a file.
    Stat {
        path: &'a str,
    },
    /// A copy of a file, or of all in a directory.
    Get {
        path: &'a str,
        local: &'a str,
        options: GetOptions<'a>,
    },
    /// A copy to the server, of a file, or of all in a directory.
    Put {
        local: &'a str,
        path: &'a str,
        is_recursive: bool,
    },
    /// A new directory; also those above it.
    MakeDir {
        path: &'a str,
        parents: bool,
    },
    /// No more file; or nothing more of all in a directory.
    Remove {
        path: &'a str,
        is_recursive: bool,
    },
    /// Another name.
    Rename {
        path: &'a str,
        name: &'a str,
    },
    /// Other permissions.
    ChangeMode {
        mode: u32,
        path: &'a str,
    },
    /// The commands of the standard input.
    Shell,
}

/// What the words ask for that `clap` read, or `None` where a mode is no octal number up to 777.
pub fn verb_of<'a>(words: &ArgMatches<'a>) -> Option<Verb<'a>> {
    let (name, words) = words.subcommand()?;
    match name {
        "ls" => Some(Verb::List {
            path: words.get_str("path").unwrap_or("/"),
            listing: if words.get_flag("long") {
                Listing::Long
            } else {
                Listing::Short
            },
        }),
        "sh" => Some(Verb::Shell),
        _ => file_verb(name, words, words.get_str("path")?),
    }
}

// What a command of this name asks for of the file of a path.
fn file_verb<'a>(name: &str, words: &ArgMatches<'a>, path: &'a str) -> Option<Verb<'a>> {
    match name {
        "cat" => Some(Verb::Cat { path }),
        "stat" => Some(Verb::Stat { path }),
        "mkdir" => Some(Verb::MakeDir {
            path,
            parents: words.get_flag("parents"),
        }),
        "rm" => Some(Verb::Remove {
            path,
            is_recursive: words.get_flag("recursive"),
        }),
        _ => verb_of_two(name, words, path, words.get_str("other")?),
    }
}

// How files are to be copied.
fn get_options<'a>(words: &ArgMatches<'a>) -> GetOptions<'a> {
    GetOptions {
        is_recursive: words.get_flag("recursive"),
        keeps: words.get_flag("preserve"),
        owners: words.get_str("owners"),
        limits: Limits::of(words),
    }
}

// What a command of this name asks for of the file of a path, with another word.
fn verb_of_two<'a>(
    name: &str,
    words: &ArgMatches<'a>,
    path: &'a str,
    other: &'a str,
) -> Option<Verb<'a>> {
    match name {
        "get" => Some(Verb::Get {
            path,
            local: other,
            options: get_options(words),
        }),
        "put" => Some(Verb::Put {
            local: other,
            path,
            is_recursive: words.get_flag("recursive"),
        }),
        "mv" => Some(Verb::Rename { path, name: other }),
        "chmod" => Some(Verb::ChangeMode {
            mode: permissions_in(other)?,
            path,
        }),
        _ => None,
    }
}

// The permissions that a text writes, which are an octal number up to 777.
fn permissions_in(text: &str) -> Option<u32> {
    match u32::from_str_radix(text, 8) {
        Ok(permissions) if permissions <= 0o777 => Some(permissions),
        _ => None,
    }
}

// The options of the program.
const OPTIONS: [ArgShape; 5] = [
    ArgShape {
        name: "addr",
        given: Given::Letter('a'),
        value: Value::Text("ADDR"),
        help: "the server's address, HOST:PORT",
        is_needed: true,
    },
    ArgShape {
        name: "user",
        given: Given::Letter('u'),
        value: Value::Text("USER"),
        help: "the user to attach as, or else $USER, or none",
        is_needed: false,
    },
    ArgShape {
        name: "aname",
        given: Given::Letter('n'),
        value: Value::Text("ANAME"),
        help: "the tree to attach",
        is_needed: false,
    },
    ArgShape {
        name: "msize",
        given: Given::Letter('m'),
        value: Value::Number("MSIZE"),
        help: "the most bytes of a message",
        is_needed: false,
    },
    ArgShape {
        name: "timeout",
        given: Given::Name,
        value: Value::Number("SECONDS"),
        help: "how long a reply may take, or else 30 seconds",
        is_needed: false,
    },
];

// The option for all that is in a directory.
const RECURSIVE: ArgShape = ArgShape {
    name: "recursive",
    given: Given::Letter('r'),
    value: Value::None,
    help: "a directory with all that is in it",
    is_needed: false,
};

// The path of a file of the server.
const PATH: ArgShape = ArgShape {
    name: "path",
    given: Given::Word,
    value: Value::Text("PATH"),
    help: "a path of the server",
    is_needed: true,
};

// The word beside the path.
const LOCAL: ArgShape = ArgShape {
    name: "other",
    given: Given::Word,
    value: Value::Text("LOCAL"),
    help: "a path of this system",
    is_needed: true,
};

// The commands. The last one runs the others.
const COMMANDS: [CommandShape; 10] = [
    CommandShape {
        name: "ls",
        about: "lists a directory or a file",
        args: &[
            ArgShape {
                name: "long",
                given: Given::Letter('l'),
                value: Value::None,
                help: "in long lines",
                is_needed: false,
            },
            ArgShape {
                is_needed: false,
                ..PATH
            },
        ],
    },
    CommandShape {
        name: "get",
        about: "copies a file from the server",
        args: &[
            RECURSIVE,
            ArgShape {
                name: "preserve",
                given: Given::Letter('p'),
                value: Value::None,
                help: "with the server's modes and, as root, its owners",
                is_needed: false,
            },
            ArgShape {
                name: "owners",
                given: Given::Name,
                value: Value::Text("FILE"),
                help: "a file for the lines of a world that has what is copied",
                is_needed: false,
            },
            ArgShape {
                name: "max-depth",
                given: Given::Name,
                value: Value::Number("N"),
                help: "the most directories one in another, or else 64",
                is_needed: false,
            },
            ArgShape {
                name: "max-files",
                given: Given::Name,
                value: Value::Number("N"),
                help: "the most files and directories, or else 10000000",
                is_needed: false,
            },
            ArgShape {
                name: "max-bytes",
                given: Given::Name,
                value: Value::Number("N"),
                help: "the most bytes of files, or else 1099511627776",
                is_needed: false,
            },
            PATH,
            LOCAL,
        ],
    },
    CommandShape {
        name: "cat",
        about: "prints a file",
        args: &[PATH],
    },
    CommandShape {
        name: "stat",
        about: "prints all that the server reports of a file",
        args: &[PATH],
    },
    CommandShape {
        name: "put",
        about: "copies a file to the server",
        args: &[RECURSIVE, LOCAL, PATH],
    },
    CommandShape {
        name: "mkdir",
        about: "makes a directory",
        args: &[
            ArgShape {
                name: "parents",
                given: Given::Letter('p'),
                value: Value::None,
                help: "also those above it; one that is there is no error",
                is_needed: false,
            },
            PATH,
        ],
    },
    CommandShape {
        name: "rm",
        about: "removes a file or an empty directory",
        args: &[RECURSIVE, PATH],
    },
    CommandShape {
        name: "mv",
        about: "gives a file another name, in the same directory",
        args: &[
            PATH,
            ArgShape {
                value: Value::Text("NAME"),
                help: "the new name",
                ..LOCAL
            },
        ],
    },
    CommandShape {
        name: "chmod",
        about: "gives a file the permissions of an octal number",
        args: &[
            ArgShape {
                value: Value::Text("MODE"),
                help: "an octal number, as 644",
                ..LOCAL
            },
            PATH,
        ],
    },
    CommandShape {
        name: "sh",
        about: "runs the commands of the standard input",
        args: &[],
    },
];

/// The program's command line.
pub const SHAPE: ProgramShape = ProgramShape {
    name: "p9_fs",
    about: "looks at an export of 9P2000, and copies files from it and to it",
    args: &OPTIONS,
    commands: &COMMANDS,
    is_helping: false,
};

/// A line of commands, after the program's name. No line runs lines.
pub fn line_program<'a>(alloc: Global) -> Result<Command<'a>, AllocError> {
    let program = Command::new(alloc, "p9_fs")
        .disable_version_flag(true)
        .subcommand_required(true);
    with_commands(alloc, program, &COMMANDS[..9])
}
