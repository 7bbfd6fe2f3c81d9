//! The words of the command line.

use p9_inputs::shapes::{EXPLAIN, MAP, OUTPUT, SEAL, TREE};
use p9_shell::{ArgShape, CommandShape, Given, ProgramShape, Value};

// The folder in which `p9d -d` keeps changes.
const FOLDER: ArgShape = ArgShape {
    name: "folder",
    given: Given::Word,
    value: Value::Text("DIR"),
    help: "The folder of p9d -d, of which nothing is changed",
    is_needed: true,
};

// The options of `pack`, and its directories.
const PACK: [ArgShape; 13] = [
    ArgShape {
        name: "name",
        given: Given::Name,
        value: Value::Text("NAME"),
        help: "The server's name, for one directory",
        is_needed: false,
    },
    ArgShape {
        name: "passwd",
        given: Given::Name,
        value: Value::TextOr("FILE", "/etc/passwd"),
        help: "The users",
        is_needed: false,
    },
    ArgShape {
        name: "group",
        given: Given::Name,
        value: Value::TextOr("FILE", "/etc/group"),
        help: "The groups",
        is_needed: false,
    },
    ArgShape {
        name: "owner",
        given: Given::Name,
        value: Value::Text("NAME"),
        help: "The owner of everything",
        is_needed: false,
    },
    ArgShape {
        name: "group-owner",
        given: Given::Name,
        value: Value::Text("NAME"),
        help: "The group of everything",
        is_needed: false,
    },
    ArgShape {
        name: "leader",
        given: Given::Name,
        value: Value::Text("NAME"),
        help: "The leader of each group",
        is_needed: false,
    },
    ArgShape {
        name: "user",
        given: Given::Name,
        value: Value::Texts("NAME"),
        help: "A listed user, who may attach",
        is_needed: false,
    },
    ArgShape {
        name: "hide",
        given: Given::Name,
        value: Value::Texts("[SERVER:]PATH"),
        help: "A directory to be hidden, whose inside is not packed",
        is_needed: false,
    },
    ArgShape {
        name: "with-hidden",
        given: Given::Name,
        value: Value::None,
        help: "Packs what is inside hidden directories, too",
        is_needed: false,
    },
    ArgShape {
        name: "rename",
        given: Given::Name,
        value: Value::Texts("C=TEXT"),
        help: "A character of names, and what takes its place, as ' =_'",
        is_needed: false,
    },
    OUTPUT,
    ArgShape {
        name: "skip",
        given: Given::Name,
        value: Value::None,
        help: "Exits with 0 where something is left out",
        is_needed: false,
    },
    ArgShape {
        name: "dirs",
        given: Given::Words,
        value: Value::Texts("DIR"),
        help: "A directory of the disk, which becomes a server",
        is_needed: true,
    },
];

const COMMANDS: [CommandShape; 8] = [
    CommandShape {
        name: "pack",
        about: "Prints the text of a world of directories of the disk",
        args: &PACK,
    },
    SEAL,
    EXPLAIN,
    TREE,
    MAP,
    CommandShape {
        name: "demo",
        about: "Makes an example to pack, with the commands that pack and seal it",
        args: &[ArgShape {
            name: "dir",
            given: Given::Word,
            value: Value::Text("DIR"),
            help: "The directory of the example, which must not be there",
            is_needed: true,
        }],
    },
    CommandShape {
        name: "world",
        about: "Prints what p9d -d keeps as an input for seal, with its present trees and no certificate",
        args: &[OUTPUT, FOLDER],
    },
    CommandShape {
        name: "unpack",
        about: "Writes the trees that p9d -d keeps into a new directory, each in one of its server's name",
        args: &[
            ArgShape {
                name: "preserve",
                given: Given::NameOr('p'),
                value: Value::None,
                help: "Gives files their owners and groups too, which only root may",
                is_needed: false,
            },
            FOLDER,
            ArgShape {
                name: "local",
                given: Given::Word,
                value: Value::Text("LOCAL"),
                help: "The directory that is made for them",
                is_needed: true,
            },
        ],
    },
];

/// The program's command line: a command and its options.
pub(crate) const SHAPE: ProgramShape = ProgramShape {
    name: "p9_admin",
    about: "What an administrator of an export does",
    args: &[],
    commands: &COMMANDS,
    is_helping: true,
};
