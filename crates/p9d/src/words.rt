//! The words of the command line.

use clap::ArgMatches;
use p9_shell::{ArgShape, Given, ProgramShape, Value};

// How many clients may be there at once, and how many of these from one address.
const CLIENTS: usize = 1_000;

const PER_ADDRESS: usize = 100;

// The seconds between two syncs.
const SYNC_SECONDS: usize = 1;

/// What the words ask for.
#[derive(Clone, Copy)]
pub(crate) struct Asked<'a> {
    /// The file of the export.
    pub export: &'a str,
    /// The folder in which changes are kept, if they are kept.
    pub folder: Option<&'a str>,
    /// The seconds between two syncs. Where they are 0, each reply waits for a sync.
    pub sync_seconds: usize,
    /// Whether an export that hides nothing is served.
    pub is_anyway: bool,
    /// Whether nothing but warnings and failures is told.
    pub is_quiet: bool,
    pub limits: Limits,
}

/// How many clients may be there at once, and how long one may send nothing.
#[derive(Clone, Copy)]
pub(crate) struct Limits {
    /// The most clients at once.
    pub clients: usize,
    /// The most clients at once from one IP address, or by one socket of the file system.
    pub per_address: usize,
    /// The seconds within which a client has to send a byte, where that is asked for.
    pub idle: Option<usize>,
}

/// What the words ask for that `clap` read, beside the addresses.
pub(crate) fn asked_in<'a>(words: &ArgMatches<'a>) -> Option<Asked<'a>> {
    Some(Asked {
        export: words.get_str("export")?,
        folder: words.get_str("folder"),
        sync_seconds: words.get_one::<usize>("seconds").unwrap_or(SYNC_SECONDS),
        is_anyway: words.get_flag("anyway"),
        is_quiet: words.get_flag("quiet"),
        limits: limits_in(words),
    })
}

// The limits of clients that they ask for.
fn limits_in(words: &ArgMatches<'_>) -> Limits {
    Limits {
        clients: words.get_one::<usize>("clients").unwrap_or(CLIENTS),
        per_address: words.get_one::<usize>("per-address").unwrap_or(PER_ADDRESS),
        idle: words.get_one::<usize>("idle"),
    }
}

/// The first option that sets a limit of 0, with which no client could stay.
pub(crate) fn limit_of_none(words: &ArgMatches<'_>) -> Option<&'static str> {
    if words.get_one::<usize>("clients") == Some(0) {
        return Some("--clients");
    }
    if words.get_one::<usize>("per-address") == Some(0) {
        return Some("--per-address");
    }
    if words.get_one::<usize>("idle") == Some(0) {
        return Some("--idle");
    }
    None
}

// The options, and the word.
const ARGS: [ArgShape; 10] = [
    ArgShape {
        name: "address",
        given: Given::Letter('a'),
        value: Value::Texts("ADDR[=USER,..]"),
        help: "An IP address with a port, or unix:PATH; who comes there may attach as these users alone",
        is_needed: true,
    },
    ArgShape {
        name: "folder",
        given: Given::Letter('d'),
        value: Value::Text("DIR"),
        help: "Keep in this folder what clients change",
        is_needed: false,
    },
    ArgShape {
        name: "seconds",
        given: Given::Letter('s'),
        value: Value::Number("SECONDS"),
        help: "Sync so often: 1; 0 syncs before each reply",
        is_needed: false,
    },
    ArgShape {
        name: "check",
        given: Given::Alone,
        value: Value::Text("DIR"),
        help: "Say what is kept in a folder, and change nothing",
        is_needed: false,
    },
    ArgShape {
        name: "clients",
        given: Given::Name,
        value: Value::Number("N"),
        help: "The most clients at once: 1000",
        is_needed: false,
    },
    ArgShape {
        name: "per-address",
        given: Given::Name,
        value: Value::Number("N"),
        help: "The most from one address: 100",
        is_needed: false,
    },
    ArgShape {
        name: "idle",
        given: Given::Name,
        value: Value::Number("SECONDS"),
        help: "Close clients that send nothing so long",
        is_needed: false,
    },
    ArgShape {
        name: "anyway",
        given: Given::Name,
        value: Value::None,
        help: "Serve an export that hides nothing",
        is_needed: false,
    },
    ArgShape {
        name: "quiet",
        given: Given::NameOr('q'),
        value: Value::None,
        help: "Tell nothing but warnings and failures",
        is_needed: false,
    },
    ArgShape {
        name: "export",
        given: Given::Word,
        value: Value::Text("EXPORT"),
        help: "The file of a sealed input",
        is_needed: true,
    },
];

/// The program's command line.
pub(crate) const SHAPE: ProgramShape = ProgramShape {
    name: "p9d",
    about: "Serves an export as 9P2000 until its standard input, a pipe, ends or a signal comes",
    args: &ARGS,
    commands: &[],
    is_helping: false,
};
