//! The commands over an input, with their options and words.

use p9_shell::{ArgShape, CommandShape, Given, Value};

/// How an input is called that is given no name.
pub const NAME: &str = "input";

/// The option that names the file of the output. The commands here append what they print to a value; the
/// program writes that into the file.
pub const OUTPUT: ArgShape = ArgShape {
    name: "output",
    given: Given::NameOr('o'),
    value: Value::Text("FILE"),
    help: "The file of the output, which is replaced once all of it is written",
    is_needed: false,
};

// The option that names the input.
const INPUT_NAME: ArgShape = ArgShape {
    name: "name",
    given: Given::Name,
    value: Value::TextOr("NAME", NAME),
    help: "The input's name in what is printed",
    is_needed: false,
};

/// The command [`seal`](crate::seal).
pub const SEAL: CommandShape = CommandShape {
    name: "seal",
    about: "Prints the input with its certificate, where what is hidden is out of reach",
    args: &[
        INPUT_NAME,
        OUTPUT,
        ArgShape {
            name: "anyway",
            given: Given::Name,
            value: Value::None,
            help: "Seals also where nothing is hidden, no user is listed, or an operation failed",
            is_needed: false,
        },
        ArgShape {
            name: "fixed",
            given: Given::Name,
            value: Value::None,
            help: "Seals only where no listed user can change anything that he reaches",
            is_needed: false,
        },
    ],
};

/// The command [`explain`](crate::explain).
pub const EXPLAIN: CommandShape = CommandShape {
    name: "explain",
    about: "Says in words whether what is hidden is out of reach, and why not",
    args: &[INPUT_NAME],
};

/// The command [`tree`](crate::tree).
pub const TREE: CommandShape = CommandShape {
    name: "tree",
    about: "Prints the name space as a user meets it",
    args: &[ArgShape {
        name: "user",
        given: Given::Word,
        value: Value::Text("USER"),
        help: "A listed user; without one all places are printed",
        is_needed: false,
    }],
};

/// The command [`map`](crate::map).
pub const MAP: CommandShape = CommandShape {
    name: "map",
    about: "Prints the input as a picture, in SVG",
    args: &[],
};
