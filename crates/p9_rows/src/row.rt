//! Rows, and the parts that they have in common.

use crate::body::Body;
use crate::fault::LineFault;
use std::alloc::Global;

/// An input, and commands that are to end over it as the body says.
#[derive(Drop)]
pub struct Row {
    /// The commands, joined by `+`.
    pub commands: String,
    pub name: String,
    /// Whether each command is to end in another way than the body says.
    pub is_to_differ: bool,
    pub body: Body,
}

/// What rows and other parts put in by its name.
#[derive(Drop)]
pub struct Part {
    pub name: String,
    pub body: Body,
}

impl Row {
    /// The row of a head, which has the commands and the name. Its body is empty.
    pub fn begun(alloc: Global, head: &str, is_to_differ: bool) -> Result<Row, LineFault> {
        let (commands, name) = head.split_once(' ').ok_or(LineFault::NoName)?;
        Ok(Row {
            commands: String::from_str(alloc, commands)?,
            name: name_of(alloc, name)?,
            is_to_differ,
            body: Body::new(alloc),
        })
    }
}

impl Part {
    /// The part of this name, with an empty body.
    pub fn begun(alloc: Global, name: &str) -> Result<Part, LineFault> {
        Ok(Part {
            name: name_of(alloc, name)?,
            body: Body::new(alloc),
        })
    }
}

// A name, which is not empty.
fn name_of(alloc: Global, name: &str) -> Result<String, LineFault> {
    if name.is_empty() {
        return Err(LineFault::NoName);
    }
    Ok(String::from_str(alloc, name)?)
}
