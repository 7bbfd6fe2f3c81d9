//! Tables of commands with their options and words, from which `clap` reads a command line.

use crate::version::VERSION;
use clap::{Arg, ArgAction, Command, value_parser};
use std::alloc::{AllocError, Global};

/// A program: its name, what it does, its options and words, and its commands, of which one has to be
/// given where there are some.
#[derive(Clone, Copy)]
pub struct ProgramShape {
    pub name: &'static str,
    pub about: &'static str,
    pub args: &'static [ArgShape],
    pub commands: &'static [CommandShape],
    /// Whether its help is printed where there is no word after its name.
    pub is_helping: bool,
}

/// A command: its name, what it does, and its options and words.
#[derive(Clone, Copy)]
pub struct CommandShape {
    pub name: &'static str,
    pub about: &'static str,
    pub args: &'static [ArgShape],
}

/// An option or a word: its name, how it is given, what its value is, what it is for, and whether it
/// has to be there.
#[derive(Clone, Copy)]
pub struct ArgShape {
    pub name: &'static str,
    pub given: Given,
    pub value: Value,
    pub help: &'static str,
    pub is_needed: bool,
}

/// How an option is given, or that it is no option.
#[derive(Clone, Copy)]
pub enum Given {
    /// By a letter.
    Letter(char),
    /// By its name.
    Name,
    /// By its name, or by a letter.
    NameOr(char),
    /// By its name, and nothing else is given.
    Alone,
    /// It is a word.
    Word,
    /// It is one word or more.
    Words,
}

/// What the value of an option or a word is, with its name for the help.
#[derive(Clone, Copy)]
pub enum Value {
    /// There is none.
    None,
    Text(&'static str),
    /// A text, or else this one is meant.
    TextOr(&'static str, &'static str),
    /// A text each time that it is given.
    Texts(&'static str),
    Number(&'static str),
}

/// The command line of a program.
pub fn program_of<'a>(alloc: Global, shape: &ProgramShape) -> Result<Command<'a>, AllocError> {
    let program = with_args(alloc, bare_program(alloc, shape), shape.args)?;
    with_commands(alloc, program, shape.commands)
}

// A program without its arguments.
fn bare_program<'a>(alloc: Global, shape: &ProgramShape) -> Command<'a> {
    Command::new(alloc, shape.name)
        .version(VERSION)
        .about(shape.about)
        .subcommand_required(!shape.commands.is_empty())
        .arg_required_else_help(shape.is_helping)
}

/// Adds commands to a program.
pub fn with_commands<'a>(
    alloc: Global,
    program: Command<'a>,
    shapes: &[CommandShape],
) -> Result<Command<'a>, AllocError> {
    let mut program = program;
    for shape in shapes {
        program = program.subcommand(command_of(alloc, shape)?)?;
    }
    Ok(program)
}

// A command with its options and words.
fn command_of<'a>(alloc: Global, shape: &CommandShape) -> Result<Command<'a>, AllocError> {
    let command = Command::new(alloc, shape.name).about(shape.about);
    with_args(alloc, command, shape.args)
}

// Adds options and words to a program or a command.
fn with_args<'a>(
    alloc: Global,
    command: Command<'a>,
    shapes: &[ArgShape],
) -> Result<Command<'a>, AllocError> {
    let mut command = command;
    for shape in shapes {
        command = command.arg(arg_of(alloc, shape))?;
    }
    Ok(command)
}

// An option or a word.
fn arg_of<'a>(alloc: Global, shape: &ArgShape) -> Arg<'a> {
    let arg = Arg::new(alloc, shape.name)
        .help(shape.help)
        .required(shape.is_needed);
    with_value(as_given(arg, shape), shape.value)
}

// An option or a word, given as its shape says.
fn as_given<'a>(arg: Arg<'a>, shape: &ArgShape) -> Arg<'a> {
    match shape.given {
        Given::Letter(letter) => arg.short(letter),
        Given::Name => arg.long(shape.name),
        Given::NameOr(letter) => arg.long(shape.name).short(letter),
        Given::Alone => arg.long(shape.name).exclusive(true),
        Given::Word => arg,
        Given::Words => arg.num_args(1..),
    }
}

// An option or a word with a value, if it has one.
fn with_value<'a>(arg: Arg<'a>, value: Value) -> Arg<'a> {
    match value {
        Value::None => arg.action(ArgAction::SetTrue),
        Value::Text(name) => arg.value_name(name).action(ArgAction::Set),
        Value::TextOr(name, other) => arg
            .value_name(name)
            .default_value(other)
            .action(ArgAction::Set),
        Value::Texts(name) => arg.value_name(name).action(ArgAction::Append),
        Value::Number(name) => arg
            .value_name(name)
            .action(ArgAction::Set)
            .value_parser(value_parser!(usize)),
    }
}
