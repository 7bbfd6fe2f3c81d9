//! The commands over an input, by their names.

ghost use Rattle.std.specs.Prelude.{◌≡◌, IfOk, OnErr};
ghost use Rattle.clap.specs.Matches.{found_of};
ghost use Rattle.p9_inputs.specs.Added.{IsAsBefore};
ghost use Rattle.p9_inputs.specs.Command.{IsRun, command_named};

use crate::shapes::{EXPLAIN, MAP, SEAL, TREE};
use clap::ArgMatches;
use p9_base::NoMemory;
use p9_tree::Tree;

/// A command over an input.
#[derive(Clone, Copy, Debug, PartialEq, Eq)]
pub enum InputCommand {
    /// To [`seal`](crate::seal) it.
    Seal,
    /// To [`explain`](crate::explain) it.
    Explain,
    /// To show its [`tree`](crate::tree).
    Tree,
    /// To draw a [`map`](crate::map) of it.
    Map,
}

impl InputCommand {
    /// The command of this name.
    pub fn named(name: &str) -> Option<InputCommand>
        ensures { result ≡ command_named name.now }
    {
        match name {
            "seal" => Some(InputCommand::Seal),
            "explain" => Some(InputCommand::Explain),
            "tree" => Some(InputCommand::Tree),
            "map" => Some(InputCommand::Map),
            _ => None,
        }
    }

    /// Runs the command over an input, with the options that `clap` read of the words after it, and returns
    /// the exit status. What it prints is appended to `out`, and what it reports to `err`.
    ///
    /// Where an allocation fails, it returns [`NoMemory`], and both are as before.
    pub fn run<T: Tree>(
        self,
        input: &[u8],
        options: &ArgMatches<'_>,
        out: &mut Vec<u8, T::Alloc>,
        err: &mut Vec<u8, T::Alloc>,
    ) -> Result<u8, NoMemory>
        ensures ok { IfOk result (λ status. IsRun T.Alloc self (found_of options.now) input.now status
            out.old.items out.new.items err.old.items err.new.items) }
        ensures no_memory { OnErr result (IsAsBefore out.old.items out.new.items err.old.items
            err.new.items) }
    {
        match self {
            InputCommand::Seal => crate::seal::<T>(input, options, out, err),
            InputCommand::Explain => crate::explain::<T>(input, options, out),
            InputCommand::Tree => crate::tree::<T>(input, options, out, err),
            InputCommand::Map => crate::map::<T>(input, out, err),
        }
    }
}
