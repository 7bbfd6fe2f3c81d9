//! The commands over the standard input.

use crate::PROGRAM;
use crate::sink::write_text;
use crate::streams::read_input;
use clap::ArgMatches;
use p9_index::IndexTree;
use p9_inputs::InputCommand;
use p9_shell::status::DONE;
use p9_shell::{Failure, tell};
use std::alloc::Global;

/// Runs a command over the standard input: reports what it reports, and then prints what it prints, or
/// writes that into the file of the option `--output`, where all is done. Returns the exit status.
pub(crate) fn run_over_input(
    rt: &HostRuntime,
    command: InputCommand,
    options: &ArgMatches<'_>,
) -> Result<u8, Failure> {
    let input = read_input(rt)?;
    let mut out = Vec::new(rt.alloc());
    let mut err = Vec::new(rt.alloc());
    let status = command.run::<IndexTree<Global>>(input.as_slice(), options, &mut out, &mut err)?;
    tell(rt, err.as_slice())?;
    let file = if status == DONE {
        options.get_str("output")
    } else {
        None
    };
    write_text(rt, file, out.as_slice())?;
    Ok(status)
}
