//! The standard input.

ghost use Rattle.std.specs.Prelude.{◌≡◌, map};
ghost use Rattle.p9_admin.specs.Input.{has_world};

use crate::PROGRAM;
use p9_base::lines;
use p9_prepared::Section;
use p9_shell::Failure;
use std::io::IsTerminal;

/// The bytes of the standard input, which is an input of `p9`. Where it is a terminal, a line on
/// standard error says what is waited for. Another says where the world is the sample world.
pub(crate) fn read_input(rt: &HostRuntime) -> Result<Vec<u8>, Failure> {
    if rt.stdin().is_terminal() {
        eprintln!(rt; "p9_admin: waits for an input of p9 on standard input")?;
    }
    let input = PROGRAM.input(rt)?;
    note_sample(rt, input.as_slice())?;
    Ok(input)
}

// Says where the world of an input is the sample world.
fn note_sample(rt: &HostRuntime, input: &[u8]) -> Result<(), Failure> {
    let Ok(text) = str::from_utf8(input) else {
        return Ok(());
    };
    if !has_world(lines(rt.alloc(), text)?.as_slice()) {
        eprintln!(rt; "p9_admin: the input has no world section: this is the sample world of p9")?;
    }
    Ok(())
}

// Whether a line begins a world section.
fn has_world(lines: &[&str]) -> bool
    ensures { result ≡ has_world (map (λ line. line.now) lines.now) }
{
    for line in lines {
        if *line == Section::World.head() {
            return true;
        }
    }
    false
}
