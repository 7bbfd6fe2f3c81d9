//! Text that is printed for people.

ghost use Rattle.std.specs.Prelude.{◌≡◌, ◌++◌, OnOk};
ghost use Rattle.p9_shown.specs.Text.{shown_text};

use p9_base::NoMemory;
use p9_shown::shown;
use std::alloc::Allocator;

/// Prints a text as it is shown to people. Where an allocation fails, a part of it may be there.
pub(crate) fn print_shown<A: Allocator + Copy>(
    text: &str,
    out: &mut Vec<u8, A>,
) -> Result<(), NoMemory>
    ensures { OnOk result (out.new.items ≡ out.old.items ++ shown_text text.now) }
{
    let shown = shown(*out.allocator(), text)?;
    out.extend_from_slice(shown.as_bytes())?;
    Ok(())
}
