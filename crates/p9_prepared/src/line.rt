//! Lines that are printed.

ghost use Rattle.std.specs.Prelude.{◌≡◌, ◌++◌, ◌∷◌, [], OnOk};

use p9_base::NoMemory;
use std::alloc::Allocator;

/// Prints a line. Where an allocation fails, it returns [`NoMemory`], and a part of the line may be
/// there.
pub fn print_line<A: Allocator + Copy>(line: &str, out: &mut Vec<u8, A>) -> Result<(), NoMemory>
    ensures { OnOk result (out.new.items ≡ out.old.items ++ (line.now ++ 10 ∷ [])) }
{
    print_bytes(line.as_bytes(), out)
}

/// Prints bytes, and a newline. Where an allocation fails, it returns [`NoMemory`], and a part of the
/// line may be there.
pub fn print_bytes<A: Allocator + Copy>(bytes: &[u8], out: &mut Vec<u8, A>) -> Result<(), NoMemory>
    ensures { OnOk result (out.new.items ≡ out.old.items ++ (bytes.now ++ 10 ∷ [])) }
{
    out.extend_from_slice(bytes)?;
    out.push(b'\n')?;
    Ok(())
}
