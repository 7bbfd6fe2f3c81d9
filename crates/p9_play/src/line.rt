//! Lines of digits that are printed.

ghost use Rattle.std.specs.Prelude.{◌≡◌, ◌≤◌, ◌*◌, ◌++◌, ◌∷◌, [], OnOk, length};
ghost use Rattle.hex.specs.Hex.{encode_lower};

use p9_base::NoMemory;
use p9_prepared::print_bytes;
use std::alloc::Allocator;

/// Prints bytes as a line of lower case hexadecimal digits. Where an allocation fails, a part of it
/// may be there. `digits` is a buffer with room for twice as many bytes, whose content is lost.
pub(crate) fn print_hex<A: Allocator + Copy>(
    bytes: &[u8],
    digits: &mut [u8],
    out: &mut Vec<u8, A>,
) -> Result<(), NoMemory>
    requires { 2 * length bytes.now ≤ length digits.old }
    ensures { OnOk result
        (out.new.items ≡ out.old.items ++ (encode_lower bytes.now ++ 10 ∷ [])) }
{
    let line = &mut digits[..2 * bytes.len()];
    hex::encode_to_slice(bytes, line).unwrap();
    print_bytes(line, out)
}
