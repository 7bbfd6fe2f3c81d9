//! Bytes of hexadecimal digits, for tests: a frame is written with a blank between its fields.

ghost use Rattle.std.specs.Prelude.{◌≡◌, ◌⊎◌, IfErr, IfOk, Ok, Err};
ghost use Rattle.hex.specs.Hex.{decode_of};
ghost use Rattle.hex.specs.declared.FromHexError.TheVariants.{OutOfMemory};
ghost use Rattle.p9_testing.specs.Digits.{digits_of};

use hex::FromHexError;
use std::alloc::Allocator;

/// The bytes of hexadecimal digits; blanks are passed over.
///
/// An `Err` is that of `hex`: what is no digit, an odd number of digits, or a failed allocation.
pub fn bytes_of<A: Allocator + Copy>(alloc: A, text: &str) -> Result<Vec<u8, A>, FromHexError>
    ensures ok { IfOk result (λ bytes. decode_of (digits_of text.now) ≡ Ok bytes.items) }
    ensures err { IfErr result (λ e. (e ≡ OutOfMemory) ⊎ (decode_of (digits_of text.now) ≡ Err e)) }
{
    let digits = text
        .bytes()
        .filter(|byte| *byte != b' ')
        .collect::<Vec<u8, A>>(alloc)?;
    hex::decode(alloc, digits)
}
