//! Frames in words.

ghost use Rattle.std.specs.Prelude.{◌≡◌, ◌++◌, IfOk, OnOk};
ghost use Rattle.std.specs.String.{string_bytes};
ghost use Rattle.p9_exchange.specs.Message.{message_words, frame_fault};

use byteorder::{ByteOrder, LittleEndian};
use p9_base::NoMemory;
use p9_wire::{read_r, read_t};
use p9_words::{print_paired, print_reply, print_request};
use std::alloc::{AllocError, Allocator};

/// Prints the message that bytes are in words, after what `out` has. Bytes that are no message are
/// printed in hexadecimal digits.
#[tactic(auto, unfolding(crate::specs::Message::message_words))]
pub fn print_message<A: Allocator + Copy>(
    bytes: &[u8],
    out: &mut Vec<u8, A>,
) -> Result<(), NoMemory>
    ensures { OnOk result (out.new.items ≡ out.old.items ++ message_words bytes.now) }
{
    if let Some((tag, request)) = read_t(bytes) {
        return print_request(&request, tag, out);
    }
    match read_r(bytes) {
        Some((tag, reply)) => print_reply(&reply, tag, out),
        None => print_paired(bytes, out),
    }
}

/// Why bytes are no whole frame.
#[tactic(auto, unfolding(crate::specs::Message::frame_fault))]
pub fn frame_fault<A: Allocator + Copy>(alloc: A, bytes: &[u8]) -> Result<String<A>, AllocError>
    ensures { IfOk result (λ text. string_bytes text ≡ frame_fault bytes.now) }
{
    let n = bytes.len();
    if n < 4 {
        return format!(in alloc; "not a whole frame: it has {n} bytes");
    }
    let size = LittleEndian::read_u32(bytes);
    if size as usize == n {
        format!(in alloc; "not a whole frame: it has {n} bytes, and a frame from 7 to 1048576")
    } else {
        format!(in alloc; "not a whole frame: its size says {size} and it has {n} bytes")
    }
}
