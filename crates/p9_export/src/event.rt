//! What happens to the exporter.

use std::alloc::Allocator;

/// One whole event. It is finished before the next one of any session is taken. A session's name is
/// the caller's choice, and may be used again once the session is closed. Clock readings are in
/// seconds since 1970, modulo 2^32.
#[derive(Drop)]
pub enum Event<A: Allocator> {
    /// A session of this name is opened.
    Open(u32),
    /// The session of this name gets a frame, at this reading of the clock.
    Message(u32, Vec<u8, A>, u32),
    /// The session of this name is closed, at this reading of the clock.
    Close(u32, u32),
}
