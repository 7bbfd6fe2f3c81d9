//! Replies that say that an allocation failed.

/// Whether the reply to the request says that an allocation failed.
pub fn is_refusal(request: &[u8], reply: &[u8]) -> bool {
    reply.get(..5) == Some([22, 0, 0, 0, 107].as_slice())
        && reply.get(5..7) == request.get(5..7)
        && reply.get(7..) == Some(b"\x0d\0out of memory".as_slice())
}

/// Whether memory may be refused to a request of this type: an attach, a walk, a create, a write
/// and a wstat.
pub fn may_run_out(request: &[u8]) -> bool {
    matches!(request.get(4), Some(104 | 110 | 114 | 118 | 126))
}
