//! What a request is answered, before it is written.

use p9_base::NodeRef;
use p9_wire::RMsg;

/// The reply to a request, or where it is to be found.
#[derive(Drop)]
pub enum Reply {
    /// This message.
    Message(RMsg<'static>),
    /// So many bytes of data, which are in the reply's buffer, after what comes before them.
    Data(u32),
    /// The stat of this node.
    StatOf(NodeRef),
}
