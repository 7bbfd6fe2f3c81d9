//! The replies to requests that were sent together.

ghost use Rattle.std.specs.Prelude.{◌≡◌, [], ◌∷◌, ◌++◌, IfOk, OnErr, OnOk, length};
ghost use Rattle.std.specs.List.{Contains};
ghost use Rattle.p9_client.specs.Ahead.{FindsReplies};
ghost use Rattle.p9_client.specs.Frame.{HasSize};

use crate::error::ClientError;
use crate::reply::{Asked, dropped_reply};
use crate::session::tag_after;
use byteorder::{ByteOrder, LittleEndian};
use p9_base::NoMemory;
use p9_wire::NOTAG;
use std::alloc::Allocator;
use std::marker::Model;

// Where the tag of a frame is.
const TAG_AT: usize = 5;

// The frame of a reply, and its tag.
#[derive(Drop)]
struct Reply<A: Allocator + Copy> {
    tag: u16,
    frame: Vec<u8, A>,
}

/// The frames of replies, in the order in which they came.
#[derive(Drop)]
pub(crate) struct Replies<A: Allocator + Copy> {
    replies: Vec<Reply<A>, A>,
}

impl<A: Allocator + Copy> Model for Replies<A> {
    ghost use Rattle.std.specs.Prelude.{ℕ, List, map};
    ghost use Rattle.std.specs.List.{All};
    ghost use Rattle.p9_client.specs.Frame.{HasSize};

    ghost Value = { List (List ℕ) };

    ghost view = { λ s. map (λ reply. reply.frame.items) s.replies.items };

    ghost invariant = { λ s. All HasSize (map (λ reply. reply.frame.items) s.replies.items) };
}

impl<A: Allocator + Copy> Replies<A> {
    /// No replies.
    pub(crate) fn new(alloc: A) -> Replies<A>
        ensures { result ≡ [] }
    {
        Replies {
            replies: Vec::new(alloc),
        }
    }

    /// How many replies these are.
    pub(crate) fn len(&self) -> usize
        ensures { result ≡ length self.now }
    {
        self.replies.len()
    }

    /// Keeps the frame of a reply that came, to one of so many requests, of which the first has the
    /// tag `first`, and each the tag after that of the one before.
    ///
    /// # Errors
    ///
    /// [`ClientError::OtherTag`] where it has the tag of none of these requests, or that of a reply
    /// that came before. [`ClientError::NoMemory`] is an allocation that fails.
    pub(crate) fn keep(&mut self, first: u16, count: usize, frame: &[u8]) -> Result<(), ClientError>
        requires { HasSize frame.now }
        ensures ok { OnOk result (self.new ≡ self.old ++ frame.now ∷ []) }
    {
        let tag = LittleEndian::read_u16(&frame[TAG_AT..]);
        if !is_awaited(first, count, tag) || self.with_tag(tag).is_ok() {
            return Err(ClientError::OtherTag);
        }
        self.push(tag, frame)?;
        Ok(())
    }

    // Adds a frame.
    fn push(&mut self, tag: u16, frame: &[u8]) -> Result<(), NoMemory>
        requires { HasSize frame.now }
        ensures ok { OnOk result (self.new ≡ self.old ++ frame.now ∷ []) }
    {
        let frame = Vec::from_slice(*self.replies.allocator(), frame)?;
        self.replies.push(Reply { tag, frame })?;
        Ok(())
    }

    /// The frame with this tag.
    ///
    /// # Errors
    ///
    /// [`ClientError::OtherTag`] where no frame has it.
    pub(crate) fn with_tag(&self, tag: u16) -> Result<&[u8], ClientError>
        ensures there { IfOk result (λ frame. Contains self.now frame.now) }
        ensures size { IfOk result (λ frame. HasSize frame.now) }
    {
        for reply in self.replies.as_slice() {
            if reply.tag == tag {
                return Ok(reply.frame.as_slice());
            }
        }
        Err(ClientError::OtherTag)
    }

    /// Looks at the replies to so many reads or writes of at most so many bytes, of which the first
    /// has this tag. What they give does not matter, and a refusal does not either.
    ///
    /// # Errors
    ///
    /// Those of `with_tag`, and of `dropped_reply`.
    pub(crate) fn drop_from(
        &self,
        asked: Asked,
        first: u16,
        count: usize,
        most: usize,
    ) -> Result<(), ClientError>
        ensures { OnOk result (FindsReplies self.now first count) }
    {
        let mut tag = first;
        for _ in 0..count {
            dropped_reply(asked, tag, self.with_tag(tag)?, most)?;
            tag = tag_after(tag);
        }
        Ok(())
    }
}

// Whether a tag is that of one of so many requests, of which the first has the tag `first`.
fn is_awaited(first: u16, count: usize, tag: u16) -> bool {
    let behind = if tag < first {
        usize::from(tag) + usize::from(NOTAG) - usize::from(first)
    } else {
        usize::from(tag) - usize::from(first)
    };
    tag != NOTAG && behind < count
}
