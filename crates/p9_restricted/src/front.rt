//! What begins a frame: how long it is, and the name of the user as whom it attaches.

ghost use Rattle.std.specs.Prelude.{◌≡◌};
ghost use Rattle.p9_restricted.specs.Front.{attach_front, front_of, masked_len, user_of};

use byteorder::{ByteOrder, LittleEndian};
use p9_base::User;
use p9_wire::{HEADER, MSIZE_MAX};
use std::str::from_utf8;

// The type of a Tattach.
const TATTACH: u8 = 104;

// Where the type of a message is.
const TYPE_AT: usize = 4;

// Where the length of the user's name of a Tattach is, and where the name itself begins.
const LENGTH_AT: usize = 15;

/// Where the user's name of a Tattach begins.
pub(crate) const NAME_AT: usize = 17;

// The most bytes of a user's name.
const USER_MAX: usize = 63;

/// What is at the front of bytes that begin a frame.
#[derive(Clone, Copy, Debug, PartialEq, Eq)]
pub(crate) enum Front {
    /// Too few bytes to say.
    Undecided,
    /// A size that no frame has: what follows isn't known.
    Broken,
    /// A frame of this size. So many bytes of the user's name are to be masked: all, where it is a
    /// Tattach for a user who may not come this way, and else none.
    Frame { size: usize, mask: usize },
}

/// What is at the front of bytes that begin a frame, where these users may attach.
pub(crate) fn front_of(users: &[User], bytes: &[u8]) -> Front
    ensures { result ≡ front_of users.now bytes.now }
{
    if bytes.len() < TYPE_AT {
        return Front::Undecided;
    }
    let size = LittleEndian::read_u32(bytes) as usize;
    if size < HEADER || size > MSIZE_MAX as usize {
        return Front::Broken;
    }
    match bytes.get(TYPE_AT) {
        None => Front::Undecided,
        Some(kind) if *kind == TATTACH && size >= NAME_AT => attach_front(users, size, bytes),
        Some(_) => Front::Frame { size, mask: 0 },
    }
}

// The same of a Tattach of this size.
fn attach_front(users: &[User], size: usize, bytes: &[u8]) -> Front
    ensures { result ≡ attach_front users.now size bytes.now }
{
    if bytes.len() < NAME_AT {
        return Front::Undecided;
    }
    let len = LittleEndian::read_u16(&bytes[LENGTH_AT..]) as usize;
    if len > USER_MAX || size < NAME_AT + len {
        return Front::Frame { size, mask: 0 };
    }
    if bytes.len() < NAME_AT + len {
        return Front::Undecided;
    }
    let mask = masked_len(users, &bytes[NAME_AT..NAME_AT + len]);
    Front::Frame { size, mask }
}

// How many bytes of a name are to be masked.
fn masked_len(users: &[User], name: &[u8]) -> usize
    ensures { result ≡ masked_len users.now name.now }
{
    match user_of(name) {
        Some(user) if !users.contains(&user) => name.len(),
        _ => 0,
    }
}

// The user of a name.
fn user_of(name: &[u8]) -> Option<User>
    ensures { result ≡ user_of name.now }
{
    match from_utf8(name) {
        Ok(text) => User::new(text),
        Err(_) => None,
    }
}
