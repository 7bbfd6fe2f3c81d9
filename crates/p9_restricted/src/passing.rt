//! Bytes on their way to a session: the names that no client may attach as are masked in them.

ghost use Rattle.std.specs.Prelude.{◌≡◌, ◌<◌, drop, length};
ghost use Rattle.p9_restricted.specs.Front.{IsWithin, blanked, longest};
ghost use Rattle.p9_restricted.specs.Masked.{Passes};
ghost use Rattle.p9_restricted.specs.declared.passing.Place.TheVariants.{Before};

use crate::front::{Front, NAME_AT, front_of};
use p9_base::User;
use std::alloc::Allocator;
use std::marker::Model;

/// Where in the frames the next byte is.
#[derive(Clone, Copy, Debug, PartialEq, Eq)]
pub(crate) enum Place {
    /// So many bytes before the next frame.
    Before(usize),
    /// After a size that no frame has: no frame begins any more.
    Lost,
}

/// The users who may attach, and where in the frames the next byte is.
#[derive(Drop)]
pub(crate) struct Passing<A: Allocator> {
    users: Vec<User, A>,
    place: Place,
}

impl<A: Allocator> Model for Passing<A> {
    ghost use Rattle.p9_restricted.specs.Masked.{Gate};

    ghost Value = { Gate };

    ghost view = { λ p. record { users = p.users.items; place = p.place } };
}

impl<A: Allocator> Passing<A> {
    /// Before the first frame, where these users may attach.
    pub fn new(users: Vec<User, A>) -> Passing<A>
        ensures { result ≡ record { users = users.items; place = Before 0 } }
    {
        Passing {
            users,
            place: Place::Before(0),
        }
    }

    /// Passes bytes on from the front, as far as it is known what they are, and masks the names in
    /// them. Returns how many are passed. The others are unchanged, and are fewer than the longest
    /// name and what is before it.
    pub fn pass(&mut self, bytes: &mut [u8]) -> usize
        ensures passed { Passes self.old bytes.old self.new bytes.new result }
        ensures few { length (drop result bytes.new) < longest }
    {
        let mut at = 0;
        while at < bytes.len() {
            let count = self.pass_front(&mut bytes[at..]);
            if count == 0 {
                return at;
            }
            at += count;
        }
        at
    }

    // Passes bytes on up to the end of a frame: none where there are none, or too few to say what
    // begins.
    fn pass_front(&mut self, bytes: &mut [u8]) -> usize
        ensures passed { Passes self.old bytes.old self.new bytes.new result }
        ensures few { result ≡ 0 → length bytes.old < longest }
    {
        match self.place {
            Place::Before(0) => self.begin(bytes),
            Place::Before(left) => {
                let count = left.min(bytes.len());
                self.place = Place::Before(left - count);
                count
            }
            Place::Lost => bytes.len(),
        }
    }

    // Passes bytes of a frame on, from its first one.
    fn begin(&mut self, bytes: &mut [u8]) -> usize
        requires { self.old.place ≡ Before 0 }
        ensures passed { Passes self.old bytes.old self.new bytes.new result }
        ensures few { result ≡ 0 → length bytes.old < longest }
    {
        match front_of(self.users.as_slice(), bytes) {
            Front::Undecided => 0,
            Front::Broken => {
                self.place = Place::Lost;
                bytes.len()
            }
            Front::Frame { size, mask } => {
                blank(bytes, mask);
                let count = size.min(bytes.len());
                self.place = Place::Before(size - count);
                count
            }
        }
    }
}

// Puts so many blanks in the place of a user's name.
fn blank(bytes: &mut [u8], mask: usize)
    requires { IsWithin mask (length bytes.old) }
    ensures { bytes.new ≡ blanked mask bytes.old }
{
    if mask > 0 {
        bytes[NAME_AT..NAME_AT + mask].fill(b' ');
    }
}
