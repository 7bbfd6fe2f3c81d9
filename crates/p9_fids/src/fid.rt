//! A fid: who holds it, where it is, and what it is open for.

use crate::opened::Opened;
use p9_base::User;
use p9_space::Channels;
use std::alloc::Allocator;
use std::marker::Model;

/// What a client holds on to, as intro(5).
#[derive(Drop)]
pub struct Fid<A: Allocator + Copy> {
    /// Who attached it.
    pub user: User,
    /// How its file was reached.
    pub channels: Channels<A>,
    /// What it is open for, if it is.
    pub opened: Option<Opened>,
}

impl<A: Allocator + Copy> Model for Fid<A> {
    ghost use Rattle.p9_space.specs.Channel.{trail_of};
    ghost use Rattle.p9_fids.specs.Held.{Held};

    ghost Value = { Held };

    ghost view = { λ v. record {
      fid = record { user = v.user; trail = trail_of v.channels; opened = v.opened };
      rows = v.channels.rows;
    } };
}
