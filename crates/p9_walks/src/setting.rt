//! What no event changes.

ghost use Rattle.std.specs.Prelude.{◌≡◌};
ghost use Rattle.p9_space.specs.Rights.{who_view};
ghost use Rattle.p9_fids.specs.Held.{HeldFits};
ghost use Rattle.p9_step.specs.State.{fid_ref, who_of};
ghost use Rattle.p9_walks.specs.Held.{fresh_held};

use crate::session::Session;
use p9_base::{Groups, NodeRef, User};
use p9_fids::Fid;
use p9_space::{MountTable, Who};
use std::alloc::Allocator;
use std::marker::Model;

/// What the exporter was made with, and what stays while it serves.
#[derive(Drop)]
pub struct Setting<A: Allocator + Copy> {
    /// Where memory comes from.
    pub alloc: A,
    /// The users who may attach.
    pub users: Vec<User, A>,
    /// The groups by which rights are given.
    pub groups: Groups<A>,
    /// The name space that is served.
    pub table: MountTable<A>,
}

impl<A: Allocator + Copy> Model for Setting<A> {
    ghost use Rattle.p9_step.specs.State.{Setting as SettingOf};

    ghost Value = { SettingOf };

    ghost view = { λ s. record { users = s.users.items; groups = s.groups; table = s.table } };
}

impl<A: Allocator + Copy> Setting<A> {
    /// A session whose version isn't set. This takes no memory.
    pub fn session(&self) -> Session<A>
        ensures { result ≡ fresh_held }
    {
        Session::new(self.alloc)
    }

    /// A user, with the groups.
    pub fn who<'a>(&'a self, user: &'a User) -> Who<'a, A>
        ensures { who_view result ≡ who_of self.now user.now }
    {
        Who {
            user,
            groups: &self.groups,
        }
    }

    /// The file of a fid, whether it exists or not: the first member of the place where its trail
    /// ends.
    pub fn file(&self, fid: &Fid<A>) -> NodeRef
        requires { HeldFits self.now.table fid.now }
        ensures { result ≡ fid_ref self.now.table fid.now.fid }
    {
        fid.channels.file(&self.table)
    }
}
