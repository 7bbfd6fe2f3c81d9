//! Names of users and groups.

ghost use Rattle.std.specs.Prelude.{◌≡◌, IsTrue, MatchResult, None, Some, codes};
ghost use Rattle.p9_world.specs.Unfit.{unfit_user};
ghost use Rattle.p9_world.specs.Word.{is_plain_user};

use crate::unfit::Unfit;
use crate::word::is_plain;
use p9_base::User;
use std::marker::Model;

/// The name of a user or a group that is one word in a line: a [`User`] without blanks, tabs and
/// newlines.
#[derive(Clone, Copy, PartialEq, Eq)]
pub struct PlainUser {
    user: User,
}

impl Model for PlainUser {
    ghost use Rattle.std.specs.Prelude.{ℕ, List, IsTrue};
    ghost use Rattle.p9_world.specs.Word.{is_plain_user};

    ghost Value = { List ℕ };

    ghost view = { λ u. u.user };

    ghost invariant = { λ u. IsTrue (is_plain_user u.user) };

    ghost inverse = { λ xs. record { user = xs } };
}

impl PlainUser {
    /// The name of this text.
    ///
    /// # Errors
    ///
    /// [`Unfit::NotUser`] where the text is no [`User`], and else [`Unfit::BlankInUser`] where it
    /// has a blank, a tab or a newline.
    pub fn new(text: &str) -> Result<PlainUser, Unfit>
        ensures { MatchResult result
            (λ user. (user ≡ text.now) × (unfit_user text.now ≡ None))
            (λ unfit. unfit_user text.now ≡ Some unfit) }
    {
        let user = User::new(text).ok_or(Unfit::NotUser)?;
        if !is_plain(text) {
            return Err(Unfit::BlankInUser);
        }
        Ok(PlainUser { user })
    }

    /// The user `sys`.
    pub fn sys() -> PlainUser
        ensures { result ≡ codes "sys" }
    {
        PlainUser::new("sys").unwrap()
    }

    /// Its text.
    pub fn as_str(&self) -> &str
        ensures text { result.now ≡ self.now }
        ensures valid { IsTrue (is_plain_user self.now) }
    {
        self.user.as_str()
    }
}
