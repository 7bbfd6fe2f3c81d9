//! Names of servers.

ghost use Rattle.std.specs.Prelude.{◌≡◌, IsTrue, MatchResult, None, Some};
ghost use Rattle.p9_world.specs.Unfit.{unfit_server};
ghost use Rattle.p9_world.specs.Word.{is_plain_server};

use crate::server::has_reserved;
use crate::unfit::Unfit;
use crate::word::is_plain;
use p9_base::User;
use std::marker::Model;

/// The name of a server that is one word in a line: 1 to 63 bytes of UTF-8 without `/`, `#`, `$`,
/// NUL, blanks, tabs and newlines.
#[derive(Clone, Copy, PartialEq, Eq)]
pub struct ServerName {
    // A user's name has the same length, and no NUL.
    text: User,
}

impl Model for ServerName {
    ghost use Rattle.std.specs.Prelude.{ℕ, List, IsTrue};
    ghost use Rattle.p9_world.specs.Word.{is_plain_server};

    ghost Value = { List ℕ };

    ghost view = { λ s. s.text };

    ghost invariant = { λ s. IsTrue (is_plain_server s.text) };

    ghost inverse = { λ xs. record { text = xs } };
}

impl ServerName {
    /// The name of this text.
    ///
    /// # Errors
    ///
    /// [`Unfit::NotServer`] where the text has no byte, more than 63 bytes, or one of `/`, `#`, `$`
    /// and NUL, and else [`Unfit::BlankInServer`] where it has a blank, a tab or a newline.
    pub fn new(text: &str) -> Result<ServerName, Unfit>
        ensures { MatchResult result
            (λ name. (name ≡ text.now) × (unfit_server text.now ≡ None))
            (λ unfit. unfit_server text.now ≡ Some unfit) }
    {
        let user = User::new(text).ok_or(Unfit::NotServer)?;
        if has_reserved(text) {
            return Err(Unfit::NotServer);
        }
        if !is_plain(text) {
            return Err(Unfit::BlankInServer);
        }
        Ok(ServerName { text: user })
    }

    /// Its text.
    pub fn as_str(&self) -> &str
        ensures text { result.now ≡ self.now }
        ensures valid { IsTrue (is_plain_server self.now) }
    {
        self.text.as_str()
    }
}
