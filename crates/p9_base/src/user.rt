//! Names of users and groups, as intro(5).

ghost use Rattle.std.specs.Prelude.{◌≡◌, IsTrue, IsNone, IfSome, ◌↔◌};
ghost use Rattle.p9_base.specs.User.{is_user};

use crate::text::{Text, is_text};
use std::fmt;
use std::marker::Model;

// The most bytes of such a name.
const USER_MAX: usize = 63;

/// The name of a user or a group: 1 to 63 bytes of UTF-8 without NUL. A `/` is allowed.
///
/// Equality, order and hash are those of the bytes.
#[derive(Clone, Copy, PartialEq, Eq, PartialOrd, Ord, Hash)]
pub struct User {
    text: Text<USER_MAX>,
}

impl Model for User {
    ghost use Rattle.std.specs.Prelude.{ℕ, List, IsTrue};
    ghost use Rattle.p9_base.specs.User.{is_user};

    ghost Value = { List ℕ };

    ghost view = { λ u. u.text };

    ghost invariant = { λ u. IsTrue (is_user u.text) };

    ghost inverse = { λ xs. record { text = xs } };
}

impl User {
    /// The user of this name, or `None` exactly where the text has no byte, more than 63 bytes or
    /// a NUL.
    pub fn new(text: &str) -> Option<User>
        ensures some { IfSome result (λ user. (user ≡ text.now) × IsTrue (is_user text.now)) }
        ensures none { IsNone result ↔ ¬ IsTrue (is_user text.now) }
    {
        if !valid_user(text) {
            return None;
        }
        Some(User {
            text: Text::new(text),
        })
    }

    /// Its text.
    pub fn as_str(&self) -> &str
        ensures text { result.now ≡ self.now }
        ensures valid { IsTrue (is_user self.now) }
    {
        self.text.as_str()
    }
}

impl fmt::Display for User {
    ghost use Rattle.std.specs.Prelude.{Some};

    ghost output = { λ u. Some u };

    fn fmt<W: fmt::Write>(&self, f: &mut fmt::Formatter<W>) -> fmt::Result {
        f.pad(self.as_str())
    }
}

impl fmt::Debug for User {
    fn fmt<W: fmt::Write>(&self, f: &mut fmt::Formatter<W>) -> fmt::Result {
        fmt::Debug::fmt(&self.as_str(), f)
    }
}

// Whether the text may name a user or a group: 1 to 63 bytes, no NUL.
fn valid_user(text: &str) -> bool
    ensures { result ≡ is_user text.now }
{
    1 <= text.len() && text.len() <= USER_MAX && is_text(text)
}
