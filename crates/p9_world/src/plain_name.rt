//! Names of files.

ghost use Rattle.std.specs.Prelude.{◌≡◌, IsTrue, MatchResult, None, Some};
ghost use Rattle.p9_world.specs.Unfit.{unfit_name};
ghost use Rattle.p9_world.specs.Word.{is_plain_name};

use crate::unfit::Unfit;
use crate::word::is_plain;
use p9_base::Name;
use std::marker::Model;

/// The name of a file or directory that is one word in a line: a [`Name`] without blanks, tabs and
/// newlines.
#[derive(Clone, Copy, PartialEq, Eq)]
pub struct PlainName {
    name: Name,
}

impl Model for PlainName {
    ghost use Rattle.std.specs.Prelude.{ℕ, List, IsTrue};
    ghost use Rattle.p9_world.specs.Word.{is_plain_name};

    ghost Value = { List ℕ };

    ghost view = { λ n. n.name };

    ghost invariant = { λ n. IsTrue (is_plain_name n.name) };

    ghost inverse = { λ xs. record { name = xs } };
}

impl PlainName {
    /// The name of this text.
    ///
    /// # Errors
    ///
    /// [`Unfit::NotName`] where the text is no [`Name`], and else [`Unfit::BlankInName`] where it
    /// has a blank, a tab or a newline.
    pub fn new(text: &str) -> Result<PlainName, Unfit>
        ensures { MatchResult result
            (λ name. (name ≡ text.now) × (unfit_name text.now ≡ None))
            (λ unfit. unfit_name text.now ≡ Some unfit) }
    {
        let name = Name::new(text).ok_or(Unfit::NotName)?;
        if !is_plain(text) {
            return Err(Unfit::BlankInName);
        }
        Ok(PlainName { name })
    }

    /// Its text.
    pub fn as_str(&self) -> &str
        ensures text { result.now ≡ self.now }
        ensures valid { IsTrue (is_plain_name self.now) }
    {
        self.name.as_str()
    }
}
