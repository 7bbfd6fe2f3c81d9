//! The names of a walk, kept in place.

ghost use Rattle.std.specs.Prelude.{◌≡◌, ◌==◌, ◌<◌, ◌≤◌, ◌++◌, ◌∷◌, [], ℕ, List, Some, map};
ghost use Rattle.std.specs.Prelude.{length, slice_get};
ghost use Rattle.p9_fields.specs.Fields.{elements_max};

use arrayvec::ArrayVec;
use std::marker::Model;

/// The greatest number of names in a Twalk, and of qids in an Rwalk. Its name is from the header
/// file of fcall(2).
pub const MAXWELEM: usize = 16;

/// Up to sixteen names, as one message of walk(5) holds. A contract sees them as the list of their
/// bytes.
#[derive(Debug, Drop)]
pub struct Names<'a> {
    names: ArrayVec<&'a str, MAXWELEM>,
}

impl<'a> Model for Names<'a> {
    ghost Value = { List (List ℕ) };

    ghost view = { λ n. map (λ s. s.now) n.names.items };
}

impl<'a> Names<'a> {
    /// No names.
    pub fn new() -> Names<'a>
        ensures { result ≡ [] }
    {
        Names {
            names: ArrayVec::new(),
        }
    }

    /// How many names there are, at most `MAXWELEM`.
    pub fn len(&self) -> usize
        ensures len { result ≡ length self.now }
        ensures few { result ≤ elements_max }
    {
        self.names.len()
    }

    /// Whether there are none.
    pub fn is_empty(&self) -> bool
        ensures { result ≡ (length self.now == 0) }
    {
        self.names.is_empty()
    }

    /// The name of index `i`, from 0 on.
    pub fn get(&self, i: usize) -> &'a str
        requires { i < length self.now }
        ensures { slice_get self.now i ≡ Some result.now }
    {
        self.names.as_slice()[i]
    }

    /// The names in order.
    pub fn as_slice(&self) -> &[&'a str]
        ensures names { map (λ s. s.now) result.now ≡ self.now }
        ensures few { length result.now ≤ elements_max }
    {
        self.names.as_slice()
    }

    /// Adds a name after the others.
    pub fn push(&mut self, name: &'a str)
        requires { length self.old < elements_max }
        ensures { self.new ≡ self.old ++ name.now ∷ [] }
    {
        self.names.push(name);
    }
}

impl Default for Names<'_> {
    ghost use Rattle.std.specs.Prelude.{◌≡◌, []};

    ghost is_default = { λ names. names ≡ [] };

    fn default() -> Self {
        Names::new()
    }
}
