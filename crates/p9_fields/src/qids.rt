//! The qids of a walk, kept in place.

ghost use Rattle.std.specs.Prelude.{◌≡◌, ◌==◌, ◌<◌, ◌≤◌, ◌++◌, ◌∷◌, [], List, length};
ghost use Rattle.p9_base.specs.declared.qid.Qid.{Qid};
ghost use Rattle.p9_fields.specs.Fields.{elements_max};

use crate::names::MAXWELEM;
use arrayvec::ArrayVec;
use p9_base::Qid;
use std::marker::Model;

/// Up to sixteen qids, as one message of walk(5) holds. A contract sees them as a list.
#[derive(Debug, Drop)]
pub struct Qids {
    qids: ArrayVec<Qid, MAXWELEM>,
}

impl Model for Qids {
    ghost Value = { List Qid };

    ghost view = { λ q. q.qids.items };
}

impl Qids {
    /// No qids.
    pub fn new() -> Qids
        ensures { result ≡ [] }
    {
        Qids {
            qids: ArrayVec::new(),
        }
    }

    /// How many qids there are, at most `MAXWELEM`.
    pub fn len(&self) -> usize
        ensures len { result ≡ length self.now }
        ensures few { result ≤ elements_max }
    {
        self.qids.len()
    }

    /// Whether there are none.
    pub fn is_empty(&self) -> bool
        ensures { result ≡ (length self.now == 0) }
    {
        self.qids.is_empty()
    }

    /// The qids in order.
    pub fn as_slice(&self) -> &[Qid]
        ensures qids { result.now ≡ self.now }
        ensures few { length result.now ≤ elements_max }
    {
        self.qids.as_slice()
    }

    /// Adds a qid after the others.
    pub fn push(&mut self, qid: Qid)
        requires { length self.old < elements_max }
        ensures { self.new ≡ self.old ++ qid ∷ [] }
    {
        self.qids.push(qid);
    }
}

impl Default for Qids {
    ghost use Rattle.std.specs.Prelude.{◌≡◌, []};

    ghost is_default = { λ qids. qids ≡ [] };

    fn default() -> Self {
        Qids::new()
    }
}
