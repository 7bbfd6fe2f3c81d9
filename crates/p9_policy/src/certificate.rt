//! The certificate.

ghost use Rattle.std.specs.Prelude.{◌≡◌, ◌++◌, ◌∷◌, ◌<◌, [], IsTrue, OnErr, OnOk};
ghost use Rattle.p9_tree.specs.Server.{next_max};
ghost use Rattle.p9_policy.specs.Rows.{IsCertificate, is_row, may_follow};

use crate::rows::is_row;
use p9_base::{NoMemory, NodeRef};
use std::alloc::Allocator;
use std::marker::Model;

/// A certificate: directories by strictly rising server and number. It says of itself only that;
/// `verify` of the crate p9_cert says whether it is closed.
///
/// It is seen as the list of its rows.
#[derive(Debug, Drop)]
pub struct Certificate<A: Allocator> {
    rows: Vec<NodeRef, A>,
}

impl<A: Allocator> Model for Certificate<A> {
    ghost use Rattle.std.specs.Prelude.{List};
    ghost use Rattle.p9_base.specs.declared.node_ref.NodeRef.{NodeRef};
    ghost use Rattle.p9_policy.specs.Rows.{IsCertificate};

    ghost Value = { List NodeRef };

    ghost view = { λ c. c.rows.items };

    ghost invariant = { λ c. IsCertificate c.rows.items };
}

impl<A: Allocator> Certificate<A> {
    /// A certificate without rows. This takes no memory.
    pub fn new(alloc: A) -> Certificate<A>
        ensures { result ≡ [] }
    {
        Certificate {
            rows: Vec::new(alloc),
        }
    }

    /// Adds a row after the others: a node that is greater than the last row, and whose number is
    /// one that a server may give. The only error is that an allocation fails; the certificate is
    /// then unchanged.
    pub fn push(&mut self, row: NodeRef) -> Result<(), NoMemory>
        requires greater { IsTrue (may_follow self.old row) }
        requires number { row.number < next_max }
        ensures ok { OnOk result (self.new ≡ self.old ++ row ∷ []) }
        ensures err { OnErr result (self.new ≡ self.old) }
    {
        self.rows.push(row)?;
        Ok(())
    }

    /// The rows, by rising server and number.
    pub fn rows(&self) -> &[NodeRef]
        ensures rows { result.now ≡ self.now }
        ensures sound { IsCertificate self.now }
    {
        self.rows.as_slice()
    }

    /// Whether the node is a row. It is looked for by binary search.
    pub fn contains(&self, at: NodeRef) -> bool
        ensures { result ≡ is_row self.now at }
    {
        is_row(self.rows.as_slice(), at)
    }

    /// The rows rise strictly, each of a number below 2^48. This does nothing when it runs; it is
    /// for a caller that has to know so.
    pub fn well_formed(&self)
        ensures { IsCertificate self.now }
    {
        let _rows = &self.rows;
    }
}
