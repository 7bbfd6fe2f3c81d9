//! Rows of certificates.

ghost use Rattle.std.specs.Prelude.{◌≡◌, AllPairs, IsTrue};
ghost use Rattle.p9_policy.specs.Rows.{is_below, is_row, may_follow};

use p9_base::NodeRef;

/// Whether the node comes before the other: by server, then by number.
pub(crate) fn is_below(a: NodeRef, b: NodeRef) -> bool
    ensures { result ≡ is_below a b }
{
    a < b
}

/// Whether the node is greater than the last row, if there is one.
pub(crate) fn may_follow(rows: &[NodeRef], row: NodeRef) -> bool
    ensures { result ≡ may_follow rows.now row }
{
    rows.last().is_none_or(|last| is_below(*last, row))
}

/// Whether the node is one of the rows. It is looked for by binary search.
pub fn is_row(rows: &[NodeRef], at: NodeRef) -> bool
    requires { AllPairs (λ a b. IsTrue (is_below a b)) rows.now }
    ensures { result ≡ is_row rows.now at }
{
    let place = rows.partition_point(|row| is_below(*row, at));
    match rows.get(place) {
        Some(row) => *row == at,
        None => false,
    }
}
