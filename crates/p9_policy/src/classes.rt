//! Classes of a node's users, and which of them may do what.

ghost use Rattle.std.specs.Prelude.{◌≡◌, ◌||◌};
ghost use Rattle.p9_base.specs.declared.mode.Rights.{Rights};
ghost use Rattle.p9_tree.specs.Node.{Node as NodeIs};
ghost use Rattle.p9_table.specs.Rights.{Who, rules};
ghost use Rattle.p9_policy.specs.Classes.{gives_some, is_of};
ghost use Rattle.p9_policy.specs.Listed.{may_alter, may_pass, may_use};

use p9_base::Rights;
use p9_tree::Node;
use std::alloc::Allocator;

/// Classes of a node's users. A user may be of several: the owner is one of the others, too.
#[derive(Clone, Copy, Debug, PartialEq, Eq)]
pub struct Classes {
    /// Everybody.
    pub others: bool,
    /// The owner.
    pub owner: bool,
    /// The members of the group.
    pub members: bool,
    /// The leader of the group.
    pub leader: bool,
}

impl Classes {
    /// Those who may search the directory, or rule it and so may come to search it.
    pub fn to_pass<A: Allocator>(dir: &Node<A>) -> Classes
        ensures who { (who : Who) → is_of result dir.now who ≡ may_pass dir.now who }
        ensures others { result.others ≡ dir.now.mode.permissions.others.execute }
    {
        let permissions = dir.mode().permissions;
        Classes {
            others: permissions.others.execute,
            owner: true,
            members: permissions.group.execute,
            leader: true,
        }
    }

    /// Those who may read, write or search the node.
    pub fn to_use<A: Allocator>(node: &Node<A>) -> Classes
        ensures { (who : Who) → is_of result node.now who ≡ may_use node.now who }
    {
        let permissions = node.mode().permissions;
        Classes {
            others: gives_some(permissions.others),
            owner: gives_some(permissions.owner),
            members: gives_some(permissions.group),
            leader: false,
        }
    }

    /// Those who rule a node.
    pub fn to_rule() -> Classes
        ensures { (n : NodeIs) (who : Who) → is_of result n who ≡ rules who n }
    {
        Classes {
            others: false,
            owner: true,
            members: false,
            leader: true,
        }
    }

    /// Those who may read, write or search the node, or rule it.
    pub fn to_use_or_rule<A: Allocator>(node: &Node<A>) -> Classes
        ensures { (who : Who) → is_of result node.now who
            ≡ (may_use node.now who || rules who node.now) }
    {
        let permissions = node.mode().permissions;
        Classes {
            others: gives_some(permissions.others),
            owner: true,
            members: gives_some(permissions.group),
            leader: true,
        }
    }

    /// Those who may write the directory, or rule it and so may come to write it.
    pub fn to_alter<A: Allocator>(dir: &Node<A>) -> Classes
        ensures { (who : Who) → is_of result dir.now who ≡ may_alter dir.now who }
    {
        let permissions = dir.mode().permissions;
        Classes {
            others: permissions.others.write,
            owner: true,
            members: permissions.group.write,
            leader: true,
        }
    }
}

// Whether the rights have one.
fn gives_some(rights: Rights) -> bool
    ensures { result ≡ gives_some rights }
{
    rights.read || rights.write || rights.execute
}
