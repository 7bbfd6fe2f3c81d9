//! By which right a user passes a directory or alters a node.

ghost use Rattle.std.specs.Prelude.{◌≡◌, ◌||◌, ◌++◌, OnOk, is_some};
ghost use Rattle.std.specs.String.{string_bytes};
ghost use Rattle.p9_cert.specs.Listed.{may_alter, may_pass};
ghost use Rattle.p9_space.specs.Rights.{rules, who_view};
ghost use Rattle.p9_right.specs.Class.{may_one};
ghost use Rattle.p9_right.specs.Right.{altering_right, deed_words, first_right, right_of, right_words};

use crate::class::{Class, class_of, ruling_class};
use p9_base::Rights;
use p9_space::{TO_EXECUTE, TO_WRITE, Who};
use p9_tree::Node;
use std::alloc::{AllocError, Allocator};

/// What a user may do with a node.
#[derive(Clone, Copy, PartialEq, Eq)]
pub enum Deed {
    /// He searches the directory.
    Search,
    /// He writes the node.
    Write,
    /// He changes the node's mode, and so may come to do the others.
    Rule,
}

impl Deed {
    /// What a class of users may do, as it is said behind the class: ` may search`, ` may write`,
    /// ` may change its mode`.
    pub fn words(self) -> &'static str
        ensures { result.now ≡ deed_words self }
    {
        match self {
            Deed::Search => " may search",
            Deed::Write => " may write",
            Deed::Rule => " may change its mode",
        }
    }
}

/// The right of a user to do something with a node.
#[derive(Clone, Copy, PartialEq, Eq)]
pub struct Right {
    /// As whom he may do it.
    pub class: Class,
    /// What he may do.
    pub deed: Deed,
}

impl Right {
    /// Adds the right to a text: as whom what may be done. The group is called so. Where an allocation
    /// fails, a part of it may be there.
    pub fn push<A: Allocator>(self, group: &str, text: &mut String<A>) -> Result<(), AllocError>
        ensures { OnOk result
            (string_bytes text.new ≡ string_bytes text.old ++ right_words self group.now) }
    {
        self.class.push(group, text)?;
        text.push_str(self.deed.words())
    }
}

/// The first right by which the user passes the directory: that to search it, or else that to change
/// its mode. There is none exactly where he may neither search it nor change its mode.
pub fn right_of<A: Allocator, B: Allocator + Copy>(who: Who<'_, B>, dir: &Node<A>) -> Option<Right>
    ensures right { result ≡ right_of (who_view who.entry) dir.now }
    ensures passed { is_some result ≡ may_pass dir.now (who_view who.entry) }
{
    first_right(who, dir, TO_EXECUTE, Deed::Search)
}

/// The first right by which the user alters the node: that to write it, or else that to change its
/// mode. There is none exactly where he may neither write it nor change its mode.
pub fn altering_right<A: Allocator, B: Allocator + Copy>(
    who: Who<'_, B>,
    node: &Node<A>,
) -> Option<Right>
    ensures right { result ≡ altering_right (who_view who.entry) node.now }
    ensures altered { is_some result ≡ may_alter node.now (who_view who.entry) }
{
    first_right(who, node, TO_WRITE, Deed::Write)
}

// The right to do this, as the first class that has one of the wanted rights; or else the right to change
// the node's mode.
fn first_right<A: Allocator, B: Allocator + Copy>(
    who: Who<'_, B>,
    node: &Node<A>,
    wanted: Rights,
    deed: Deed,
) -> Option<Right>
    ensures right { result ≡ first_right (who_view who.entry) node.now wanted deed }
    ensures held { is_some result ≡ (may_one (who_view who.entry) node.now wanted
        || rules (who_view who.entry) node.now) }
{
    if let Some(class) = class_of(who, node, wanted) {
        return Some(Right { class, deed });
    }
    let class = ruling_class(who, node)?;
    Some(Right {
        class,
        deed: Deed::Rule,
    })
}
