//! Ways into hidden directories.

ghost use Rattle.std.specs.Prelude.{◌≡◌};
ghost use Rattle.p9_judge.specs.Text.{kind_text};

use p9_base::{Name, NodeRef, User};
use std::alloc::Allocator;
use std::fmt;

/// What is wrong with the member that a breach ends at. Where several apply, it is the one that
/// is first here.
#[derive(Clone, Copy, Debug, PartialEq, Eq)]
pub enum BreachKind {
    /// It is inside a hidden directory.
    Inside,
    /// It is hidden, and some listed user may read, write or search it.
    Open,
    /// It is hidden, and some listed user rules it, and so may change its mode.
    Owned,
    /// It is hidden and no root, and some listed user may write the directory that it is in, or
    /// rules that.
    Removable,
}

impl BreachKind {
    /// The word that a breach's line has for it.
    pub fn text(self) -> &'static str
        ensures { result.now ≡ kind_text self }
    {
        match self {
            BreachKind::Inside => "inside",
            BreachKind::Open => "open",
            BreachKind::Owned => "owned",
            BreachKind::Removable => "removable",
        }
    }
}

/// One step of a way: through a member of a place to the member's child of a name. It is shown as
/// the line `step S N USER NAME`, with the member by its server and its number.
#[derive(Clone, Copy, Debug, PartialEq, Eq)]
pub struct Step {
    /// The child's name.
    pub name: Name,
    /// The member of the place that is passed.
    pub member: NodeRef,
    /// The first listed user who may search the member or rules it.
    pub user: User,
}

impl fmt::Display for Step {
    ghost use Rattle.std.specs.Prelude.{Some};
    ghost use Rattle.p9_judge.specs.Text.{step_text};

    ghost output = { λ step. Some (step_text step) };

    fn fmt<W: fmt::Write>(&self, f: &mut fmt::Formatter<W>) -> fmt::Result {
        write!(
            f,
            "step {} {} {} {}",
            self.member.server, self.member.number, self.user, self.name
        )
    }
}

/// A way from the root place to a member that no certificate may have within reach. It is shown as
/// a line for each step and the line `breach KIND S N`, with the member by its server and its
/// number.
#[derive(Debug, Drop)]
pub struct Breach<A: Allocator> {
    /// The steps, from the root place on. There are none where the root place itself has the
    /// member.
    pub steps: Vec<Step, A>,
    /// The member of the last place with which something is wrong.
    pub member: NodeRef,
    /// What is wrong with it.
    pub kind: BreachKind,
}

impl<A: Allocator> fmt::Display for Breach<A> {
    ghost use Rattle.std.specs.Prelude.{Some};
    ghost use Rattle.p9_judge.specs.Text.{breach_text};

    ghost output = { λ breach. Some (breach_text breach.steps.items breach.member breach.kind) };

    fn fmt<W: fmt::Write>(&self, f: &mut fmt::Formatter<W>) -> fmt::Result {
        for step in self.steps.as_slice() {
            writeln!(f, "{step}")?;
        }
        write!(
            f,
            "breach {} {} {}",
            self.kind.text(),
            self.member.server,
            self.member.number
        )
    }
}
