//! What is wrong with a directory that a walk leads to: by which user, and by which right.

ghost use Rattle.std.specs.Prelude.{◌≡◌};
ghost use Rattle.p9_explain.specs.Told.{fault_words};

use crate::right::{NO_RIGHTS, TO_USE, push_right};
use crate::teller::{Teller, push};
use p9_base::{NoMemory, NodeRef, Rights, User};
use p9_cert::{MemberFault, is_hidden};
use p9_space::{TO_EXECUTE, TO_WRITE};
use p9_tree::Tree;
use p9_world::World;

/// A directory that a walk leads to: which one it is, at which place it is bound, if that is known,
/// what is wrong with it, and who walks there, if that is one user.
#[derive(Clone, Copy)]
pub(crate) struct Found {
    pub member: NodeRef,
    pub place: Option<NodeRef>,
    pub fault: MemberFault,
    pub walker: Option<User>,
}

/// Adds to a text what follows the path of a directory that a walk leads to: the line that made it,
/// what is wrong with it, and where it is bound, if that isn't its own place.
pub(crate) fn push_found<T: Tree>(
    text: &mut String<T::Alloc>,
    teller: &Teller<'_, '_, T>,
    found: &Found,
) -> Result<(), NoMemory> {
    push(text, "(")?;
    teller.made(text, found.member)?;
    push(text, ") ")?;
    push(text, fault_words(found.fault))?;
    push_why(text, teller, found)
}

/// What is wrong with a directory, in words: what follows them says by which right, or of what.
pub(crate) fn fault_words(fault: MemberFault) -> &'static str
    ensures { result.now ≡ fault_words fault }
{
    match fault {
        MemberFault::Inside => "is inside ",
        MemberFault::Removable => "is removable from ",
        MemberFault::Open => "is open: ",
        MemberFault::Owned => "is owned: ",
        MemberFault::Missing => "is no row: ",
    }
}

/// Adds what follows the words of a fault: by which right or of what, and where the directory is bound.
pub(crate) fn push_why<T: Tree>(
    text: &mut String<T::Alloc>,
    teller: &Teller<'_, '_, T>,
    found: &Found,
) -> Result<(), NoMemory> {
    match found.fault {
        MemberFault::Inside => teller.inside(text, found.member)?,
        MemberFault::Removable => push_removal(text, teller, found)?,
        MemberFault::Open => push_use(text, teller, found, TO_USE)?,
        MemberFault::Owned => push_use(text, teller, found, NO_RIGHTS)?,
        MemberFault::Missing => push_use(text, teller, found, TO_EXECUTE)?,
    }
    teller.end_line(text, found.place, found.member)
}

// Adds who has one of these rights of a directory.
fn push_use<T: Tree>(
    text: &mut String<T::Alloc>,
    teller: &Teller<'_, '_, T>,
    found: &Found,
    wanted: Rights,
) -> Result<(), NoMemory> {
    push_right(text, teller, found.member, wanted, found.walker)
}

// Who may remove or rename a node, by the directory that it is in.
fn push_removal<T: Tree>(
    text: &mut String<T::Alloc>,
    teller: &Teller<'_, '_, T>,
    found: &Found,
) -> Result<(), NoMemory> {
    let dir = dir_of(teller.world, found.member).unwrap_or(found.member);
    teller.path(text, dir)?;
    push(text, " (")?;
    teller.made(text, dir)?;
    push(text, "): ")?;
    push_right(text, teller, dir, TO_WRITE, found.walker)
}

/// The hidden directory that the node is, or is inside of.
pub(crate) fn hidden_dir<T: Tree>(world: &World<T>, at: NodeRef) -> NodeRef {
    let mut here = at;
    for _ in 0..at.number {
        if is_hidden(world.hidden.as_slice(), here) {
            return here;
        }
        let Some(dir) = dir_of(world, here) else {
            return here;
        };
        here = dir;
    }
    here
}

/// The directory that a node is in.
pub(crate) fn dir_of<T: Tree>(world: &World<T>, at: NodeRef) -> Option<NodeRef> {
    let parent = world.forest.node(at)?.parent()?;
    Some(at.beside(parent))
}
