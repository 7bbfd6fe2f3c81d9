//! Who takes the walk of a breach.

ghost use Rattle.std.specs.Prelude.{◌≡◌, IfOk, IfSome, Some, map};
ghost use Rattle.std.specs.List.{list_all};
ghost use Rattle.p9_explain.specs.Walker.{TakesAll, is_passed_by, steps_by, takes_all};

use crate::member::dir_of;
use crate::right::{NO_RIGHTS, TO_USE, holds};
use p9_base::{NodeRef, User};
use p9_cert::may_pass;
use p9_judge::{Breach, BreachKind, Step};
use p9_space::{TO_WRITE, Who};
use p9_tree::Tree;
use p9_world::World;
use std::alloc::{AllocError, Allocator};

/// The first listed user who may take all steps of a breach, and has the right to what they lead to.
pub(crate) fn walker_of<T: Tree>(world: &World<T>, breach: &Breach<T::Alloc>) -> Option<User>
    ensures { IfSome result (λ user. TakesAll world.now user breach.now.steps.items) }
{
    let steps = breach.steps.as_slice();
    for user in world.users.as_slice() {
        if takes_all(world, user, steps) && has_right(world, user, breach) {
            return Some(*user);
        }
    }
    None
}

// Whether the user may take all steps.
fn takes_all<T: Tree>(world: &World<T>, user: &User, steps: &[Step]) -> bool
    ensures { result ≡ takes_all world.now user.now steps.now }
{
    steps
        .iter()
        .all(|step| is_passed_by(world, user, step.member))
}

// Whether the node is a directory that exists and that the user may pass.
fn is_passed_by<T: Tree>(world: &World<T>, user: &User, at: NodeRef) -> bool
    ensures { result ≡ is_passed_by world.now user.now at }
{
    let groups = &world.groups;
    match world.forest.node(at) {
        Some(node) => node.is_dir() && may_pass(Who { user, groups }, node),
        None => false,
    }
}

// Whether the user has the right by which the member of a breach is within reach.
fn has_right<T: Tree>(world: &World<T>, user: &User, breach: &Breach<T::Alloc>) -> bool {
    let at = breach.member;
    match breach.kind {
        BreachKind::Inside => true,
        BreachKind::Open => holds(world, user, at, TO_USE),
        BreachKind::Owned => holds(world, user, at, NO_RIGHTS),
        BreachKind::Removable => match dir_of(world, at) {
            Some(dir) => holds(world, user, dir, TO_WRITE),
            None => false,
        },
    }
}

/// The steps as this user takes them; without one as they are.
pub(crate) fn steps_by<A: Allocator + Copy>(
    alloc: A,
    walker: Option<User>,
    steps: &[Step],
) -> Result<Vec<Step, A>, AllocError>
    ensures { IfOk result (λ told. told.items ≡ steps_by walker steps.now) }
{
    match walker {
        Some(user) => taken_by(alloc, user, steps),
        None => steps.to_vec(alloc),
    }
}

// The steps as this user takes them.
fn taken_by<A: Allocator + Copy>(
    alloc: A,
    user: User,
    steps: &[Step],
) -> Result<Vec<Step, A>, AllocError>
    ensures { IfOk result (λ told. told.items ≡ steps_by (Some user) steps.now) }
{
    let mut taken = Vec::new(alloc);
    for step in steps {
        taken.push(Step {
            name: step.name,
            member: step.member,
            user,
        })?;
    }
    Ok(taken)
}
