//! A breach in words: the walk to it, and how to mend it.

ghost use Rattle.std.specs.Prelude.{◌≡◌, ◌++◌, ℕ, IfOk, List, OnOk, codes};
ghost use Rattle.std.specs.String.{string_bytes};
ghost use Rattle.p9_explain.specs.Free.{AreFree, first_line};
ghost use Rattle.p9_explain.specs.Told.{IsBreachTold, IsEndTold, IsHeadTold, IsStepTold, IsWalkTold};
ghost use Rattle.p9_explain.specs.Told.{IsWayTold, fault_of, path_text, start_text};
ghost use Rattle.p9_shown.specs.Text.{shown_text};

use crate::column::{column_of, width};
use crate::free::{into_first_line, push_free};
use crate::member::{Found, fault_words, hidden_dir, push_why};
use crate::passing::passing_words;
use crate::source::Source;
use crate::teller::{Teller, add, push, push_blanks, shown_path};
use crate::walker::{steps_by, walker_of};
use p9_base::{NoMemory, NodeRef, User};
use p9_cert::{Classes, MemberFault};
use p9_judge::{Breach, BreachKind, Step};
use p9_shown::shown;
use p9_space::ROOT_PLACE;
use p9_tree::Tree;
use p9_world::World;

/// A breach in words: what is within reach, the walk to it line by line, and how to mend it. The walk
/// is told of one listed user, where one may take all of it; else each step is told of the first
/// listed user who may take it.
pub(crate) fn breach_words<'a, T: Tree>(
    alloc: T::Alloc,
    source: &'a Source<'_, T::Alloc>,
    world: &'a World<T>,
    breach: &Breach<T::Alloc>,
) -> Result<String<T::Alloc>, NoMemory>
    ensures { IfOk result (λ text. IsBreachTold world.now breach.now.steps.items
        breach.now.member breach.now.kind (string_bytes text)) }
{
    let walker = walker_of(world, breach);
    let steps = steps_by(alloc, walker, breach.steps.as_slice())?;
    let mut text = String::new(alloc);
    let teller = Teller { source, world };
    push_way(&mut text, &teller, breach, &walker, steps.as_slice())?;
    Ok(text)
}

// Adds what is within reach, who attaches, the steps, the member that they lead to, and how it is
// mended.
fn push_way<T: Tree>(
    text: &mut String<T::Alloc>,
    teller: &Teller<'_, '_, T>,
    breach: &Breach<T::Alloc>,
    walker: &Option<User>,
    steps: &[Step],
) -> Result<(), NoMemory>
    ensures { OnOk result ((way : List ℕ) × IsWayTold teller.now.world.now steps.now breach.now.member
        breach.now.kind way × (string_bytes text.new ≡ string_bytes text.old ++ way)) }
{
    let alloc = *text.allocator();
    let world = teller.world;
    let column = column_of(alloc, world, steps, breach.member)?;
    let head = head_words(alloc, world, breach.member)?;
    add(text, head)?;
    let start = start_words(alloc, world, steps)?;
    add(text, start)?;
    let walk = walk_words(teller, alloc, steps, column)?;
    add(text, walk)?;
    let end = end_words(teller, alloc, breach, walker, column)?;
    add(text, end)?;
    let mend = mend_words(alloc, world, breach, walker)?;
    add(text, mend)?;
    Ok(())
}

// What is within reach: the inside of the hidden directory that a member is, or is inside of.
fn head_words<T: Tree>(
    alloc: T::Alloc,
    world: &World<T>,
    member: NodeRef,
) -> Result<String<T::Alloc>, NoMemory>
    ensures { IfOk result (λ text. IsHeadTold world.now (string_bytes text)) }
{
    let path = shown_path(alloc, world, hidden_dir(world, member))?;
    Ok(format!(in alloc; "the inside of {path} is within reach\n")?)
}

// Who attaches: the user of the first step.
fn start_words<T: Tree>(
    alloc: T::Alloc,
    world: &World<T>,
    steps: &[Step],
) -> Result<String<T::Alloc>, NoMemory>
    ensures { IfOk result (λ text. string_bytes text ≡ start_text world.now steps.now) }
{
    match steps {
        [step, ..] => {
            let first = shown(alloc, step.user.as_str())?;
            let root = shown_path(alloc, world, ROOT_PLACE)?;
            Ok(format!(in alloc; "  {first} attaches at {root}\n")?)
        }
        [] => Ok(String::new(alloc)),
    }
}

// The member that the walk leads to, and what is wrong with it, in a line.
fn end_words<T: Tree>(
    teller: &Teller<'_, '_, T>,
    alloc: T::Alloc,
    breach: &Breach<T::Alloc>,
    walker: &Option<User>,
    column: usize,
) -> Result<String<T::Alloc>, NoMemory>
    ensures { IfOk result (λ text. IsEndTold teller.now.world.now breach.now.member
        breach.now.kind (string_bytes text)) }
{
    let mut text = member_words(alloc, teller.world, breach.member)?;
    let before = width(text.as_str());
    let made = made_words(teller, alloc, breach.member, before, column)?;
    add(&mut text, made)?;
    push(&mut text, ") ")?;
    push(&mut text, fault_words(fault_of(breach.kind)))?;
    let why = why_words(teller, alloc, &found_of(teller.world, breach, walker))?;
    add(&mut text, why)?;
    push(&mut text, "\n")?;
    Ok(text)
}

// The path of the member, after two blanks.
fn member_words<T: Tree>(
    alloc: T::Alloc,
    world: &World<T>,
    member: NodeRef,
) -> Result<String<T::Alloc>, NoMemory>
    ensures { IfOk result (λ text. string_bytes text ≡ codes "  " ++ path_text world.now member) }
{
    let path = shown_path(alloc, world, member)?;
    Ok(format!(in alloc; "  {path}")?)
}

// By which right a directory that is found is within reach, or what it is inside of, and where it is
// bound: one line.
fn why_words<T: Tree>(
    teller: &Teller<'_, '_, T>,
    alloc: T::Alloc,
    found: &Found,
) -> Result<String<T::Alloc>, NoMemory>
    ensures { IfOk result (λ text. (said : List ℕ) × (string_bytes text ≡ first_line said)) }
{
    let mut text = String::new(alloc);
    push_why(&mut text, teller, found)?;
    into_first_line(text)
}

// Blanks up to the column after so many characters, and the line that made a node, after a
// parenthesis: one line.
fn made_words<T: Tree>(
    teller: &Teller<'_, '_, T>,
    alloc: T::Alloc,
    at: NodeRef,
    before: usize,
    column: usize,
) -> Result<String<T::Alloc>, NoMemory>
    ensures { IfOk result (λ text. (said : List ℕ) × (string_bytes text ≡ first_line said)) }
{
    let mut text = String::new(alloc);
    push_blanks(&mut text, column.saturating_sub(before))?;
    push(&mut text, "(")?;
    teller.made(&mut text, at)?;
    into_first_line(text)
}

// That users take the way together, where none may take it alone, and how a breach is mended.
fn mend_words<T: Tree>(
    alloc: T::Alloc,
    world: &World<T>,
    breach: &Breach<T::Alloc>,
    walker: &Option<User>,
) -> Result<String<T::Alloc>, NoMemory>
    ensures { IfOk result (λ text. AreFree (string_bytes text)) }
{
    let together = if walker.is_none() { TOGETHER } else { "" };
    let said = format!(in alloc; "{together}mend: {}\n", mend(world, breach))?;
    let mut text = String::new(alloc);
    push_free(said.as_str(), &mut text)?;
    Ok(text)
}

// What is said where no listed user may take a walk alone.
const TOGETHER: &str = "  no listed user may take this way alone; together they may\n";

// The member that the walk leads to, at the place after the last step.
fn found_of<T: Tree>(world: &World<T>, breach: &Breach<T::Alloc>, walker: &Option<User>) -> Found {
    let place = match breach.steps.last() {
        Some(step) => place_after(world, step),
        None => Some(ROOT_PLACE),
    };
    Found {
        member: breach.member,
        place,
        fault: fault_of(breach.kind),
        walker: *walker,
    }
}

// What is wrong with the member of a breach, as of a certificate's gap.
fn fault_of(kind: BreachKind) -> MemberFault
    ensures { result ≡ fault_of kind }
{
    match kind {
        BreachKind::Inside => MemberFault::Inside,
        BreachKind::Open => MemberFault::Open,
        BreachKind::Owned => MemberFault::Owned,
        BreachKind::Removable => MemberFault::Removable,
    }
}

/// How the directory is mended from which some listed user may remove something.
pub(crate) const MEND_DIRECTORY: &str = "give the directory that it is in to an owner and a group \
    leader who is not listed, and no write bit to others or to groups with listed members";

// How a breach is mended.
fn mend<T: Tree>(world: &World<T>, breach: &Breach<T::Alloc>) -> &'static str {
    match breach.kind {
        BreachKind::Inside => "bind nothing from inside a hidden directory",
        BreachKind::Open if is_open_to_others(world, breach.member) => {
            "give it to an owner and a group leader who is not listed, \
             and no bits to others or to groups with listed members"
        }
        BreachKind::Open => {
            "give it to an owner and a group leader who is not listed, \
             and no bits to groups with listed members"
        }
        BreachKind::Owned => "give it to an owner and a group leader who is not listed",
        BreachKind::Removable => MEND_DIRECTORY,
    }
}

// Whether a node has bits for others.
fn is_open_to_others<T: Tree>(world: &World<T>, at: NodeRef) -> bool {
    match world.forest.node(at) {
        Some(node) => Classes::to_use(node).others,
        None => false,
    }
}

// The walk, a line for each step.
fn walk_words<T: Tree>(
    teller: &Teller<'_, '_, T>,
    alloc: T::Alloc,
    steps: &[Step],
    column: usize,
) -> Result<String<T::Alloc>, NoMemory>
    ensures { IfOk result (λ text.
        IsWalkTold teller.now.world.now steps.now (string_bytes text)) }
{
    let mut text = String::new(alloc);
    let mut place = Some(ROOT_PLACE);
    for step in steps {
        push_step(&mut text, teller, step, place, column)?;
        place = place_after(teller.world, step);
    }
    Ok(text)
}

// The place that a step leads to.
fn place_after<T: Tree>(world: &World<T>, step: &Step) -> Option<NodeRef> {
    let child = world.forest.child(step.member, &step.name)?;
    Some(step.member.beside(child.number()))
}

// Adds the line of a step: who passes which directory, the line that made it, by which right it is
// passed, and where it is bound.
fn push_step<T: Tree>(
    text: &mut String<T::Alloc>,
    teller: &Teller<'_, '_, T>,
    step: &Step,
    place: Option<NodeRef>,
    column: usize,
) -> Result<(), NoMemory>
    ensures { OnOk result ((line : List ℕ) × IsStepTold teller.now.world.now step.now line
        × (string_bytes text.new ≡ string_bytes text.old ++ line)) }
{
    let alloc = *text.allocator();
    let passage = passage_words(alloc, teller.world, step)?;
    let before = width(passage.as_str());
    add(text, passage)?;
    let made = made_words(teller, alloc, step.member, before, column)?;
    add(text, made)?;
    let right = passing_words(alloc, teller.world, &step.user, step.member)?;
    add(text, right)?;
    push(text, ")")?;
    let bound = bound_words(teller, alloc, place, step.member)?;
    add(text, bound)?;
    push(text, "\n")?;
    Ok(())
}

// Who passes which directory in a step.
fn passage_words<T: Tree>(
    alloc: T::Alloc,
    world: &World<T>,
    step: &Step,
) -> Result<String<T::Alloc>, NoMemory>
    ensures { IfOk result (λ text. string_bytes text ≡ codes "  " ++ shown_text step.now.user
        ++ codes " passes " ++ path_text world.now step.now.member) }
{
    let user = shown(alloc, step.user.as_str())?;
    let path = shown_path(alloc, world, step.member)?;
    Ok(format!(in alloc; "  {user} passes {path}")?)
}

// Where a node is bound, if that isn't its own place: one line.
fn bound_words<T: Tree>(
    teller: &Teller<'_, '_, T>,
    alloc: T::Alloc,
    place: Option<NodeRef>,
    at: NodeRef,
) -> Result<String<T::Alloc>, NoMemory>
    ensures { IfOk result (λ text. (said : List ℕ) × (string_bytes text ≡ first_line said)) }
{
    let mut text = String::new(alloc);
    teller.end_line(&mut text, place, at)?;
    into_first_line(text)
}
