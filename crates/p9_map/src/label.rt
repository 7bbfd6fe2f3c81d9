//! What a box says.

ghost use Rattle.std.specs.Prelude.{◌≡◌, IfOk, encode_utf8_all, find, length, map, take};
ghost use Rattle.std.specs.Option.{option_copied};
ghost use Rattle.std.specs.Str.{chars};
ghost use Rattle.std.specs.String.{string_bytes};
ghost use Rattle.p9_base.specs.NodeRef.{same_node};
ghost use Rattle.p9_shown.specs.Text.{shown_text};
ghost use Rattle.p9_map.specs.Label.{AreLabels, IsLabel, cut_text, label_texts, left_out_text};
ghost use Rattle.p9_map.specs.Label.{name_max, name_text, note_text, right_note, step_right};
ghost use Rattle.p9_map.specs.Label.{walk_note};
ghost use Rattle.p9_map.specs.Walk.{walk_in, walk_of};

use crate::fault::fault_note;
use crate::order::Spot;
use crate::scene::Scene;
use p9_base::{NoMemory, NodeRef};
use p9_judge::{Breach, Step};
use p9_prepared::server_name;
use p9_right::{Right, right_of};
use p9_shown::shown;
use p9_space::Who;
use p9_tree::{Forest, Tree};
use p9_world::World;
use std::alloc::Allocator;

/// The most characters of a name, and of what is said beside it.
const NAME_MAX: usize = 40;

const NOTE_MAX: usize = 60;

/// How wide a character is.
pub(crate) const CHARACTER: u64 = 8;

/// What a box says: the name of its node, and what is said of it on the walk of a breach.
#[derive(Drop)]
pub(crate) struct Label<A: Allocator> {
    pub name: String<A>,
    pub note: String<A>,
}

impl<A: Allocator> Label<A> {
    /// How many characters the name has.
    pub fn name_len(&self) -> usize
        ensures { result ≡ length (chars (string_bytes self.now.name)) }
    {
        self.name.chars().count()
    }

    /// How wide the label is.
    pub fn width(&self) -> u64 {
        let characters = self.name_len().saturating_add(self.note.chars().count());
        CHARACTER.saturating_mul(characters.saturating_add(1) as u64)
    }
}

/// The labels of boxes.
pub(crate) fn labels<T: Tree>(
    alloc: T::Alloc,
    scene: &Scene<'_, T>,
    spots: &[Spot],
) -> Result<Vec<Label<T::Alloc>, T::Alloc>, NoMemory>
    ensures { IfOk result (λ labels. AreLabels scene.now.world.now
        (walk_in (option_copied scene.now.breach)) (map (λ s. s.node) spots.now)
        (map label_texts labels.items)) }
{
    let mut labels = Vec::new(alloc);
    for spot in spots {
        labels.push(label_of(alloc, scene, spots, spot.node)?)?;
    }
    Ok(labels)
}

// The label of a box.
fn label_of<T: Tree>(
    alloc: T::Alloc,
    scene: &Scene<'_, T>,
    spots: &[Spot],
    at: NodeRef,
) -> Result<Label<T::Alloc>, NoMemory>
    ensures { IfOk result (λ label. IsLabel scene.now.world.now
        (walk_in (option_copied scene.now.breach)) at (label_texts label)) }
{
    let mut name = name_of(alloc, scene.world, at)?;
    let world = scene.world;
    let left_out = LeftOut::of(&world.forest, spots, at).words(alloc)?;
    name.push_str(left_out.as_str())?;
    let note = note_of(alloc, scene.world, scene.breach, at)?;
    Ok(Label {
        name,
        note: cut(alloc, note.as_str(), NOTE_MAX)?,
    })
}

// The name of a node: `SERVER:/` for a root, and a slash after that of another directory.
fn name_of<T: Tree>(
    alloc: T::Alloc,
    world: &World<T>,
    at: NodeRef,
) -> Result<String<T::Alloc>, NoMemory>
    ensures { IfOk result (λ name. string_bytes name ≡ name_text world.now at) }
{
    let Some(node) = world.forest.node(at) else {
        return Ok(String::new(alloc));
    };
    if at.number == 0 {
        let mut root = shown_name(alloc, server_name(world, at.server))?;
        root.push_str(":/")?;
        return Ok(root);
    }
    let mut name = shown_name(alloc, node.name())?;
    if node.is_dir() {
        name.push('/')?;
    }
    Ok(name)
}

// A name as it is shown, but no longer than it may be.
fn shown_name<A: Allocator + Copy>(alloc: A, name: &str) -> Result<String<A>, NoMemory>
    ensures { IfOk result (λ text. string_bytes text ≡ cut_text name_max (shown_text name.now)) }
{
    let name = shown(alloc, name)?;
    cut(alloc, name.as_str(), NAME_MAX)
}

/// The first characters of a text, and `…` for the rest where it has more than `most`.
pub(crate) fn cut<A: Allocator + Copy>(
    alloc: A,
    text: &str,
    most: usize,
) -> Result<String<A>, NoMemory>
    ensures { IfOk result (λ out. string_bytes out ≡ cut_text most text.now) }
{
    if text.chars().count() <= most {
        return Ok(String::from_str(alloc, text)?);
    }
    let mut front = front_of(alloc, text, most.saturating_sub(1))?;
    front.push('…')?;
    Ok(front)
}

// The first so many characters of a text.
fn front_of<A: Allocator + Copy>(alloc: A, text: &str, most: usize) -> Result<String<A>, NoMemory>
    ensures { IfOk result (λ front. string_bytes front
        ≡ encode_utf8_all (take most (chars text.now))) }
{
    let mut front = String::new(alloc);
    let mut left = most;
    for c in text.chars() {
        if left == 0 {
            return Ok(front);
        }
        front.push(c)?;
        left -= 1;
    }
    Ok(front)
}

// How many entries of a directory have no box, and whether one of them is a directory.
struct LeftOut {
    count: u64,
    has_dirs: bool,
}

impl LeftOut {
    // Of the directory of a box.
    fn of<T: Tree>(forest: &Forest<T>, spots: &[Spot], dir: NodeRef) -> LeftOut {
        let mut left_out = LeftOut {
            count: 0,
            has_dirs: false,
        };
        let mut floor = None;
        for _ in 0..forest.next_of(dir.server) {
            let Some(child) = forest.after(dir, floor) else {
                break;
            };
            floor = Some(child.number());
            if !has_box(spots, dir.beside(child.number())) {
                left_out.count = left_out.count.saturating_add(1);
                left_out.has_dirs = left_out.has_dirs || child.is_dir();
            }
        }
        left_out
    }

    // As it is said behind the directory's name.
    fn words<A: Allocator + Copy>(self, alloc: A) -> Result<String<A>, NoMemory>
        ensures { IfOk result (λ text.
            string_bytes text ≡ left_out_text self.count self.has_dirs) }
    {
        let LeftOut { count, has_dirs } = self;
        Ok(if count == 0 {
            String::new(alloc)
        } else if has_dirs {
            format!(in alloc; " ({count} more)")?
        } else if count == 1 {
            String::from_str(alloc, " (1 file)")?
        } else {
            format!(in alloc; " ({count} files)")?
        })
    }
}

// Whether a node has a box.
fn has_box(spots: &[Spot], node: NodeRef) -> bool {
    spots.iter().any(|spot| spot.node == node)
}

// What is said of a node on the walk of a breach, if there is one: who passes it, and by which right; or
// what is wrong with it.
fn note_of<T: Tree>(
    alloc: T::Alloc,
    world: &World<T>,
    breach: Option<&Breach<T::Alloc>>,
    at: NodeRef,
) -> Result<String<T::Alloc>, NoMemory>
    ensures { IfOk result (λ note.
        string_bytes note ≡ note_text world.now (walk_in (option_copied breach.entry)) at) }
{
    match breach {
        Some(breach) => walk_note(alloc, world, breach, at),
        None => Ok(String::new(alloc)),
    }
}

// What is said of a node on the walk of this breach.
fn walk_note<T: Tree>(
    alloc: T::Alloc,
    world: &World<T>,
    breach: &Breach<T::Alloc>,
    at: NodeRef,
) -> Result<String<T::Alloc>, NoMemory>
    ensures { IfOk result (λ note.
        string_bytes note ≡ walk_note world.now (walk_of breach.now) at) }
{
    match step_at(breach.steps.as_slice(), at) {
        Some(step) => right_note(alloc, world, step),
        None if breach.member == at => fault_note(alloc, world, at, breach.kind),
        None => Ok(String::new(alloc)),
    }
}

// The first step that passes a node.
fn step_at(steps: &[Step], at: NodeRef) -> Option<&Step>
    ensures { option_copied result ≡ find (λ s. same_node s.member at) steps.now }
{
    steps.iter().find(|step| step.member == at)
}

// Who makes a step, and by which right.
fn right_note<T: Tree>(
    alloc: T::Alloc,
    world: &World<T>,
    step: &Step,
) -> Result<String<T::Alloc>, NoMemory>
    ensures { IfOk result (λ note. string_bytes note ≡ right_note world.now step.now) }
{
    let mut note = shown(alloc, step.user.as_str())?;
    note.push_str(": ")?;
    if let Some(right) = step_right(world, step) {
        right.push("its group", &mut note)?;
    }
    Ok(note)
}

// By which right a step is made.
fn step_right<T: Tree>(world: &World<T>, step: &Step) -> Option<Right>
    ensures { result ≡ step_right world.now step.now }
{
    let who = Who {
        user: &step.user,
        groups: &world.groups,
    };
    right_of(who, world.forest.node(step.member)?)
}
