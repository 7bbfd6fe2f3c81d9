//! The search of a world for breaches.

ghost use Rattle.std.specs.Prelude.{◌≡◌, ◌++◌, ◌∷◌, ◌<◌, ◌&&◌, ◌||◌, [], IfOk, IsTrue, None, OnOk};
ghost use Rattle.std.specs.Prelude.{IsSome, is_some, length, slice_get, option_and_then, option_map};
ghost use Rattle.p9_base.specs.NodeRef.{same_node};
ghost use Rattle.p9_base.specs.Name.{is_name};
ghost use Rattle.p9_tree.specs.Server.{next_max};
ghost use Rattle.p9_space.specs.Place.{root_place};
ghost use Rattle.p9_cert.specs.Policy.{policy_of};
ghost use Rattle.p9_cert.specs.Rows.{is_row};
ghost use Rattle.p9_cert.specs.Safe.{IsSafe};
ghost use Rattle.p9_judge.specs.Breach.{passer_of, place_breach};
ghost use Rattle.p9_judge.specs.Listed.{Lists};
ghost use Rattle.p9_judge.specs.Search.{ArePassed, IsAt, IsGrown, IsSearch, IsStepFrom, IsWayTo};
ghost use Rattle.p9_judge.specs.Search.{child_place, child_places, discovered};

use crate::breach::Step;
use crate::listed::Listed;
use crate::member::passer;
use p9_base::{Name, NoMemory, NodeRef};
use p9_cert::Certificate;
use p9_space::{MountTable, ROOT_PLACE};
use p9_tree::{Forest, Node, Tree};
use p9_world::World;
use std::alloc::Allocator;
use std::collections::BTreeSet;

/// A place that was discovered.
#[derive(Clone, Copy)]
pub(crate) struct Place {
    pub key: NodeRef,
    // Where it was discovered from; nowhere for the root place.
    origin: Option<Origin>,
}

/// Where a place was discovered from: the place with this position in the order of discovery, the
/// member of it that was passed, and the child's name there.
#[derive(Clone, Copy)]
struct Origin {
    from: usize,
    member: NodeRef,
    name: Name,
}

impl Place {
    /// The directory that the place was discovered in.
    pub fn parent(&self) -> Option<NodeRef>
        ensures { result ≡ option_map (λ origin. origin.member) self.now.origin }
    {
        self.origin.map(|origin| origin.member)
    }
}

/// The places that were discovered so far, and the directories that were passed.
#[derive(Drop)]
pub(crate) struct Search<A: Allocator> {
    // In the order of their discovery.
    places: Vec<Place, A>,
    // Those whose children are among the places.
    passed: BTreeSet<NodeRef, A>,
}

impl<A: Allocator + Copy> Search<A> {
    /// A search that has discovered the root place.
    pub fn new(alloc: A) -> Result<Search<A>, NoMemory>
        ensures places { IfOk result (λ search. search.places.items
            ≡ record { key = root_place; origin = None } ∷ []) }
        ensures passed { IfOk result (λ search. search.passed.keys ≡ []) }
    {
        let mut places = Vec::new(alloc);
        places.push(Place {
            key: ROOT_PLACE,
            origin: None,
        })?;
        Ok(Search {
            places,
            passed: BTreeSet::new(alloc),
        })
    }

    /// The place of this position in the order of discovery.
    pub fn place(&self, position: usize) -> Option<Place>
        ensures { result ≡ slice_get self.now.places.items position }
    {
        self.places.get(position).copied()
    }

    // Where the place of this position was discovered from.
    fn origin(&self, position: usize) -> Option<Origin>
        ensures { result
            ≡ option_and_then (λ p. p.origin) (slice_get self.now.places.items position) }
    {
        self.place(position)?.origin
    }

    /// Passes each member of a place that some listed user may pass.
    pub fn pass<T: Tree, B: Allocator + Copy>(
        &mut self,
        world: &World<T>,
        listed: &Listed<A>,
        table: &MountTable<B>,
        from: usize,
        place: NodeRef,
    ) -> Result<(), NoMemory>
        requires listed { Lists world.now.users world.now.groups listed.now }
        requires search { IsSearch (policy_of world.now) world.now.forest table.now
            self.old.places.items self.old.passed.keys }
        requires place { IsAt self.old.places.items from place }
        requires tested { place_breach (policy_of world.now) world.now.forest table.now place
            ≡ None }
        ensures search { OnOk result (IsSearch (policy_of world.now) world.now.forest table.now
            self.new.places.items self.new.passed.keys) }
        ensures grown { OnOk result (IsGrown self.old.places.items self.new.places.items
            self.old.passed.keys self.new.passed.keys) }
        ensures safe { OnOk result (IsSafe (policy_of world.now) world.now.forest table.now
            (is_row self.new.passed.keys) place) }
    {
        world.forest.well_formed();
        for member in table.members(place).as_slice() {
            self.pass_member(world, listed, from, member.node)?;
        }
        Ok(())
    }

    // Passes one member, if some listed user may and none did so before.
    fn pass_member<T: Tree>(
        &mut self,
        world: &World<T>,
        listed: &Listed<A>,
        from: usize,
        member: NodeRef,
    ) -> Result<(), NoMemory>
        requires { Lists world.now.users world.now.groups listed.now }
        ensures places { OnOk result (self.new.places.items ≡ self.old.places.items
            ++ discovered (policy_of world.now) world.now.forest from self.old.passed.keys member) }
        ensures passed { OnOk result ((at : NodeRef) → is_row self.new.passed.keys at
            ≡ (is_row self.old.passed.keys at
            || (is_some (passer_of (policy_of world.now) world.now.forest member)
            && same_node member at))) }
    {
        let Some(node) = world.forest.node(member) else {
            return Ok(());
        };
        if !listed.may_pass(world, node) {
            return Ok(());
        }
        if self.passed.insert(member)? {
            self.discover_children(&world.forest, from, member)?;
        }
        Ok(())
    }

    // Discovers the children of a directory, by rising number.
    fn discover_children<T: Tree>(
        &mut self,
        forest: &Forest<T>,
        from: usize,
        dir: NodeRef,
    ) -> Result<(), NoMemory>
        ensures places { OnOk result (self.new.places.items ≡ self.old.places.items
            ++ child_places forest.now from dir) }
        ensures passed { self.new.passed.keys ≡ self.old.passed.keys }
    {
        forest.well_formed();
        let mut floor = None;
        while let Some(child) = forest.after(dir, floor) {
            self.places.push(child_place(from, dir, child))?;
            floor = Some(child.number());
        }
        Ok(())
    }

    /// The steps from the root place to the place of this position. The user of each is looked for
    /// among the listed ones.
    pub fn steps_to<T: Tree, B: Allocator>(
        &self,
        alloc: B,
        world: &World<T>,
        position: usize,
    ) -> Result<Vec<Step, B>, NoMemory>
        requires passed { ArePassed (policy_of world.now) world.now.forest self.now.places.items }
        requires within { position < length self.now.places.items }
        ensures { IfOk result (λ steps. IsWayTo (policy_of world.now) world.now.forest
            self.now.places.items steps.items position) }
    {
        let mut steps = Vec::new(alloc);
        let mut position = position;
        while let Some(origin) = self.origin(position) {
            let from = origin.from;
            steps.push(step_from(world, origin))?;
            position = from;
        }
        steps.reverse();
        Ok(steps)
    }

    /// The certificate of the directories that were passed.
    pub fn certificate(&self, alloc: A) -> Result<Certificate<A>, NoMemory>
        requires { (at : NodeRef) → IsTrue (is_row self.now.passed.keys at)
            → at.number < next_max }
        ensures { IfOk result (λ certificate. certificate ≡ self.now.passed.keys) }
    {
        let mut certificate = Certificate::new(alloc);
        for row in &self.passed {
            certificate.push(*row)?;
        }
        Ok(certificate)
    }
}

// The place of a directory's child.
fn child_place<A: Allocator>(from: usize, dir: NodeRef, child: &Node<A>) -> Place
    requires { IsTrue (is_name child.now.name) }
    ensures { result ≡ child_place from dir child.now }
{
    Place {
        key: dir.beside(child.number()),
        origin: Some(Origin {
            from,
            member: dir,
            name: Name::new(child.name()).unwrap(),
        }),
    }
}

// The step by which a place was discovered, with the first listed user who may make it.
fn step_from<T: Tree>(world: &World<T>, origin: Origin) -> Step
    requires { IsSome (passer_of (policy_of world.now) world.now.forest origin.member) }
    ensures { IsStepFrom (policy_of world.now) world.now.forest origin result }
{
    Step {
        name: origin.name,
        member: origin.member,
        user: passer(world, origin.member).unwrap(),
    }
}
