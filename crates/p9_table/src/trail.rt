//! Trails: how a fid or a current directory was reached.

ghost use Rattle.std.specs.Prelude.{◌≡◌, ◌++◌, ◌∷◌, ◌<◌, ◌≤◌, [], length, replicate, slice_get, IfOk};
ghost use Rattle.std.specs.Prelude.{OnErr, OnOk, Some};
ghost use Rattle.p9_table.specs.Trail.{IsTrail, here, places_max, stepped, upward};

use p9_base::{NoMemory, NodeRef};
use std::alloc::Allocator;
use std::marker::Model;

/// The root of the name space: the root of server 0.
pub const ROOT_PLACE: NodeRef = NodeRef {
    server: 0,
    number: 0,
};

/// The most places of a trail.
pub const PLACES_MAX: usize = 64;

/// Where one step of a walk leads.
#[derive(Clone, Copy, Debug, PartialEq, Eq)]
pub enum Step {
    /// Back by one place, or nowhere at the place of attachment: the step of `..`.
    Up,
    /// On to a place.
    To(NodeRef),
}

/// The places that a walk came by, from the place of attachment on: at least one, and at most
/// [`PLACES_MAX`]. A place is a key of the mount table; its file is its first member.
///
/// It makes `..` lexical: it goes back the way one came, whatever the parent of the file is.
#[derive(Drop)]
pub struct Trail<A: Allocator> {
    places: Vec<NodeRef, A>,
}

impl<A: Allocator> Model for Trail<A> {
    ghost use Rattle.std.specs.Prelude.{List};
    ghost use Rattle.p9_base.specs.declared.node_ref.NodeRef.{NodeRef};
    ghost use Rattle.p9_table.specs.Trail.{IsTrail};

    ghost Value = { List NodeRef };

    ghost view = { λ t. t.places.items };

    ghost invariant = { λ t. IsTrail t.places.items };
}

impl<A: Allocator + Copy> Trail<A> {
    /// The trail of one place. The only error is that an allocation fails.
    pub fn at(alloc: A, place: NodeRef) -> Result<Trail<A>, NoMemory>
        ensures { IfOk result (λ trail. trail ≡ place ∷ []) }
    {
        let mut places = Vec::new(alloc);
        places.push(place)?;
        Ok(Trail { places })
    }

    /// Another trail of the same places. The only error is that an allocation fails.
    pub fn copy(&self) -> Result<Trail<A>, NoMemory>
        ensures { IfOk result (λ copy. copy ≡ self.now) }
    {
        Ok(Trail {
            places: self.places.clone()?,
        })
    }

    /// A trail of so many places, each of them this one. The only error is that an allocation fails.
    pub fn filled(alloc: A, place: NodeRef, count: usize) -> Result<Trail<A>, NoMemory>
        requires some { 0 < count }
        requires few { count ≤ places_max }
        ensures { IfOk result (λ trail. trail ≡ replicate count place) }
    {
        let mut filled = Vec::new(alloc);
        filled.resize(count, place)?;
        Ok(Trail { places: filled })
    }

    /// Goes where other places lead, of which there are no more than it has. This takes no memory.
    pub fn follow(&mut self, places: &[NodeRef])
        requires trail { IsTrail places.now }
        requires room { length places.now ≤ length self.old }
        ensures { self.new ≡ places.now }
    {
        self.places.truncate(places.len());
        self.places.copy_from_slice(places);
    }

    /// Goes on to a place. Where an allocation fails, the trail is unchanged.
    pub fn push(&mut self, place: NodeRef) -> Result<(), NoMemory>
        requires { length self.old < places_max }
        ensures ok { OnOk result (self.new ≡ self.old ++ place ∷ []) }
        ensures err { OnErr result (self.new ≡ self.old) }
    {
        self.places.push(place)?;
        Ok(())
    }

    /// What is kept of each trail: it has at least one place, and at most [`PLACES_MAX`]. This does
    /// nothing when it runs; it is for a caller that has to know so.
    pub fn well_formed(&self)
        ensures { IsTrail self.now }
    {
        let _places = &self.places;
    }

    /// How many places there are: 1 to [`PLACES_MAX`].
    pub fn len(&self) -> usize
        ensures { result ≡ length self.now }
    {
        self.places.len()
    }

    /// The places.
    pub fn as_slice(&self) -> &[NodeRef]
        ensures { result.now ≡ self.now }
    {
        self.places.as_slice()
    }

    /// The allocator that the places are kept in.
    pub fn allocator(&self) -> A {
        *self.places.allocator()
    }

    /// The place at a position, counted from 0, the place of attachment.
    pub fn get(&self, position: usize) -> Option<NodeRef>
        ensures { result ≡ slice_get self.now position }
    {
        self.places.get(position).copied()
    }

    /// The last place, at which the trail has arrived.
    pub fn here(&self) -> NodeRef
        ensures { result ≡ here self.now }
    {
        self.places[self.places.len() - 1]
    }

    /// Goes back by one place, as `..` does; at the place of attachment it stays. This takes no
    /// memory.
    pub fn step_up(&mut self)
        ensures { self.new ≡ upward self.old }
    {
        if self.places.len() > 1 {
            let _ = self.places.pop();
        }
    }

    /// Takes a step. Where an allocation fails, the trail is unchanged.
    pub fn take(&mut self, step: Step) -> Result<(), NoMemory>
        requires { length (stepped self.old step) ≤ places_max }
        ensures ok { OnOk result (self.new ≡ stepped self.old step) }
        ensures err { OnErr result (self.new ≡ self.old) }
    {
        match step {
            Step::Up => {
                self.step_up();
                Ok(())
            }
            Step::To(place) => self.push(place),
        }
    }
}

/// The position of the place before the last, or of the last where there is no other.
pub fn position_above(places: &[NodeRef]) -> usize
    requires { 0 < length places.now }
    ensures within { result < length places.now }
    ensures above { slice_get places.now result ≡ Some (here (upward places.now)) }
{
    places.len().saturating_sub(2)
}

/// The place before the last, or the last where there is no other.
pub fn above(places: &[NodeRef]) -> NodeRef
    requires { 0 < length places.now }
    ensures { result ≡ here (upward places.now) }
{
    places[position_above(places)]
}

/// The last of some places.
pub fn last(places: &[NodeRef]) -> NodeRef
    requires { 0 < length places.now }
    ensures { result ≡ here places.now }
{
    places[places.len() - 1]
}
