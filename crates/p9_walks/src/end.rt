//! The end of fids, and removal on close, as clunk(5).

ghost use Rattle.std.specs.Prelude.{◌≡◌, []};
ghost use Rattle.p9_fids.specs.Held.{AllFit, HeldFits};
ghost use Rattle.p9_step.specs.ForestChange.{all_applied};
ghost use Rattle.p9_step.specs.Sound.{IsWellOpen, AreWellOpen};
ghost use Rattle.p9_step.specs.End.{on_end, on_ends, parent_marked};
ghost use Rattle.p9_step.specs.End.{removes_on_close, taken_out};

use crate::setting::Setting;
use p9_base::{NodeRef, User};
use p9_fids::{Fid, FidTable};
use p9_tree::{Forest, Tree};
use std::alloc::Allocator;

/// What the end of a fid does: a file that it holds open with remove-on-close goes, and its
/// directory is marked. Nothing is tested any more, and it takes no memory.
#[tactic(auto, unfolding(p9_step::specs::ForestChange::applied, p9_step::specs::ForestChange::edited))]
pub fn end_fid<T: Tree>(
    setting: &Setting<T::Alloc>,
    forest: &mut Forest<T>,
    fid: &Fid<T::Alloc>,
    clock: u32,
)
    requires opened { IsWellOpen setting.now.table forest.old fid.now.fid }
    requires channels { HeldFits setting.now.table fid.now }
    ensures { forest.new ≡ all_applied (on_end setting.now.table clock forest.old fid.now.fid)
        forest.old }
{
    if !removes_on_close(fid) {
        return;
    }
    let at = setting.file(fid);
    let Some(file) = forest.node(at) else {
        return;
    };
    forest.well_formed();
    let parent = file.parent();
    forest.drop_leaf(at);
    mark_parent(forest, at, parent, fid.user, clock);
}

fn removes_on_close<A: Allocator + Copy>(fid: &Fid<A>) -> bool
    ensures { result ≡ removes_on_close fid.now.fid }
{
    fid.opened.is_some_and(|opened| opened.remove_on_close)
}

/// Marks the directory that a node is in, by its number at the same server, if it is in
/// one.
#[tactic(auto, unfolding(p9_step::specs::ForestChange::applied, p9_step::specs::ForestChange::edited))]
pub fn mark_parent<T: Tree>(
    forest: &mut Forest<T>,
    at: NodeRef,
    parent: Option<u64>,
    user: User,
    clock: u32,
)
    ensures { forest.new ≡ all_applied (parent_marked user clock at parent) forest.old }
{
    if let Some(number) = parent {
        forest.bump(at.beside(number), user, clock);
    }
}

/// Ends all fids, by rising number.
pub fn end_fids<T: Tree>(
    setting: &Setting<T::Alloc>,
    forest: &mut Forest<T>,
    fids: &mut FidTable<T::Alloc>,
    clock: u32,
)
    requires opened { AreWellOpen setting.now.table forest.old fids.old.fids }
    requires channels { AllFit setting.now.table fids.old }
    ensures forest { forest.new ≡ all_applied
        (on_ends setting.now.table clock forest.old fids.old.fids) forest.old }
    ensures fids { fids.new.fids ≡ [] }
    ensures channels { AllFit setting.now.table fids.new }
{
    while let Some((_, fid)) = fids.take_first() {
        forest.well_formed();
        end_fid(setting, forest, &fid, clock);
    }
}
