//! The laws.

ghost use Rattle.std.specs.Prelude.{◌≡◌, List};
ghost use Rattle.p9_base.specs.declared.node_ref.NodeRef.{NodeRef};
ghost use Rattle.p9_tree.specs.Journal.{IsAlike};
ghost use Rattle.p9_tree.specs.Server.{Server};
ghost use Rattle.p9_space.specs.Table.{MountRow};
ghost use Rattle.p9_cert.specs.Gap.{first_gap};
ghost use Rattle.p9_cert.specs.Policy.{Policy};
ghost use Rattle.p9_kept_laws.specs.Crashes.{CrashesChangeNothingInside};

use p9_input_laws::laws::lives_change_nothing_inside;

/// What the checker finds doesn't depend on when files were last read: of two forests that differ in
/// nothing else it finds the same.
pub fn gaps_are_the_same_of_alike_forests()
    ensures { (policy : Policy) (forest other : List Server) (table : List MountRow)
        (rows : List NodeRef) → IsAlike forest other
        → first_gap policy forest table rows ≡ first_gap policy other table rows }
{}

/// Any number of lives of a server whose changes are kept. Each begins with what was recovered after
/// the one before: a well-formed forest that is, apart from times of last access, that after some
/// events of that life. Where the checker finds no gap in a certificate over the first world, the
/// theorem holds of each life. What is inside hidden directories is as it was, apart from times of
/// last access, and the world that is there can be sealed. No certificate of a later life is needed
/// for this.
pub fn crashes_change_nothing_inside<A>()
    ensures { CrashesChangeNothingInside A }
{
    lives_change_nothing_inside::<A>();
}
