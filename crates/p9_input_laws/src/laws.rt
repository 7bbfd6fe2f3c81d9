//! The laws of inputs and of worlds.

ghost use Rattle.p9_input_laws.specs.Laws.{AlikeInputsAreExportedAlike, AlikeInputsPlayAlike};
ghost use Rattle.p9_input_laws.specs.Laws.{PreparedInputsAreWellFormed};
ghost use Rattle.p9_input_laws.specs.Lives.{GuardedCanBeSealed, LivesChangeNothingInside};
ghost use Rattle.p9_input_laws.specs.Lives.{SealingAgainNeverFails};
ghost use Rattle.p9_input_laws.specs.NeverThere.{RunsAreAsIfNeverThere, WorldsAreAsIfNeverThere};
ghost use Rattle.p9_input_laws.specs.Witness.{AWorldIsOtherWithoutInsides};
ghost use Rattle.p9_input_laws.specs.Witness.{TwoLivesMeetThePremises, TwoWorldsMeetThePremises};

use p9_play::laws::alike_worlds_play_alike;

/// The world and the mount table of an input that is prepared are well-formed. The table names only
/// nodes that were made. Each event of the script can happen. Nothing is asked of the input's bytes.
pub fn prepared_inputs_are_well_formed()
    ensures { PreparedInputsAreWellFormed }
{}

/// Suppose that two inputs are prepared. They have the same certificate, script, users, groups, mount
/// table and hidden directories. Their worlds differ only inside these, and each member of the mount
/// table is a node in both or in neither. Then the states in which they are exported are alike, as
/// the theorem has it.
pub fn alike_inputs_are_exported_alike()
    ensures { AlikeInputsAreExportedAlike }
{}

/// Suppose that the certificate of two such inputs has no gap over the first. Then `play` prints the
/// same text for both, if the same requests fail for memory. If the same operations of the namespace
/// files fail, the command may also end over both in the same ways: with the same status, and the
/// same bytes on its output and its errors.
pub fn alike_inputs_play_alike()
    ensures { AlikeInputsPlayAlike }
{
    alike_worlds_play_alike();
}

/// Two inputs meet the premises of [`alike_inputs_play_alike`], and their worlds are not the same:
/// `/vault/key` is a file that all may write in the one, and a directory of glenda's in the other.
/// The law also says what `play` prints for them.
pub fn two_worlds_meet_the_premises()
    ensures { TwoWorldsMeetThePremises }
{}

/// Take what is inside the hidden directories out of a guarded state. Then any events, with any
/// marks, have the same replies as before, one by one. They lead to the state that they led to
/// before, without what is inside. The same allocations may fail.
pub fn runs_are_as_if_never_there()
    ensures { RunsAreAsIfNeverThere }
{}

/// Suppose that the checker finds no gap in a certificate over a well-formed world and a mount
/// table. Take what is inside the hidden directories out of the world. What is left is well-formed,
/// and the certificate has no gap over it. Whatever happens from the state in which it is exported
/// is answered as from the state in which the whole world is exported.
pub fn worlds_are_as_if_never_there()
    ensures { WorldsAreAsIfNeverThere }
{}

/// The first of the two inputs meets the premises of [`worlds_are_as_if_never_there`]. Its world is
/// another without what is inside: `/vault/key` is gone. `play` prints the same over it.
pub fn a_world_is_other_without_insides()
    ensures { AWorldIsOtherWithoutInsides }
{}

/// A guarded state can be sealed: there is a certificate without a gap, and there is no breach. Each
/// verdict of the judge is yes, and its certificate has no gap.
pub fn guarded_states_can_be_sealed<A>()
    ensures { GuardedCanBeSealed A }
{}

/// Suppose that the checker finds no gap in a certificate over a well-formed world and a mount
/// table. The world that is left after any events, with any marks, is well-formed again, and can be
/// sealed again: each verdict of the judge is yes, and its certificate has no gap.
pub fn sealing_again_never_fails<A>()
    ensures { SealingAgainNeverFails A }
{}

/// Any number of lives: each begins from the world that the one before left, without sessions, and
/// its events can happen. Where the checker finds no gap in a certificate over the first world, the
/// theorem holds of each life. Nothing inside a hidden directory has changed over all of them, and
/// the world that is left can be sealed again. No certificate of a later life is needed for this.
pub fn lives_change_nothing_inside<A>()
    ensures { LivesChangeNothingInside A }
{}

/// The first of the two inputs meets the premises of [`lives_change_nothing_inside`]: its events
/// happen in two lives, one after the other, and the world that is left is another.
pub fn two_lives_meet_the_premises()
    ensures { TwoLivesMeetThePremises }
{}
