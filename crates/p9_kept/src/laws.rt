//! What follows from the definitions alone. The function does nothing: its clauses are the laws.

ghost use Rattle.std.specs.Prelude.{◌≡◌, ◌++◌, List, ℕ};
ghost use Rattle.p9_tree.specs.ForestEdit.{ForestEdit, forest_edited};
ghost use Rattle.p9_record.specs.Closed.{closed_spelling};
ghost use Rattle.p9_record.specs.Record.{FitsForestEdit};
ghost use Rattle.p9_kept.specs.Edits.{IsWhole, stood_for};

/// Whole records and one more are whole, and stand for what its change makes of what the others
/// stand for.
pub fn records_follow()
    ensures whole { (bytes : List ℕ) (edit : ForestEdit) → IsWhole bytes → FitsForestEdit edit
        → IsWhole (bytes ++ closed_spelling edit) }
    ensures stood { (bytes : List ℕ) (edit : ForestEdit) → IsWhole bytes → FitsForestEdit edit
        → stood_for (bytes ++ closed_spelling edit) ≡ forest_edited edit (stood_for bytes) }
{}
