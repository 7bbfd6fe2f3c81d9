//! What follows from the definitions alone. The functions do nothing: their clauses are the laws.

ghost use Rattle.std.specs.Prelude.{◌≡◌, ◌≢◌, ◌<◌, ◌++◌, [], List, None, Some, length, take, ℕ};
ghost use Rattle.p9_tree.specs.ForestEdit.{ForestEdit};
ghost use Rattle.p9_record.specs.Closed.{checksum, closed_edit_at, closed_spelling};
ghost use Rattle.p9_record.specs.Record.{FitsForestEdit, forest_spelling};
ghost use Rattle.p9_record.specs.RecordReading.{forest_edit_at};
ghost use Rattle.p9_wire.specs.Frame.{IsBytes};

/// A change that is spelled is read back, whatever is behind it.
pub fn changes_are_read_back()
    ensures { (edit : ForestEdit) (rest : List ℕ) → FitsForestEdit edit
        → forest_edit_at (forest_spelling edit ++ rest) ≡ Some (edit, rest) }
{}

/// Nothing else is read: where a change is read in front of bytes, they begin with its spelling.
pub fn nothing_else_is_read()
    ensures { (bytes : List ℕ) (edit : ForestEdit) (rest : List ℕ) → IsBytes bytes
        → forest_edit_at bytes ≡ Some (edit, rest)
        → (bytes ≡ forest_spelling edit ++ rest) × FitsForestEdit edit }
{}

/// A closed record that is spelled is read back, whatever is behind it.
pub fn closed_changes_are_read_back()
    ensures { (edit : ForestEdit) (rest : List ℕ) → FitsForestEdit edit
        → closed_edit_at (closed_spelling edit ++ rest) ≡ Some (edit, rest) }
{}

/// Nothing else is read: where a closed record is read in front of bytes, they begin with its spelling.
pub fn nothing_else_is_closed()
    ensures { (bytes : List ℕ) (edit : ForestEdit) (rest : List ℕ) → IsBytes bytes
        → closed_edit_at bytes ≡ Some (edit, rest)
        → (bytes ≡ closed_spelling edit ++ rest) × FitsForestEdit edit }
{}

/// A closed record that is cut short is none, and so is a change with another checksum behind it.
pub fn damaged_records_are_none()
    ensures cut { (bytes : List ℕ) (edit : ForestEdit) (n : ℕ) → IsBytes bytes
        → closed_edit_at bytes ≡ Some (edit, []) → n < length bytes
        → closed_edit_at (take n bytes) ≡ None }
    ensures other { (edit : ForestEdit) (sum : List ℕ) (rest : List ℕ) → FitsForestEdit edit
        → length sum ≡ 8 → sum ≢ checksum (forest_spelling edit)
        → closed_edit_at (forest_spelling edit ++ (sum ++ rest)) ≡ None }
{}
