//! What follows from the definitions alone. Each function does nothing: its clauses are the laws.

ghost use Rattle.p9_world.specs.Laws.{WordsAreGood, WrittenReadsBack};

/// What is written of lines is read as the world that the lines ask for, or as the first fault of
/// theirs with the number of its line.
pub fn written_reads_back()
    ensures { WrittenReadsBack }
{}

/// No line has a fault of its words: a line is at fault only where its server, its directory or
/// room for it is missing, where what it makes is there, or where a file has no name or too many
/// bytes. So the fields' types leave out all else that a world can't have.
pub fn words_are_good()
    ensures { WordsAreGood }
{}
