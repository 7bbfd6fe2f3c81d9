//! What follows from the definitions alone. The function does nothing: its clause is the law.

ghost use Rattle.p9_policy.specs.Laws.{WrittenReadsBack};

/// What is written of a certificate reads back as the same one.
pub fn written_reads_back()
    ensures { WrittenReadsBack }
{}
