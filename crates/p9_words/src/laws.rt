//! What follows from the definitions alone. Each function does nothing: its clauses are the laws.

ghost use Rattle.p9_wire.specs.Spelling.{TSpells, RSpells};
ghost use Rattle.p9_words.specs.Laws.{ReadsBack, ReadsTheSame};
ghost use Rattle.p9_words.specs.Omitted.{message_of_words};
ghost use Rattle.p9_words.specs.Reading.{frame_of_words};
ghost use Rattle.p9_words.specs.Words.{t_words, r_words};

/// What is printed of a request is read as the frame that spells it, for every request that has a
/// spelling.
pub fn requests_are_read_back()
    ensures { ReadsBack t_words TSpells }
{}

/// What is printed of a reply is read as the frame that spells it, for every reply that has a
/// spelling.
pub fn replies_are_read_back()
    ensures { ReadsBack r_words RSpells }
{}

/// Words that say a message with its tag and all of its fields are the same message where these may
/// be left out, whatever the turn.
pub fn whole_messages_are_read_the_same()
    ensures { ReadsTheSame frame_of_words message_of_words }
{}
