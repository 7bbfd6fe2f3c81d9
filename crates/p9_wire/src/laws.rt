//! What follows from the grammar alone. Each function does nothing: its clauses are the laws.

ghost use Rattle.std.specs.Prelude.{◌≡◌, ◌≢◌, ℕ, ◌+◌, IsTrue, List, ◌++◌, length, take};
ghost use Rattle.p9_wire.specs.Message.{TMessage, RMessage};
ghost use Rattle.p9_wire.specs.Spelling.{t_len, t_spelling, TSpells, r_len, RSpells};
ghost use Rattle.p9_wire.specs.Reply.{r_spelling};
ghost use Rattle.p9_wire.specs.Reading.{t_message_of, r_message_of};
ghost use Rattle.p9_wire.specs.Frame.{first_frame, is_frame, BeginsFrames};
ghost use Rattle.p9_wire.specs.declared.frame.Frame.TheVariants.{Need, Whole};
ghost use Rattle.p9_wire.specs.Laws.{ReadsSpellings, ReadsEachSpelling, HasOneMessage};

/// Each spelling is that of one request with one tag, and `t_message_of` reads exactly the spellings.
/// A request with a tag has one spelling by definition, since `t_spelling` is a function.
pub fn requests_are_spelled_once()
    ensures sound { ReadsSpellings t_message_of TSpells }
    ensures complete { ReadsEachSpelling t_message_of TSpells }
    ensures one_message { HasOneMessage TSpells }
    ensures len { (tag : ℕ) (m : TMessage) → length (t_spelling tag m) ≡ 7 + t_len m }
{}

/// Each spelling is that of one reply with one tag, and `r_message_of` reads exactly the spellings.
/// A reply with a tag has one spelling by definition, since `r_spelling` is a function.
pub fn replies_are_spelled_once()
    ensures sound { ReadsSpellings r_message_of RSpells }
    ensures complete { ReadsEachSpelling r_message_of RSpells }
    ensures one_message { HasOneMessage RSpells }
    ensures len { (tag : ℕ) (m : RMessage) → length (r_spelling tag m) ≡ 7 + r_len m }
{}

/// The frames of a byte string begin with what is at its front, and bytes that come later leave
/// a whole frame whole and a broken size broken.
pub fn frames_begin_at_the_front()
    ensures first { (bytes : List ℕ) → BeginsFrames (first_frame bytes) bytes }
    ensures later { (bytes more : List ℕ) → first_frame bytes ≢ Need
        → first_frame (bytes ++ more) ≡ first_frame bytes }
{}

/// A whole frame is the first frame of each byte string that begins with it, and the first frame of
/// a byte string is a whole one.
pub fn a_whole_frame_is_first()
    ensures first { (frame more : List ℕ) → IsTrue (is_frame frame)
        → first_frame (frame ++ more) ≡ Whole (length frame) }
    ensures whole { (bytes : List ℕ) (size : ℕ) → first_frame bytes ≡ Whole size
        → IsTrue (is_frame (take size bytes)) × (length (take size bytes) ≡ size) }
{}
