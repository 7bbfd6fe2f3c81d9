//! An exchange: what a script asks, and what was printed for it.

ghost use Rattle.std.specs.Prelude.{◌≡◌, ◌+◌, ◌≤◌, ◌<◌, ◌^◌, ◌∷◌, [], ◌++◌, IfErr, IfOk, OnOk, Ok};
ghost use Rattle.std.specs.Prelude.{codes, length, map};
ghost use Rattle.std.specs.Option.{option_and_then, option_map};
ghost use Rattle.std.specs.String.{string_bytes};
ghost use Rattle.p9_exchange.specs.Line.{line_view};
ghost use Rattle.p9_exchange.specs.Message.{message_words};
ghost use Rattle.p9_exchange.specs.Refusal.{IsStop};
ghost use Rattle.p9_exchange.specs.Talk.{talk_view, nothing_said, asking, printing, followed_by};
ghost use Rattle.p9_exchange.specs.Talk.{with_printed, is_open, is_skip, reply_in, skipped, replied};
ghost use Rattle.p9_exchange.specs.Talk.{opened};
ghost use Rattle.p9_exchange.specs.Talk.{closed, sent, done, with_said};

use crate::line::Line;
use crate::message::{frame_fault, print_message};
use crate::refusal::{Awaited, Refusal, Stop};
use crate::session::{has, remove};
use hex::FromHexError;
use p9_base::NoMemory;
use p9_wire::is_frame;
use std::alloc::{AllocError, Allocator};

/// An exchange so far.
#[derive(Drop)]
pub struct Talk<A: Allocator> {
    /// The tag whose turn is next.
    pub turn: u16,
    /// The sessions that are open.
    pub sessions: Vec<u32, A>,
    /// How many lines of the replies are shown.
    pub printed: usize,
    /// The text that shows them.
    pub text: Vec<u8, A>,
}

// The line that shows what goes to the exporter.
fn asking<A: Allocator + Copy>(
    alloc: A,
    line: usize,
    session: u32,
    words: &[u8],
) -> Result<Vec<u8, A>, NoMemory>
    ensures { IfOk result (λ text. text.items ≡ asking line session words.now) }
{
    let head = format!(in alloc; "{line} <-{session}- ")?;
    ended(alloc, head.as_bytes(), words)
}

// The line that shows what comes from the exporter.
fn printing<A: Allocator + Copy>(
    alloc: A,
    line: usize,
    session: u32,
    words: &[u8],
) -> Result<Vec<u8, A>, NoMemory>
    ensures { IfOk result (λ text. text.items ≡ printing line session words.now) }
{
    let head = format!(in alloc; "{line} -{session}-> ")?;
    ended(alloc, head.as_bytes(), words)
}

// Two texts and a newline.
fn ended<A: Allocator + Copy>(alloc: A, head: &[u8], words: &[u8]) -> Result<Vec<u8, A>, NoMemory>
    ensures { IfOk result (λ text. text.items ≡ head.now ++ words.now ++ 10 ∷ []) }
{
    let mut text = Vec::from_slice(alloc, head)?;
    text.extend_from_slice(words)?;
    text.push(b'\n')?;
    Ok(text)
}

// The message that bytes are, in words.
fn message_text<A: Allocator + Copy>(alloc: A, bytes: &[u8]) -> Result<Vec<u8, A>, NoMemory>
    ensures { IfOk result (λ text. text.items ≡ message_words bytes.now) }
{
    let mut text = Vec::new(alloc);
    print_message(bytes, &mut text)?;
    Ok(text)
}

// The words of a skip for this reason.
fn skip_words<A: Allocator + Copy>(alloc: A, reason: &str) -> Result<String<A>, AllocError>
    ensures { IfOk result (λ text. string_bytes text ≡ codes "skip: " ++ reason.now) }
{
    format!(in alloc; "skip: {reason}")
}

// Whether a line is there that says that an event was skipped.
fn is_skip(line: Option<&&str>) -> bool
    ensures { result ≡ is_skip (option_map (λ text. text.now.now) line.entry) }
{
    match line {
        Some(line) => "skip" == *line,
        None => false,
    }
}

// The bytes that a line of the replies writes: one or more.
fn reply_in<A: Allocator + Copy>(
    alloc: A,
    line: Option<&&str>,
) -> Result<Option<Vec<u8, A>>, NoMemory>
    ensures { IfOk result (λ reply. option_map (λ bytes. bytes.items) reply
        ≡ option_and_then reply_in (option_map (λ text. text.now.now) line.entry)) }
{
    match line {
        Some(line) => decoded(alloc, line),
        None => Ok(None),
    }
}

// The bytes that a line writes: one or more.
fn decoded<A: Allocator + Copy>(alloc: A, line: &str) -> Result<Option<Vec<u8, A>>, NoMemory>
    ensures { IfOk result (λ reply. option_map (λ bytes. bytes.items) reply ≡ reply_in line.now) }
{
    if line.is_empty() {
        return Ok(None);
    }
    match hex::decode(alloc, line) {
        Ok(bytes) => Ok(Some(bytes)),
        Err(FromHexError::OutOfMemory) => Err(NoMemory),
        Err(_) => Ok(None),
    }
}

impl<A: Allocator + Copy> Talk<A> {
    /// Nothing was asked yet.
    pub fn new(alloc: A) -> Talk<A>
        ensures view { talk_view result ≡ nothing_said }
        ensures printed { result.printed ≡ 0 }
    {
        Talk {
            turn: 0,
            sessions: Vec::new(alloc),
            printed: 0,
            text: Vec::new(alloc),
        }
    }

    // Whether a session is open.
    fn is_open(&self, session: u32) -> bool
        ensures { result ≡ is_open session (talk_view self.now) }
    {
        has(session, self.sessions.as_slice())
    }

    // Adds a line of what goes to the exporter.
    fn ask(&mut self, line: usize, session: u32, words: &[u8]) -> Result<(), NoMemory>
        ensures { OnOk result
            (talk_view self.new ≡ followed_by (talk_view self.old) (asking line session words.now)) }
    {
        let text = asking(*self.text.allocator(), line, session, words)?;
        self.text.extend_from_slice(text.as_slice())?;
        Ok(())
    }

    // Adds the line that shows what comes from the exporter, by one line of the replies.
    fn tell(&mut self, line: usize, session: u32, words: &[u8]) -> Result<(), NoMemory>
        requires { self.old.printed + 1 < 2 ^ 64 }
        ensures { OnOk result (talk_view self.new
            ≡ with_printed (talk_view self.old) (printing line session words.now)) }
    {
        let text = printing(*self.text.allocator(), line, session, words)?;
        self.text.extend_from_slice(text.as_slice())?;
        self.printed += 1;
        Ok(())
    }

    // An event is skipped for this reason.
    #[tactic(auto, unfolding(crate::specs::Talk::skipped))]
    fn skip(
        &mut self,
        replies: &[&str],
        line: usize,
        session: u32,
        reason: &str,
    ) -> Result<(), Stop>
        requires { self.old.printed ≤ length replies.now }
        ensures ok { OnOk result
            (skipped (map (λ reply. reply.now) replies.now) line session reason.now
            (talk_view self.old) ≡ Ok (talk_view self.new)) }
        ensures stop { IfErr result (IsStop
            (skipped (map (λ reply. reply.now) replies.now) line session reason.now
            (talk_view self.old))) }
        ensures within { OnOk result (self.new.printed ≤ length replies.now) }
    {
        let reply = replies.get(self.printed);
        if !is_skip(reply) {
            return Err(Stop::Refused(Refusal::BadReply {
                line: self.printed + 1,
                awaited: Awaited::Skip(line),
            }));
        }
        let words = skip_words(*self.text.allocator(), reason)?;
        self.tell(line, session, words.as_bytes())?;
        Ok(())
    }

    // A message gets the next reply.
    #[tactic(auto, unfolding(crate::specs::Talk::replied))]
    fn reply(&mut self, replies: &[&str], line: usize, session: u32) -> Result<(), Stop>
        requires { self.old.printed ≤ length replies.now }
        ensures ok { OnOk result
            (replied (map (λ reply. reply.now) replies.now) line session
            (talk_view self.old) ≡ Ok (talk_view self.new)) }
        ensures stop { IfErr result (IsStop
            (replied (map (λ reply. reply.now) replies.now) line session (talk_view self.old))) }
        ensures within { OnOk result (self.new.printed ≤ length replies.now) }
    {
        let alloc = *self.text.allocator();
        let Some(bytes) = reply_in(alloc, replies.get(self.printed))? else {
            return Err(Stop::Refused(Refusal::BadReply {
                line: self.printed + 1,
                awaited: Awaited::Reply(line),
            }));
        };
        let words = message_text(alloc, bytes.as_slice())?;
        self.tell(line, session, words.as_slice())?;
        Ok(())
    }

    // A session is opened.
    #[tactic(auto, unfolding(crate::specs::Talk::opened))]
    fn open(&mut self, replies: &[&str], line: usize, session: u32) -> Result<(), Stop>
        requires { self.old.printed ≤ length replies.now }
        ensures ok { OnOk result
            (opened (map (λ reply. reply.now) replies.now) line session
            (talk_view self.old) ≡ Ok (talk_view self.new)) }
        ensures stop { IfErr result (IsStop
            (opened (map (λ reply. reply.now) replies.now) line session (talk_view self.old))) }
        ensures within { OnOk result (self.new.printed ≤ length replies.now) }
    {
        self.ask(line, session, b"open")?;
        if self.is_open(session) {
            return self.skip(replies, line, session, "session open already");
        }
        self.sessions.push(session)?;
        Ok(())
    }

    // A session is closed.
    #[tactic(auto, unfolding(crate::specs::Talk::closed))]
    fn close(&mut self, replies: &[&str], line: usize, session: u32) -> Result<(), Stop>
        requires { self.old.printed ≤ length replies.now }
        ensures ok { OnOk result
            (closed (map (λ reply. reply.now) replies.now) line session
            (talk_view self.old) ≡ Ok (talk_view self.new)) }
        ensures stop { IfErr result (IsStop
            (closed (map (λ reply. reply.now) replies.now) line session (talk_view self.old))) }
        ensures within { OnOk result (self.new.printed ≤ length replies.now) }
    {
        self.ask(line, session, b"close")?;
        if !self.is_open(session) {
            return self.skip(replies, line, session, "no such session");
        }
        remove(session, &mut self.sessions);
        Ok(())
    }

    // A session gets a frame.
    #[tactic(auto, unfolding(crate::specs::Talk::sent))]
    fn send(
        &mut self,
        replies: &[&str],
        line: usize,
        session: u32,
        frame: &[u8],
    ) -> Result<(), Stop>
        requires { self.old.printed ≤ length replies.now }
        ensures ok { OnOk result
            (sent (map (λ reply. reply.now) replies.now) line session frame.now
            (talk_view self.old) ≡ Ok (talk_view self.new)) }
        ensures stop { IfErr result (IsStop
            (sent (map (λ reply. reply.now) replies.now) line session frame.now
            (talk_view self.old))) }
        ensures within { OnOk result (self.new.printed ≤ length replies.now) }
    {
        let alloc = *self.text.allocator();
        let words = message_text(alloc, frame)?;
        self.ask(line, session, words.as_slice())?;
        if !is_frame(frame) {
            let fault = frame_fault(alloc, frame)?;
            return self.skip(replies, line, session, fault.as_str());
        }
        if self.is_open(session) {
            return self.reply(replies, line, session);
        }
        self.skip(replies, line, session, "no such session")
    }

    // What a line of the script says is done.
    fn act(&mut self, replies: &[&str], line: usize, said: &Line<A>) -> Result<(), Stop>
        requires { self.old.printed ≤ length replies.now }
        ensures ok { OnOk result
            (done (map (λ reply. reply.now) replies.now) line (line_view said.now)
            (talk_view self.old) ≡ Ok (talk_view self.new)) }
        ensures stop { IfErr result (IsStop
            (done (map (λ reply. reply.now) replies.now) line (line_view said.now)
            (talk_view self.old))) }
        ensures within { OnOk result (self.new.printed ≤ length replies.now) }
    {
        match said {
            Line::Skipped => Ok(()),
            Line::Open(session) => self.open(replies, line, *session),
            Line::Message(session, _, frame) => {
                self.send(replies, line, *session, frame.as_slice())
            }
            Line::Close(session, _) => self.close(replies, line, *session),
        }
    }

    /// What a line of the script says is done, and the turn goes on.
    pub fn say(&mut self, replies: &[&str], line: usize, said: &Line<A>) -> Result<(), Stop>
        requires { self.old.printed ≤ length replies.now }
        ensures ok { OnOk result
            (with_said (map (λ reply. reply.now) replies.now) line (talk_view self.old)
            (line_view said.now) ≡ Ok (talk_view self.new)) }
        ensures stop { IfErr result (IsStop
            (with_said (map (λ reply. reply.now) replies.now) line (talk_view self.old)
            (line_view said.now))) }
        ensures within { OnOk result (self.new.printed ≤ length replies.now) }
    {
        self.turn = said.turn_behind(self.turn);
        self.act(replies, line, said)
    }
}
