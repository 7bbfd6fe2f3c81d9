//! The exchange of a script in words and of what was printed for it.

ghost use Rattle.std.specs.Prelude.{◌≡◌, ◌≤◌, IfErr, OnOk, Ok, length, map};
ghost use Rattle.p9_exchange.specs.Exchange.{talked, all_printed, exchange_of_lines, exchange_in};
ghost use Rattle.p9_exchange.specs.Exchange.{exchange_of};
ghost use Rattle.p9_exchange.specs.Refusal.{IsStop, Makes};
ghost use Rattle.p9_exchange.specs.Talk.{talk_view};

use crate::input::{REPLIES, SCRIPT, lines_before, split_behind, text_of};
use crate::refusal::{Awaited, Refusal, Stop};
use crate::script::read_line;
use crate::talk::Talk;
use p9_base::whole_lines;
use std::alloc::Allocator;

// The exchange goes on with the line of the script of this number.
fn talk_of<A: Allocator + Copy>(
    alloc: A,
    replies: &[&str],
    number: usize,
    line: &str,
    talk: &mut Talk<A>,
) -> Result<(), Stop>
    requires { talk.old.printed ≤ length replies.now }
    ensures ok { OnOk result
        (talked (map (λ reply. reply.now) replies.now) (talk_view talk.old) (number, line.now)
        ≡ Ok (talk_view talk.new)) }
    ensures stop { IfErr result (IsStop
        (talked (map (λ reply. reply.now) replies.now) (talk_view talk.old)
        (number, line.now))) }
    ensures within { OnOk result (talk.new.printed ≤ length replies.now) }
{
    let said = read_line(alloc, number, talk.turn, line)?;
    talk.say(replies, number, &said)
}

// The text, where each line of the replies is shown.
fn all_printed<A: Allocator + Copy>(replies: &[&str], talk: Talk<A>) -> Result<Vec<u8, A>, Stop>
    requires { talk.printed ≤ length replies.now }
    ensures { Makes (λ text. text.items) result
        (all_printed (map (λ reply. reply.now) replies.now) (talk_view talk)) }
{
    if talk.printed == replies.len() {
        let Talk { text, .. } = talk;
        return Ok(text);
    }
    Err(Stop::Refused(Refusal::BadReply {
        line: talk.printed + 1,
        awaited: Awaited::End,
    }))
}

// The exchange of the lines of a script and of the replies.
#[tactic(auto, unfolding(crate::specs::Exchange::exchange_of_lines))]
fn exchange_of_lines<A: Allocator + Copy>(
    alloc: A,
    replies: &[&str],
    script: &[&str],
) -> Result<Vec<u8, A>, Stop>
    ensures { Makes (λ text. text.items) result
        (exchange_of_lines (map (λ reply. reply.now) replies.now)
        (map (λ line. line.now) script.now)) }
{
    let mut talk = Talk::new(alloc);
    for (position, line) in script.iter().enumerate() {
        talk_of(alloc, replies, position + 1, line, &mut talk)?;
    }
    all_printed(replies, talk)
}

// The exchange of the lines of an input: the script, and the replies after their head.
fn exchange_in<A: Allocator + Copy>(alloc: A, lines: &[&str]) -> Result<Vec<u8, A>, Stop>
    ensures { Makes (λ text. text.items) result
        (exchange_in (map (λ line. line.now) lines.now)) }
{
    let n = lines_before(REPLIES, lines);
    if n == lines.len() {
        return Err(Stop::Refused(Refusal::NoReplies));
    }
    let (before, _) = lines.split_at(n);
    let (_, replies) = split_behind(REPLIES, lines);
    let (_, script) = split_behind(SCRIPT, before);
    exchange_of_lines(alloc, replies, script)
}

/// The exchange of a script and of what `p9 play` printed for it, a line for each request, reply
/// and `skip`.
///
/// The input is what [`crate::write_script`] takes, a line `%% replies`, and what was printed for
/// its script. `L <-S- WORDS` is what session S was asked by line L of the script: `open`, `close`
/// or a message. `L -S-> WORDS` is what came of it: a reply, or `skip:` and the reason. A frame
/// that is no message is shown in hexadecimal digits.
///
/// # Errors
///
/// The first that applies is returned.
///
/// 1. [`Refusal::NotUtf8`]: the input is no text.
/// 2. [`Refusal::NoReplies`]: the input has no line `%% replies`.
/// 3. [`Refusal::BadLine`], the first bad line of the script, or [`Refusal::BadReply`], the first line
///    of the replies that the script does not call for, whichever of the two comes first.
/// 4. [`Stop::NoMemory`]: an allocation failed.
#[tactic(auto, unfolding(crate::specs::Exchange::exchange_of))]
pub fn show_exchange<A: Allocator + Copy>(alloc: A, input: &[u8]) -> Result<Vec<u8, A>, Stop>
    ensures { Makes (λ text. text.items) result (exchange_of input.now) }
{
    let Some(text) = text_of(input) else {
        return Err(Stop::Refused(Refusal::NotUtf8));
    };
    let lines = whole_lines(alloc, text)?;
    exchange_in(alloc, lines.as_slice())
}
