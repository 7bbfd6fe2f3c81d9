//! Messages in words.

ghost use Rattle.std.specs.Prelude.{◌≡◌, ◌++◌, OnOk, OnErr, map};
ghost use Rattle.std.specs.List.{flat_map};
ghost use Rattle.p9_wire.specs.Message.{t_view, r_view};
ghost use Rattle.p9_words.specs.Value.{value_view};
ghost use Rattle.p9_words.specs.Words.{field_words, line_words, t_words, r_words};

use crate::key::Key;
use crate::print::{print, print_key, print_value};
use crate::value::Value;
use crate::verb::Verb;
use p9_base::NoMemory;
use p9_wire::{RMsg, TMsg};
use std::alloc::Allocator;

/// Prints a request with its tag after what `out` has, in one line of words without a newline, as
/// fcall(2) does. docs/WORDS.md has the grammar. If an allocation fails, `out` is unchanged.
pub fn print_request<A: Allocator + Copy>(
    message: &TMsg<'_>,
    tag: u16,
    out: &mut Vec<u8, A>,
) -> Result<(), NoMemory>
    ensures ok { OnOk result (out.new.items ≡ out.old.items ++ t_words tag (t_view message.now)) }
    ensures err { OnErr result (out.new.items ≡ out.old.items) }
{
    let mut line = Vec::new(*out.allocator());
    put_request(message, tag, &mut line)?;
    out.extend_from_slice(line.as_slice())?;
    Ok(())
}

/// Prints a reply with its tag after what `out` has, as [`print_request`] does a request.
pub fn print_reply<A: Allocator + Copy>(
    message: &RMsg<'_>,
    tag: u16,
    out: &mut Vec<u8, A>,
) -> Result<(), NoMemory>
    ensures ok { OnOk result (out.new.items ≡ out.old.items ++ r_words tag (r_view message.now)) }
    ensures err { OnErr result (out.new.items ≡ out.old.items) }
{
    let mut line = Vec::new(*out.allocator());
    put_reply(message, tag, &mut line)?;
    out.extend_from_slice(line.as_slice())?;
    Ok(())
}

// A field after its word.
fn print_field<A: Allocator + Copy>(
    key: Key,
    value: &Value<'_>,
    out: &mut Vec<u8, A>,
) -> Result<(), NoMemory>
    ensures { OnOk result
        (out.new.items ≡ out.old.items ++ field_words (key, value_view value.now)) }
{
    print_key(key, out)?;
    print_value(value, out)
}

// One field after the other.
fn print_fields<A: Allocator + Copy>(
    fields: &[(Key, Value<'_>)],
    out: &mut Vec<u8, A>,
) -> Result<(), NoMemory>
    ensures { OnOk result (out.new.items ≡ out.old.items
        ++ flat_map field_words (map (λ f. (f.0, value_view f.1)) fields.now)) }
{
    for (key, value) in fields {
        print_field(*key, value, out)?;
    }
    Ok(())
}

// The line of a message: its name, its tag and its fields.
#[tactic(auto, unfolding(crate::specs::Words::line_words))]
fn print_line<A: Allocator + Copy>(
    verb: Verb,
    tag: u16,
    fields: &[(Key, Value<'_>)],
    out: &mut Vec<u8, A>,
) -> Result<(), NoMemory>
    ensures { OnOk result (out.new.items ≡ out.old.items
        ++ line_words verb tag (map (λ f. (f.0, value_view f.1)) fields.now)) }
{
    print(verb.text().as_bytes(), out)?;
    print_field(Key::Tag, &Value::U16(tag), out)?;
    print_fields(fields, out)
}

// The line of a request.
fn put_request<A: Allocator + Copy>(
    message: &TMsg<'_>,
    tag: u16,
    out: &mut Vec<u8, A>,
) -> Result<(), NoMemory>
    ensures { OnOk result (out.new.items ≡ out.old.items ++ t_words tag (t_view message.now)) }
{
    match message {
        TMsg::Version { msize, version } => print_line(
            Verb::Tversion,
            tag,
            &[
                (Key::Msize, Value::U32(*msize)),
                (Key::Version, Value::Text(version)),
            ],
            out,
        ),
        TMsg::Auth { afid, uname, aname } => print_line(
            Verb::Tauth,
            tag,
            &[
                (Key::Afid, Value::U32(*afid)),
                (Key::Uname, Value::Text(uname)),
                (Key::Aname, Value::Text(aname)),
            ],
            out,
        ),
        TMsg::Attach {
            fid,
            afid,
            uname,
            aname,
        } => print_line(
            Verb::Tattach,
            tag,
            &[
                (Key::Fid, Value::U32(*fid)),
                (Key::Afid, Value::U32(*afid)),
                (Key::Uname, Value::Text(uname)),
                (Key::Aname, Value::Text(aname)),
            ],
            out,
        ),
        TMsg::Flush { oldtag } => {
            print_line(
                Verb::Tflush,
                tag,
                &[(Key::Oldtag, Value::U16(*oldtag))],
                out,
            )
        }
        TMsg::Walk { fid, newfid, names } => print_line(
            Verb::Twalk,
            tag,
            &[
                (Key::Fid, Value::U32(*fid)),
                (Key::Newfid, Value::U32(*newfid)),
                (Key::Nwname, Value::Names(names)),
            ],
            out,
        ),
        TMsg::Open { fid, mode } => print_line(
            Verb::Topen,
            tag,
            &[(Key::Fid, Value::U32(*fid)), (Key::Mode, Value::U8(*mode))],
            out,
        ),
        TMsg::Create {
            fid,
            name,
            perm,
            mode,
        } => print_line(
            Verb::Tcreate,
            tag,
            &[
                (Key::Fid, Value::U32(*fid)),
                (Key::Name, Value::Text(name)),
                (Key::Perm, Value::Octal(*perm)),
                (Key::Mode, Value::U8(*mode)),
            ],
            out,
        ),
        TMsg::Read { fid, offset, count } => print_line(
            Verb::Tread,
            tag,
            &[
                (Key::Fid, Value::U32(*fid)),
                (Key::Offset, Value::U64(*offset)),
                (Key::Count, Value::U32(*count)),
            ],
            out,
        ),
        TMsg::Write { fid, offset, bytes } => print_line(
            Verb::Twrite,
            tag,
            &[
                (Key::Fid, Value::U32(*fid)),
                (Key::Offset, Value::U64(*offset)),
                (Key::Count, Value::Data(bytes)),
            ],
            out,
        ),
        TMsg::Clunk { fid } => {
            print_line(Verb::Tclunk, tag, &[(Key::Fid, Value::U32(*fid))], out)
        }
        TMsg::Remove { fid } => {
            print_line(Verb::Tremove, tag, &[(Key::Fid, Value::U32(*fid))], out)
        }
        TMsg::Stat { fid } => print_line(Verb::Tstat, tag, &[(Key::Fid, Value::U32(*fid))], out),
        TMsg::Wstat { fid, stat } => print_line(
            Verb::Twstat,
            tag,
            &[(Key::Fid, Value::U32(*fid)), (Key::Stat, Value::Stat(stat))],
            out,
        ),
    }
}

// The line of a reply.
fn put_reply<A: Allocator + Copy>(
    message: &RMsg<'_>,
    tag: u16,
    out: &mut Vec<u8, A>,
) -> Result<(), NoMemory>
    ensures { OnOk result (out.new.items ≡ out.old.items ++ r_words tag (r_view message.now)) }
{
    match message {
        RMsg::Version { msize, version } => print_line(
            Verb::Rversion,
            tag,
            &[
                (Key::Msize, Value::U32(*msize)),
                (Key::Version, Value::Text(version)),
            ],
            out,
        ),
        RMsg::Attach { qid } => {
            print_line(Verb::Rattach, tag, &[(Key::Qid, Value::Qid(*qid))], out)
        }
        RMsg::Error { ename } => {
            print_line(Verb::Rerror, tag, &[(Key::Ename, Value::Text(ename))], out)
        }
        RMsg::Flush => print_line(Verb::Rflush, tag, &[], out),
        RMsg::Walk { qids } => {
            print_line(Verb::Rwalk, tag, &[(Key::Nwqid, Value::Qids(qids))], out)
        }
        RMsg::Open { qid, iounit } => print_line(
            Verb::Ropen,
            tag,
            &[
                (Key::Qid, Value::Qid(*qid)),
                (Key::Iounit, Value::U32(*iounit)),
            ],
            out,
        ),
        RMsg::Create { qid, iounit } => print_line(
            Verb::Rcreate,
            tag,
            &[
                (Key::Qid, Value::Qid(*qid)),
                (Key::Iounit, Value::U32(*iounit)),
            ],
            out,
        ),
        RMsg::Read { bytes } => {
            print_line(Verb::Rread, tag, &[(Key::Count, Value::Data(bytes))], out)
        }
        RMsg::Write { count } => {
            print_line(Verb::Rwrite, tag, &[(Key::Count, Value::U32(*count))], out)
        }
        RMsg::Clunk => print_line(Verb::Rclunk, tag, &[], out),
        RMsg::Remove => print_line(Verb::Rremove, tag, &[], out),
        RMsg::Stat { stat } => {
            print_line(Verb::Rstat, tag, &[(Key::Stat, Value::Stat(stat))], out)
        }
        RMsg::Wstat => print_line(Verb::Rwstat, tag, &[], out),
    }
}
