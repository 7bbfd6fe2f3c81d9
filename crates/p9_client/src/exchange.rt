//! One request and the frame of its reply, over a stream.

ghost use Rattle.std.specs.Prelude.{◌≡◌, ◌≤◌, ◌+◌, IfOk, IfSome, IfNone, OnOk, OnErr, length, take};
ghost use Rattle.std.specs.Io.KnownBytes.{Appends, Consumes, Keeps};
ghost use Rattle.p9_wire.specs.Message.{t_view};
ghost use Rattle.p9_wire.specs.Spelling.{t_len, t_spelling, TFits};
ghost use Rattle.p9_client.specs.Frame.{HasSize, IsBadSize};
ghost use Rattle.p9_client.specs.Transfer.{AppendsFront};

use crate::transfer::{receive_between, send_all};
use byteorder::{ByteOrder, LittleEndian};
use p9_wire::{HEADER, Stream, TMsg, write_t};
use std::io;

/// Writes a request with its tag. The front of the buffer has its bytes then. After an error the
/// stream has a front of the request.
pub fn send_request<S: Stream>(
    stream: &mut S,
    tag: u16,
    request: &TMsg<'_>,
    frame: &mut [u8],
) -> io::Result<()>
    requires fits { TFits (t_view request.now) }
    requires room { 7 + t_len (t_view request.now) ≤ length frame.old }
    ensures ok { OnOk result (Appends (S.contents stream.old) (S.contents stream.new)
        (t_spelling tag (t_view request.now))) }
    ensures err { OnErr result (AppendsFront (S.contents stream.old) (S.contents stream.new)
        (t_spelling tag (t_view request.now))) }
    ensures left { Keeps (S.remaining stream.old) (S.remaining stream.new) }
{
    let size = write_t(request, tag, frame);
    send_all(stream, &frame[..size])
}

/// Reads the frame of a reply into the front of the buffer. Returns its size, or `None` where that
/// is below 7 or above `most`: then the front of the buffer has the 7 bytes that were read.
pub fn receive_frame<S: Stream>(
    stream: &mut S,
    most: usize,
    frame: &mut [u8],
) -> io::Result<Option<usize>>
    requires header { 7 ≤ most }
    requires room { most ≤ length frame.old }
    ensures whole { IfOk result (λ found. IfSome found (λ size. (size ≤ most)
        × HasSize (take size frame.new)
        × Consumes (S.remaining stream.old) (S.remaining stream.new) (take size frame.new))) }
    ensures bad { IfOk result (λ found. IfNone found (IsBadSize most (take 7 frame.new)
        × Consumes (S.remaining stream.old) (S.remaining stream.new) (take 7 frame.new))) }
    ensures written { Keeps (S.contents stream.old) (S.contents stream.new) }
{
    receive_between(stream, frame, 0, HEADER)?;
    let size = LittleEndian::read_u32(frame) as usize;
    if size < HEADER || size > most {
        return Ok(None);
    }
    receive_between(stream, frame, HEADER, size)?;
    Ok(Some(size))
}
