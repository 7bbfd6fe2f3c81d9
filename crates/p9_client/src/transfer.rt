//! All bytes of a slice, written to a stream or read from it in as many calls as that takes.

ghost use Rattle.std.specs.Prelude.{◌≡◌, ◌≤◌, OnErr, OnOk, drop, length, take};
ghost use Rattle.std.specs.Io.KnownBytes.{Appends, Consumes, Keeps};
ghost use Rattle.p9_client.specs.Transfer.{AppendsFront};

use p9_wire::Stream;
use std::io;
use std::io::ErrorKind;

/// Writes all of the bytes. A call that was interrupted is made again. After an error the stream
/// has a front of the bytes.
pub fn send_all<S: Stream>(stream: &mut S, bytes: &[u8]) -> io::Result<()>
    ensures ok { OnOk result (Appends (S.contents stream.old) (S.contents stream.new) bytes.now) }
    ensures err { OnErr result (AppendsFront (S.contents stream.old) (S.contents stream.new)
        bytes.now) }
    ensures left { Keeps (S.remaining stream.old) (S.remaining stream.new) }
{
    let mut sent = 0;
    for _ in 0..u64::MAX {
        if sent == bytes.len() {
            return Ok(());
        }
        match stream.send(&bytes[sent..], false) {
            Ok(0) => return Err(io::Error::from(ErrorKind::WriteZero)),
            Ok(count) => sent += count,
            Err(error) if error.kind() == ErrorKind::Interrupted => {}
            Err(error) => return Err(error),
        }
    }
    Err(io::Error::from(ErrorKind::TimedOut))
}

/// Fills the part of the slice between two indices with bytes that are read. A call that was
/// interrupted is made again.
pub fn receive_between<S: Stream>(
    stream: &mut S,
    bytes: &mut [u8],
    start: usize,
    end: usize,
) -> io::Result<()>
    requires ordered { start ≤ end }
    requires within { end ≤ length bytes.old }
    ensures ok { OnOk result (Consumes (S.remaining stream.old) (S.remaining stream.new)
        (drop start (take end bytes.new))) }
    ensures kept { take start bytes.new ≡ take start bytes.old }
    ensures written { Keeps (S.contents stream.old) (S.contents stream.new) }
{
    let mut received = start;
    for _ in 0..u64::MAX {
        if received == end {
            return Ok(());
        }
        match stream.receive(&mut bytes[received..end]) {
            Ok(0) => return Err(io::Error::from(ErrorKind::UnexpectedEof)),
            Ok(count) => received += count,
            Err(error) if error.kind() == ErrorKind::Interrupted => {}
            Err(error) => return Err(error),
        }
    }
    Err(io::Error::from(ErrorKind::TimedOut))
}
