//! How a failure is reported, and texts that are written as far as a writer takes them.

ghost use Rattle.std.specs.Prelude.{◌≡◌, ◌≤◌, IfOk, OnOk, length};
ghost use Rattle.std.specs.Io.KnownBytes.{Appends, WriteAppends};
ghost use Rattle.std.specs.IoError.{error_kind};
ghost use Rattle.p9_serve.specs.Run.{AppendsFront, failure_status, failure_text};

use p9_prepared::status::{INPUT_OR_OUTPUT_FAILED, OUT_OF_MEMORY};
use std::io;
use std::io::{ErrorKind, Write};

/// Reports on `err` that an allocation failed, or else that input or output did, and returns the
/// exit status: 3, or 4. `err` gets the text as far as it takes it. That it may fail changes nothing.
pub fn report_failure<E: Write>(error: &io::Error, err: &mut E) -> u8
    ensures status { result ≡ failure_status (error_kind error.now) }
    ensures text { AppendsFront (E.contents err.old) (E.contents err.new)
        (failure_text (error_kind error.now)) }
{
    let (status, text) = failure_of(error.kind());
    let _ = write_text(err, text);
    status
}

// The exit status of a failure, and the text that reports it.
fn failure_of(kind: ErrorKind) -> (u8, &'static [u8])
    ensures status { result.0 ≡ failure_status kind }
    ensures text { result.1.now ≡ failure_text kind }
{
    match kind {
        ErrorKind::OutOfMemory => (OUT_OF_MEMORY, b"out of memory\n"),
        _ => (INPUT_OR_OUTPUT_FAILED, b"input or output failed\n"),
    }
}

/// Writes a text. Where that fails, a front of it was written.
pub(crate) fn write_text<W: Write>(out: &mut W, text: &[u8]) -> io::Result<()>
    ensures ok { OnOk result (Appends (W.contents out.old) (W.contents out.new) text.now) }
    ensures front { AppendsFront (W.contents out.old) (W.contents out.new) text.now }
{
    let mut count = 0;
    for _ in 0..u64::MAX {
        if count == text.len() {
            return Ok(());
        }
        count += write_on(out, &text[count..])?;
    }
    Err(io::Error::from(ErrorKind::TimedOut))
}

// Writes once, and returns how many bytes went out: none where the call was interrupted.
fn write_on<W: Write>(out: &mut W, text: &[u8]) -> io::Result<usize>
    ensures within { IfOk result (λ count. count ≤ length text.now) }
    ensures written { WriteAppends (W.contents out.old) (W.contents out.new) result text.now }
{
    match out.write(text) {
        Ok(0) => Err(io::Error::from(ErrorKind::WriteZero)),
        Err(error) if error.kind() == ErrorKind::Interrupted => Ok(0),
        written => written,
    }
}
