//! Why an input is refused, and how that is reported.

ghost use Rattle.std.specs.Prelude.{◌≡◌, IfOk, OnOk};
ghost use Rattle.std.specs.String.{string_bytes};
ghost use Rattle.p9_prepared.specs.Refusal.{ReportsStop, at_line, refusal_text};

use crate::line::print_line;
use p9_base::NoMemory;
use p9_cert::Gap;
use p9_nsfile::BadForm;
use p9_world::LineFault;
use std::alloc::{AllocError, Allocator};

/// Why an input is refused. Lines count from 1.
#[derive(Clone, Copy, Debug, PartialEq, Eq)]
pub enum Refusal {
    /// The input is no text: `input: not UTF-8`.
    NotUtf8,
    /// The input is no bundle, and this is its first bad line, of the whole input:
    /// `bundle:L: bad section`.
    BadSection { line: u64 },
    /// A line of the world section, or 0 for the whole world: `world:L: TEXT`.
    BadWorld { line: u64, kind: LineFault },
    /// A line of the namespace section: `ns:L: TEXT`.
    BadOperation { line: u64, kind: BadForm },
    /// A line of the certificate section: `cert:L: bad line`.
    BadCertificate { line: u64 },
    /// A certificate is needed, and there is none: `cert: missing`.
    NoCertificate,
    /// A line of the script section: `script:L: bad line`.
    BadEvent { line: u64 },
    /// The certificate is not closed, so there is no guard, and this is its first gap: `cert: GAP`.
    Unverified(Gap),
}

/// Why an input is not used: it is refused, or an allocation failed.
pub type Stop = p9_base::Stop<Refusal>;

impl Refusal {
    /// The line that reports it, without a newline.
    pub fn text<A: Allocator + Copy>(self, alloc: A) -> Result<String<A>, AllocError>
        ensures { IfOk result (λ text. string_bytes text ≡ refusal_text self) }
    {
        match self {
            Refusal::NotUtf8 => String::from_str(alloc, "input: not UTF-8"),
            Refusal::BadSection { line } => at_line(alloc, "bundle", line, "bad section"),
            Refusal::BadWorld { line, kind } => at_line(alloc, "world", line, kind.text()),
            Refusal::BadOperation { line, kind } => at_line(alloc, "ns", line, kind.text()),
            Refusal::BadCertificate { line } => at_line(alloc, "cert", line, "bad line"),
            Refusal::NoCertificate => String::from_str(alloc, "cert: missing"),
            Refusal::BadEvent { line } => at_line(alloc, "script", line, "bad line"),
            Refusal::Unverified(gap) => format!(in alloc; "cert: {gap}"),
        }
    }
}

/// Prints the line of a refusal. Where an allocation failed or fails, it returns [`NoMemory`], and a
/// part of the line may be there.
pub fn print_stop<A: Allocator + Copy>(stop: Stop, err: &mut Vec<u8, A>) -> Result<(), NoMemory>
    ensures { OnOk result (ReportsStop stop err.old.items err.new.items) }
{
    match stop {
        Stop::Refused(refusal) => {
            let text = refusal.text(*err.allocator())?;
            print_line(text.as_str(), err)
        }
        Stop::NoMemory => Err(NoMemory),
    }
}

/// What is reported of a line of a section.
pub(crate) fn at_line<A: Allocator + Copy>(
    alloc: A,
    section: &str,
    line: u64,
    text: &str,
) -> Result<String<A>, AllocError>
    ensures { IfOk result (λ report.
        string_bytes report ≡ at_line section.now line text.now) }
{
    let number = format!(in alloc; ":{line}: ")?;
    let mut report = String::from_str(alloc, section)?;
    report.push_str(number.as_str())?;
    report.push_str(text)?;
    Ok(report)
}
