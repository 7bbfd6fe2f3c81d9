//! Judgements, as they are printed.

ghost use Rattle.std.specs.Prelude.{◌⊎◌, IfOk};
ghost use Rattle.p9_commands.specs.Judgement.{IsPrinted, SaysNo, SaysYes, verdict_status};
ghost use Rattle.p9_commands.specs.Judgement.{verdict_text, verified_status, verified_text};

use p9_base::NoMemory;
use p9_cert::{Gap, write_cert};
use p9_judge::{Verdict, judge};
use p9_prepared::status::{DONE, REFUSED};
use p9_prepared::{NameSpace, print_line};
use p9_tree::Tree;
use std::alloc::Allocator;

/// Judges a name space, and prints `yes` and a certificate, or `no` and a breach. Returns the exit
/// status. Where an allocation fails, a part of it may be printed.
pub(crate) fn check<T: Tree>(
    space: &NameSpace<T>,
    out: &mut Vec<u8, T::Alloc>,
) -> Result<u8, NoMemory>
    ensures { IfOk result (λ status. SaysYes space.now out.old.items out.new.items status
        ⊎ SaysNo space.now out.old.items out.new.items status) }
{
    let verdict = judge(*out.allocator(), &space.world, &space.table)?;
    print_verdict(&verdict, out)
}

// Prints `yes` and the certificate, or `no` and the breach, and returns the exit status. Where an
// allocation fails, a part of it may be printed.
fn print_verdict<A: Allocator + Copy>(
    verdict: &Verdict<A>,
    out: &mut Vec<u8, A>,
) -> Result<u8, NoMemory>
    ensures { IfOk result (IsPrinted (verdict_status verdict.now) (verdict_text verdict.now)
        out.old.items out.new.items) }
{
    match verdict {
        Verdict::Yes(certificate) => {
            let text = write_cert(*out.allocator(), certificate)?;
            print_line("yes", out)?;
            out.extend_from_slice(text.as_bytes())?;
            Ok(DONE)
        }
        Verdict::No(breach) => {
            let text = format!(in *out.allocator(); "{breach}")?;
            print_line("no", out)?;
            print_line(text.as_str(), out)?;
            Ok(REFUSED)
        }
    }
}

/// Prints the first gap of a certificate, or `ok` where it has none, and returns the exit status.
/// Where an allocation fails, a part of it may be printed.
pub(crate) fn print_verified<A: Allocator + Copy>(
    gap: Option<Gap>,
    out: &mut Vec<u8, A>,
) -> Result<u8, NoMemory>
    ensures { IfOk result (IsPrinted (verified_status gap) (verified_text gap) out.old.items
        out.new.items) }
{
    match gap {
        None => {
            print_line("ok", out)?;
            Ok(DONE)
        }
        Some(gap) => {
            let text = format!(in *out.allocator(); "{gap}")?;
            print_line(text.as_str(), out)?;
            Ok(REFUSED)
        }
    }
}
