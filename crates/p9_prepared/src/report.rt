//! What failed in the making of a name space, as it is reported.

ghost use Rattle.std.specs.Prelude.{◌≡◌, ◌++◌, OnOk};
ghost use Rattle.p9_prepared.specs.Report.{reports_text};

use crate::line::print_line;
use crate::refusal::at_line;
use p9_base::NoMemory;
use p9_nsfile::OpFault;
use std::alloc::Allocator;

/// Prints reports, a line each: the line of the namespace section, and why its operation did nothing.
/// Where an allocation fails, some of them may be there.
pub fn print_reports<A: Allocator + Copy>(
    reports: &[(u64, OpFault)],
    err: &mut Vec<u8, A>,
) -> Result<(), NoMemory>
    ensures { OnOk result (err.new.items ≡ err.old.items ++ reports_text reports.now) }
{
    for (line, fault) in reports {
        let text = at_line(*err.allocator(), "ns", *line, fault.text())?;
        print_line(text.as_str(), err)?;
    }
    Ok(())
}
