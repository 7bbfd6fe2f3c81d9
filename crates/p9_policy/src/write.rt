//! The text of a certificate.

ghost use Rattle.std.specs.Prelude.{◌≡◌, ◌++◌, IfOk, OnOk, string_bytes};
ghost use Rattle.p9_policy.specs.Text.{certificate_text, row_text};

use crate::certificate::Certificate;
use p9_base::{NoMemory, NodeRef};
use std::alloc::Allocator;

/// The text of a certificate: `cert 1`, and a line `dir SERVER NUMBER` for each row. What is
/// written reads back as the same certificate. The only error is that an allocation fails.
pub fn write_cert<A: Allocator, B: Allocator + Copy>(
    alloc: B,
    certificate: &Certificate<A>,
) -> Result<String<B>, NoMemory>
    ensures { IfOk result (λ text. string_bytes text ≡ certificate_text certificate.now) }
{
    let mut text = String::from_str(alloc, "cert 1\n")?;
    for row in certificate.rows() {
        write_row(*row, &mut text)?;
    }
    Ok(text)
}

// Adds the line of a row.
fn write_row<B: Allocator>(row: NodeRef, text: &mut String<B>) -> Result<(), NoMemory>
    ensures { OnOk result (string_bytes text.new ≡ string_bytes text.old ++ row_text row) }
{
    writeln!(text, "dir {} {}", row.server, row.number)?;
    Ok(())
}
