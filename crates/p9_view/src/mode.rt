//! Modes, as `ls -l` of Plan 9 prints them.

ghost use Rattle.std.specs.Prelude.{◌≡◌, ◌++◌, OnOk};
ghost use Rattle.p9_view.specs.Mode.{kind_text, letter, mode_text, rights_text};

use p9_base::{Kind, Mode, NoMemory, Rights};
use std::alloc::Allocator;

/// Prints a mode: `d` for a directory or `a` for a file that is only appended to, `l` for one that is
/// open once at a time, and the rights of its owner, its group and others. Where an allocation fails,
/// a part of it may be there.
pub(crate) fn print_mode<A: Allocator + Copy>(
    mode: Mode,
    out: &mut Vec<u8, A>,
) -> Result<(), NoMemory>
    ensures { OnOk result (out.new.items ≡ out.old.items ++ mode_text mode) }
{
    print_kind(mode.kind, out)?;
    print_rights(mode.permissions.owner, out)?;
    print_rights(mode.permissions.group, out)?;
    print_rights(mode.permissions.others, out)
}

// The letters of a kind.
fn print_kind<A: Allocator + Copy>(kind: Kind, out: &mut Vec<u8, A>) -> Result<(), NoMemory>
    ensures { OnOk result (out.new.items ≡ out.old.items ++ kind_text kind) }
{
    match kind {
        Kind::Directory => out.extend_from_slice(b"d-")?,
        Kind::File(flags) => {
            out.push(letter(flags.append_only, b'a'))?;
            out.push(letter(flags.exclusive, b'l'))?;
        }
    }
    Ok(())
}

// The letters of the rights of one class of users.
fn print_rights<A: Allocator + Copy>(rights: Rights, out: &mut Vec<u8, A>) -> Result<(), NoMemory>
    ensures { OnOk result (out.new.items ≡ out.old.items ++ rights_text rights) }
{
    out.push(letter(rights.read, b'r'))?;
    out.push(letter(rights.write, b'w'))?;
    out.push(letter(rights.execute, b'x'))?;
    Ok(())
}

// The letter of a bit that is set; of another a dash.
fn letter(set: bool, letter: u8) -> u8
    ensures { result ≡ Rattle.p9_view.specs.Mode.letter set letter }
{
    if set { letter } else { b'-' }
}
