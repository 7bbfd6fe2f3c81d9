//! The words of a line, each added to a text after a blank. Where an allocation fails, which is the
//! only error, a part of the word may be added.

ghost use Rattle.std.specs.Prelude.{◌≡◌, ◌++◌, ◌∷◌, [], OnOk, true};
ghost use Rattle.std.specs.List.{flat_map};
ghost use Rattle.hex.specs.Hex.{encode_lower};
ghost use Rattle.p9_clean.specs.Path.{path_of};
ghost use Rattle.p9_world.specs.Text.{bytes_word, file_mode_word, letter, permissions_word};
ghost use Rattle.p9_world.specs.Text.{spaced};

use crate::plain_name::PlainName;
use crate::plain_user::PlainUser;
use p9_base::{FileFlags, NoMemory, Permissions};
use std::alloc::Allocator;

// How many bytes are turned into digits at a time.
const PIECE: usize = 32_768;

/// Adds a word.
pub(crate) fn put_word<A: Allocator>(word: &str, text: &mut Vec<u8, A>) -> Result<(), NoMemory>
    ensures { OnOk result (text.new.items ≡ text.old.items ++ 32 ∷ word.now) }
{
    text.push(b' ')?;
    text.extend_from_slice(word.as_bytes())?;
    Ok(())
}

/// Adds the names of users or groups, each a word.
pub(crate) fn put_users<A: Allocator>(
    users: &[PlainUser],
    text: &mut Vec<u8, A>,
) -> Result<(), NoMemory>
    ensures { OnOk result (text.new.items ≡ text.old.items ++ spaced users.now) }
{
    for user in users {
        put_word(user.as_str(), text)?;
    }
    Ok(())
}

/// Adds the path of the names from a server's root on: a slash before each, or one slash where
/// there is none.
pub(crate) fn put_path<A: Allocator>(
    names: &[PlainName],
    text: &mut Vec<u8, A>,
) -> Result<(), NoMemory>
    ensures { OnOk result (text.new.items ≡ text.old.items ++ 32 ∷ path_of true names.now) }
{
    text.push(b' ')?;
    if names.is_empty() {
        text.push(b'/')?;
        return Ok(());
    }
    put_names(names, text)
}

// Adds a slash and a name for each name.
fn put_names<A: Allocator>(names: &[PlainName], text: &mut Vec<u8, A>) -> Result<(), NoMemory>
    ensures { OnOk result (text.new.items
        ≡ text.old.items ++ flat_map (λ name. 47 ∷ name) names.now) }
{
    for name in names {
        text.push(b'/')?;
        text.extend_from_slice(name.as_str().as_bytes())?;
    }
    Ok(())
}

/// Adds the mode of a directory: three octal digits.
pub(crate) fn put_permissions<A: Allocator>(
    permissions: Permissions,
    text: &mut Vec<u8, A>,
) -> Result<(), NoMemory>
    ensures { OnOk result (text.new.items ≡ text.old.items ++ 32 ∷ permissions_word permissions) }
{
    text.push(b' ')?;
    put_digits(permissions, text)
}

/// Adds the mode of a file: a letter for each flag that is set, and three octal digits.
pub(crate) fn put_file_mode<A: Allocator>(
    flags: FileFlags,
    permissions: Permissions,
    text: &mut Vec<u8, A>,
) -> Result<(), NoMemory>
    ensures { OnOk result (text.new.items
        ≡ text.old.items ++ 32 ∷ file_mode_word flags permissions) }
{
    text.push(b' ')?;
    put_letter(flags.append_only, b'a', text)?;
    put_letter(flags.exclusive, b'l', text)?;
    put_letter(flags.temporary, b't', text)?;
    put_digits(permissions, text)
}

// Adds a letter, if its flag is set.
fn put_letter<A: Allocator>(flag: bool, code: u8, text: &mut Vec<u8, A>) -> Result<(), NoMemory>
    ensures { OnOk result (text.new.items ≡ text.old.items ++ letter flag code) }
{
    if flag {
        text.push(code)?;
    }
    Ok(())
}

// Adds three octal digits: the rights of the owner, of the group and of the others.
fn put_digits<A: Allocator>(permissions: Permissions, text: &mut Vec<u8, A>) -> Result<(), NoMemory>
    ensures { OnOk result (text.new.items ≡ text.old.items ++ permissions_word permissions) }
{
    let bits = permissions.bits();
    let digits = [
        b'0' + (bits / 0o100) as u8,
        b'0' + (bits / 0o10 % 0o10) as u8,
        b'0' + (bits % 0o10) as u8,
    ];
    text.extend_from_slice(&digits)?;
    Ok(())
}

/// Adds the bytes of a file: two hexadecimal digits for each, or `-` where there is none. This
/// takes memory for some digits, until it returns.
pub(crate) fn put_bytes<A: Allocator + Copy>(
    alloc: A,
    bytes: &[u8],
    text: &mut Vec<u8, A>,
) -> Result<(), NoMemory>
    ensures { OnOk result (text.new.items ≡ text.old.items ++ 32 ∷ bytes_word bytes.now) }
{
    text.push(b' ')?;
    if bytes.is_empty() {
        text.push(b'-')?;
        return Ok(());
    }
    put_hex(alloc, bytes, text)
}

// Adds two digits for each byte, piece by piece.
fn put_hex<A: Allocator + Copy>(
    alloc: A,
    bytes: &[u8],
    text: &mut Vec<u8, A>,
) -> Result<(), NoMemory>
    ensures { OnOk result (text.new.items ≡ text.old.items ++ encode_lower bytes.now) }
{
    let mut rest = bytes;
    while !rest.is_empty() {
        let (piece, others) = rest.split_at(rest.len().min(PIECE));
        text.extend_from_slice(hex::encode(alloc, piece)?.as_bytes())?;
        rest = others;
    }
    Ok(())
}
