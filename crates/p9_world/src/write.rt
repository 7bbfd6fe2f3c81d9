//! The text of a line.

ghost use Rattle.std.specs.Prelude.{◌≡◌, ◌++◌, ◌∷◌, [], OnErr, OnOk};
ghost use Rattle.p9_world.specs.Text.{dir_words, file_words, group_words, hide_words};
ghost use Rattle.p9_world.specs.Text.{line_text, server_words, user_words, words_text};

use crate::line::{DirLine, FileLine, GroupLine, HideLine, WorldLine};
use crate::plain_user::PlainUser;
use crate::put::{put_bytes, put_file_mode, put_path, put_permissions, put_users, put_word};
use crate::server_name::ServerName;
use p9_base::NoMemory;
use std::alloc::Allocator;

/// Adds a line and its newline to a text. Where an allocation fails, which is the only error, the
/// text is unchanged. This takes memory for the line beside the text, until it returns.
pub fn write_line<A: Allocator + Copy>(
    alloc: A,
    line: &WorldLine<'_>,
    out: &mut Vec<u8, A>,
) -> Result<(), NoMemory>
    ensures ok { OnOk result (out.new.items ≡ out.old.items ++ line_text line.now) }
    ensures err { OnErr result (out.new.items ≡ out.old.items) }
{
    match line {
        WorldLine::Server(name) => write_server(alloc, *name, out),
        WorldLine::Dir(dir) => write_dir(alloc, dir, out),
        WorldLine::File(file) => write_file(alloc, file, out),
        WorldLine::User(name) => write_user(alloc, *name, out),
        WorldLine::Group(group) => write_group(alloc, group, out),
        WorldLine::Hide(hide) => write_hide(alloc, hide, out),
    }
}

/// Adds the line of a server, as [`write_line`] does.
pub fn write_server<A: Allocator + Copy>(
    alloc: A,
    name: ServerName,
    out: &mut Vec<u8, A>,
) -> Result<(), NoMemory>
    ensures ok { OnOk result (out.new.items ≡ out.old.items ++ words_text (server_words name)) }
    ensures err { OnErr result (out.new.items ≡ out.old.items) }
{
    let mut text = Vec::new(alloc);
    text.extend_from_slice(b"server")?;
    put_word(name.as_str(), &mut text)?;
    append(text, out)
}

/// Adds the line of a directory, as [`write_line`] does.
pub fn write_dir<A: Allocator + Copy>(
    alloc: A,
    dir: &DirLine<'_>,
    out: &mut Vec<u8, A>,
) -> Result<(), NoMemory>
    ensures ok { OnOk result (out.new.items ≡ out.old.items ++ words_text (dir_words dir.now)) }
    ensures err { OnErr result (out.new.items ≡ out.old.items) }
{
    let mut text = Vec::new(alloc);
    text.extend_from_slice(b"dir")?;
    put_path(dir.path, &mut text)?;
    put_permissions(dir.permissions, &mut text)?;
    put_users(&[dir.uid, dir.gid], &mut text)?;
    append(text, out)
}

/// Adds the line of a file, as [`write_line`] does.
pub fn write_file<A: Allocator + Copy>(
    alloc: A,
    file: &FileLine<'_>,
    out: &mut Vec<u8, A>,
) -> Result<(), NoMemory>
    ensures ok { OnOk result (out.new.items ≡ out.old.items ++ words_text (file_words file.now)) }
    ensures err { OnErr result (out.new.items ≡ out.old.items) }
{
    let mut text = Vec::new(alloc);
    text.extend_from_slice(b"file")?;
    put_path(file.path, &mut text)?;
    put_file_mode(file.flags, file.permissions, &mut text)?;
    put_users(&[file.uid, file.gid], &mut text)?;
    put_bytes(alloc, file.bytes, &mut text)?;
    append(text, out)
}

/// Adds the line of a listed user, as [`write_line`] does.
pub fn write_user<A: Allocator + Copy>(
    alloc: A,
    name: PlainUser,
    out: &mut Vec<u8, A>,
) -> Result<(), NoMemory>
    ensures ok { OnOk result (out.new.items ≡ out.old.items ++ words_text (user_words name)) }
    ensures err { OnErr result (out.new.items ≡ out.old.items) }
{
    let mut text = Vec::new(alloc);
    text.extend_from_slice(b"user")?;
    put_word(name.as_str(), &mut text)?;
    append(text, out)
}

/// Adds the line of a group, as [`write_line`] does.
pub fn write_group<A: Allocator + Copy>(
    alloc: A,
    group: &GroupLine<'_>,
    out: &mut Vec<u8, A>,
) -> Result<(), NoMemory>
    ensures ok { OnOk result (out.new.items ≡ out.old.items ++ words_text (group_words group.now)) }
    ensures err { OnErr result (out.new.items ≡ out.old.items) }
{
    let mut text = Vec::new(alloc);
    text.extend_from_slice(b"group")?;
    put_word(group.name.as_str(), &mut text)?;
    put_word(group.leader.as_str(), &mut text)?;
    put_users(group.members, &mut text)?;
    append(text, out)
}

/// Adds the line that hides a directory, as [`write_line`] does.
pub fn write_hide<A: Allocator + Copy>(
    alloc: A,
    hide: &HideLine<'_>,
    out: &mut Vec<u8, A>,
) -> Result<(), NoMemory>
    ensures ok { OnOk result (out.new.items ≡ out.old.items ++ words_text (hide_words hide.now)) }
    ensures err { OnErr result (out.new.items ≡ out.old.items) }
{
    let mut text = Vec::new(alloc);
    text.extend_from_slice(b"hide")?;
    put_word(hide.server.as_str(), &mut text)?;
    put_path(hide.path, &mut text)?;
    append(text, out)
}

// Adds the words of a line, and a newline.
fn append<A: Allocator>(mut words: Vec<u8, A>, out: &mut Vec<u8, A>) -> Result<(), NoMemory>
    ensures ok { OnOk result (out.new.items ≡ out.old.items ++ (words.items ++ 10 ∷ [])) }
    ensures err { OnErr result (out.new.items ≡ out.old.items) }
{
    words.push(b'\n')?;
    out.extend_from_slice(words.as_slice())?;
    Ok(())
}
