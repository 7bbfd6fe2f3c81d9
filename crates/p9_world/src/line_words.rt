//! A line of a world's text, by its words.

ghost use Rattle.std.specs.Prelude.{◌≡◌, Err, IfErr, IfOk, map};
ghost use Rattle.p9_world.specs.LineWords.{meant};
ghost use Rattle.p9_world.specs.Read.{line_meaning, operated, operation_of};
ghost use Rattle.p9_world.specs.World.{World as WorldOf};

use crate::error::LineFault;

/// The words after `dir`, and after `file` up to the file's bytes.
#[derive(Clone, Copy)]
pub struct NodeWords<'a> {
    pub path: &'a str,
    pub mode: &'a str,
    pub uid: &'a str,
    pub gid: &'a str,
}

/// A line of a world's text, by its words. It says which word is what, and nothing of whether they
/// are good.
#[derive(Clone, Copy)]
pub enum LineWords<'a, 'b> {
    /// `server NAME`
    Server(&'a str),
    /// `dir PATH MODE UID GID`
    Dir(NodeWords<'a>),
    /// `file PATH MODE UID GID HEX`: the words up to the last, and the last.
    File(NodeWords<'a>, &'a str),
    /// `user NAME`
    User(&'a str),
    /// `group NAME LEADER [MEMBER ...]`: the name, the leader and the members.
    Group(&'a str, &'a str, &'b [&'a str]),
    /// `hide SERVER PATH`
    Hide(&'a str, &'a str),
    /// `set NAME VALUE`
    Set(&'a str, &'a str),
}

impl<'a, 'b> LineWords<'a, 'b> {
    /// The line of these words.
    ///
    /// # Errors
    ///
    /// [`LineFault::UnknownWord`] where the first word names no operation, and
    /// [`LineFault::WordCount`] where the operation takes another number of words.
    pub fn read(words: &'b [&'a str]) -> Result<LineWords<'a, 'b>, LineFault>
        ensures ok { IfOk result (λ line. (world : WorldOf)
            → line_meaning (map (λ w. w.now) words.now) world ≡ meant line world) }
        ensures err { IfErr result (λ fault. (world : WorldOf)
            → line_meaning (map (λ w. w.now) words.now) world ≡ Err fault) }
    {
        let [word, words @ ..] = words else {
            return Err(LineFault::UnknownWord);
        };
        match operation_of(word) {
            Some(operation) => LineWords::after(operation, words),
            None => Err(LineFault::UnknownWord),
        }
    }

    // The line of an operation on the words that follow.
    fn after(operation: Operation, words: &'b [&'a str]) -> Result<LineWords<'a, 'b>, LineFault>
        ensures ok { IfOk result (λ line. (world : WorldOf)
            → operated operation (map (λ w. w.now) words.now) world ≡ meant line world) }
        ensures err { IfErr result (λ fault. (world : WorldOf)
            → operated operation (map (λ w. w.now) words.now) world ≡ Err fault) }
    {
        match (operation, words) {
            (Operation::Server, [name]) => Ok(LineWords::Server(name)),
            (Operation::Dir, [path, mode, uid, gid]) => Ok(LineWords::Dir(NodeWords {
                path,
                mode,
                uid,
                gid,
            })),
            (Operation::File, [path, mode, uid, gid, hex]) => {
                let node = NodeWords {
                    path,
                    mode,
                    uid,
                    gid,
                };
                Ok(LineWords::File(node, hex))
            }
            (Operation::User, [name]) => Ok(LineWords::User(name)),
            (Operation::Group, [name, leader, members @ ..]) => {
                Ok(LineWords::Group(name, leader, members))
            }
            (Operation::Hide, [server, path]) => Ok(LineWords::Hide(server, path)),
            (Operation::Set, [name, value]) => Ok(LineWords::Set(name, value)),
            _ => Err(LineFault::WordCount),
        }
    }
}

/// What the first word of a line asks for.
#[derive(Clone, Copy)]
enum Operation {
    Server,
    Dir,
    File,
    User,
    Group,
    Hide,
    Set,
}

// The operation that a word names.
fn operation_of(word: &str) -> Option<Operation>
    ensures { result ≡ operation_of word.now }
{
    match word {
        "server" => Some(Operation::Server),
        "dir" => Some(Operation::Dir),
        "file" => Some(Operation::File),
        "user" => Some(Operation::User),
        "group" => Some(Operation::Group),
        "hide" => Some(Operation::Hide),
        "set" => Some(Operation::Set),
        _ => None,
    }
}
