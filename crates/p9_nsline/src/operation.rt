//! The operations of namespace files, as namespace(6).

ghost use Rattle.std.specs.Prelude.{◌≡◌, map, option_map};
ghost use Rattle.p9_nsline.specs.Operation.{arguments_of, bind_form, bind_of, cd_of, clear_of};
ghost use Rattle.p9_nsline.specs.Operation.{form_view, include_of, mount_form, mount_of};
ghost use Rattle.p9_nsline.specs.Operation.{operation_of, unmount_of, verb_of, with_flags};
ghost use Rattle.p9_nsline.specs.declared.operation.Operation.TheVariants.{Bind, Mount};

use crate::error::BadForm;
use crate::flags::{Flags, flag_count, read_flags};

/// An operation, with its words as they are in the line: variables aren't put in.
#[derive(Clone, Copy)]
pub enum Operation<W> {
    /// Mounts the root of a server.
    Mount {
        flags: Flags,
        server: W,
        old: W,
        spec: Option<W>,
    },
    /// Binds a file or directory.
    Bind {
        flags: Flags,
        new: W,
        old: W,
    },
    /// Changes the current directory.
    Cd {
        dir: W,
    },
    /// Takes away what is mounted, or one member of it.
    Unmount {
        new: Option<W>,
        old: W,
    },
    /// Takes away all mounts and binds.
    Clear,
    /// Runs the lines of a file: `. path`.
    Include {
        path: W,
    },
    /// Mounts a tree of another machine. It isn't offered.
    Import,
}

/// The first word of a line, which says what the operation is.
#[derive(Clone, Copy)]
pub(crate) enum Verb {
    Mount,
    Bind,
    Cd,
    Unmount,
    Clear,
    Include,
    Import,
}

/// The operation of a line of these words. A first word that names none is
/// [`BadForm::UnknownWord`]; another number of words after the flags than the operation takes is
/// [`BadForm::WordCount`]; and bad flags are [`BadForm::BadFlag`].
pub fn read_operation<'a>(words: &[&'a str]) -> Result<Operation<&'a str>, BadForm>
    ensures { form_view result ≡ operation_of (map (λ w. w.now) words.now) }
{
    let [first, words @ ..] = words else {
        return Err(BadForm::UnknownWord);
    };
    let verb = read_verb(first).ok_or(BadForm::UnknownWord)?;
    arguments(verb, words)
}

fn read_verb(word: &str) -> Option<Verb>
    ensures { result ≡ verb_of word.now }
{
    match word {
        "mount" => Some(Verb::Mount),
        "bind" => Some(Verb::Bind),
        "cd" => Some(Verb::Cd),
        "unmount" => Some(Verb::Unmount),
        "clear" => Some(Verb::Clear),
        "." => Some(Verb::Include),
        "import" => Some(Verb::Import),
        _ => None,
    }
}

// The operation of the verb, with the words after it.
fn arguments<'a>(verb: Verb, words: &[&'a str]) -> Result<Operation<&'a str>, BadForm>
    ensures { form_view result ≡ arguments_of verb (map (λ w. w.now) words.now) }
{
    match verb {
        Verb::Mount => mount(words),
        Verb::Bind => bind(words),
        Verb::Cd => cd(words),
        Verb::Unmount => unmount(words),
        Verb::Clear => clear(words),
        Verb::Include => include(words),
        Verb::Import => Ok(Operation::Import),
    }
}

fn mount<'a>(words: &[&'a str]) -> Result<Operation<&'a str>, BadForm>
    ensures { form_view result ≡ mount_of (map (λ w. w.now) words.now) }
{
    let count = flag_count(words);
    mount_form(read_flags(&words[..count]), &words[count..])
}

// A mount of these words after the flags, which are counted before the flags are looked at.
fn mount_form<'a>(flags: Option<Flags>, words: &[&'a str]) -> Result<Operation<&'a str>, BadForm>
    ensures { form_view result ≡ mount_form flags (map (λ w. w.now) words.now) }
{
    match words {
        [server, old] => mounting(flags, server, old, None),
        [server, old, spec] => mounting(flags, server, old, Some(*spec)),
        _ => Err(BadForm::WordCount),
    }
}

fn mounting<'a>(
    flags: Option<Flags>,
    server: &'a str,
    old: &'a str,
    spec: Option<&'a str>,
) -> Result<Operation<&'a str>, BadForm>
    ensures { form_view result ≡ with_flags flags (λ flags. Mount flags server.now old.now
        (option_map (λ w. w.now) spec.entry)) }
{
    let flags = flags.ok_or(BadForm::BadFlag)?;
    Ok(Operation::Mount {
        flags,
        server,
        old,
        spec,
    })
}

fn bind<'a>(words: &[&'a str]) -> Result<Operation<&'a str>, BadForm>
    ensures { form_view result ≡ bind_of (map (λ w. w.now) words.now) }
{
    let count = flag_count(words);
    bind_form(read_flags(&words[..count]), &words[count..])
}

// A bind of these words after the flags, which are counted before the flags are looked at.
fn bind_form<'a>(flags: Option<Flags>, words: &[&'a str]) -> Result<Operation<&'a str>, BadForm>
    ensures { form_view result ≡ bind_form flags (map (λ w. w.now) words.now) }
{
    match words {
        [new, old] => binding(flags, new, old),
        _ => Err(BadForm::WordCount),
    }
}

fn binding<'a>(
    flags: Option<Flags>,
    new: &'a str,
    old: &'a str,
) -> Result<Operation<&'a str>, BadForm>
    ensures { form_view result ≡ with_flags flags (λ flags. Bind flags new.now old.now) }
{
    let flags = flags.ok_or(BadForm::BadFlag)?;
    Ok(Operation::Bind { flags, new, old })
}

fn cd<'a>(words: &[&'a str]) -> Result<Operation<&'a str>, BadForm>
    ensures { form_view result ≡ cd_of (map (λ w. w.now) words.now) }
{
    match words {
        [dir] => Ok(Operation::Cd { dir: *dir }),
        _ => Err(BadForm::WordCount),
    }
}

fn unmount<'a>(words: &[&'a str]) -> Result<Operation<&'a str>, BadForm>
    ensures { form_view result ≡ unmount_of (map (λ w. w.now) words.now) }
{
    match words {
        [old] => Ok(Operation::Unmount {
            new: None,
            old: *old,
        }),
        [new, old] => Ok(Operation::Unmount {
            new: Some(*new),
            old: *old,
        }),
        _ => Err(BadForm::WordCount),
    }
}

fn clear<'a>(words: &[&'a str]) -> Result<Operation<&'a str>, BadForm>
    ensures { form_view result ≡ clear_of (map (λ w. w.now) words.now) }
{
    match words {
        [] => Ok(Operation::Clear),
        _ => Err(BadForm::WordCount),
    }
}

fn include<'a>(words: &[&'a str]) -> Result<Operation<&'a str>, BadForm>
    ensures { form_view result ≡ include_of (map (λ w. w.now) words.now) }
{
    match words {
        [path] => Ok(Operation::Include { path: *path }),
        _ => Err(BadForm::WordCount),
    }
}
