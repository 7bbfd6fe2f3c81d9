//! The modes that words write.

ghost use Rattle.std.specs.Prelude.{◌≡◌};
ghost use Rattle.p9_world.specs.Mode.{begins_with, behind, file_mode_in, is_octal_digit};
ghost use Rattle.p9_world.specs.Mode.{permissions_in};

use p9_base::{FileFlags, Kind, Mode, Permissions};

/// The permissions that three octal digits write: the owner's, the group's, the others'.
pub(crate) fn permissions_in(word: &[u8]) -> Option<Permissions>
    ensures { result ≡ permissions_in word.now }
{
    let [owner, group, others] = word else {
        return None;
    };
    if !is_octal_digit(*owner) || !is_octal_digit(*group) || !is_octal_digit(*others) {
        return None;
    }
    let bits = 0o100 * u32::from(*owner - b'0')
        + 0o10 * u32::from(*group - b'0')
        + u32::from(*others - b'0');
    Some(Permissions::from_bits(bits))
}

// Whether the byte is `0` to `7`.
fn is_octal_digit(byte: u8) -> bool
    ensures { result ≡ is_octal_digit byte }
{
    b'0' <= byte && byte <= b'7'
}

/// The mode of a file: the letters `a` for append-only, `l` for exclusive use and `t` for
/// temporary, in this order and each once or not at all, and then three octal digits.
pub(crate) fn file_mode_in(word: &[u8]) -> Option<Mode>
    ensures { result ≡ file_mode_in word.now }
{
    let (append_only, word) = take_letter(b'a', word);
    let (exclusive, word) = take_letter(b'l', word);
    let (temporary, word) = take_letter(b't', word);
    let permissions = permissions_in(word)?;
    Some(Mode {
        kind: Kind::File(FileFlags {
            append_only,
            exclusive,
            temporary,
        }),
        permissions,
    })
}

// Whether the word begins with the letter, and what follows it.
fn take_letter(letter: u8, word: &[u8]) -> (bool, &[u8])
    ensures test { result.0 ≡ begins_with letter word.now }
    ensures rest { result.1.now ≡ behind letter word.now }
{
    match word {
        [first, rest @ ..] if *first == letter => (true, rest),
        _ => (false, word),
    }
}
