//! The flags of a mount or a bind.

ghost use Rattle.std.specs.Prelude.{◌≡◌, ◌≤◌, length, map};
ghost use Rattle.std.specs.List.{list_all, list_any, prefix_len};
ghost use Rattle.p9_nsline.specs.Flags.{contains, flags_of, is_flag, is_flag_letter, is_good};

use p9_space::Order;

/// What the flags of a mount or a bind say: where the new members go, and whether files may be
/// created in the first of them.
#[derive(Clone, Copy)]
pub struct Flags {
    /// Where the new members go.
    pub order: Order,
    /// Whether files may be created in the first of them.
    pub create: bool,
}

/// How many of the words, from the first on, are flags.
pub(crate) fn flag_count(words: &[&str]) -> usize
    ensures count { result ≡ prefix_len is_flag (map (λ w. w.now) words.now) }
    ensures within { result ≤ length words.now }
{
    words.iter().take_while(|word| is_flag(word)).count()
}

// Whether the word is a flag, if it is before all that are none.
fn is_flag(word: &str) -> bool
    ensures { result ≡ is_flag word.now }
{
    word.starts_with('-')
}

/// What the flags say. A flag without a letter or with any but `abcC` is bad, and so is `a`
/// together with `b`. `b` puts the new members before those that are there, `a` puts them after
/// these, `c` permits creation, and `C` has no effect.
pub(crate) fn read_flags(flags: &[&str]) -> Option<Flags>
    ensures { result ≡ flags_of (map (λ w. w.now) flags.now) }
{
    let before = has(flags, b'b');
    let after = has(flags, b'a');
    if !are_good(flags) || before && after {
        return None;
    }
    let order = if before {
        Order::Before
    } else if after {
        Order::After
    } else {
        Order::Replace
    };
    Some(Flags {
        order,
        create: has(flags, b'c'),
    })
}

fn are_good(flags: &[&str]) -> bool
    ensures { result ≡ list_all is_good (map (λ w. w.now) flags.now) }
{
    flags.iter().all(|flag| is_good(flag))
}

// Whether the flag has letters, and no other than `abcC`.
fn is_good(flag: &str) -> bool
    ensures { result ≡ is_good flag.now }
{
    match flag.as_bytes() {
        [_, letters @ ..] => !letters.is_empty() && are_letters(letters),
        [] => false,
    }
}

fn are_letters(letters: &[u8]) -> bool
    ensures { result ≡ list_all is_flag_letter letters.now }
{
    letters.iter().all(|b| is_letter(*b))
}

fn is_letter(b: u8) -> bool
    ensures { result ≡ is_flag_letter b }
{
    b == b'a' || b == b'b' || b == b'c' || b == b'C'
}

// Whether one of the flags has the letter.
fn has(flags: &[&str], letter: u8) -> bool
    ensures { result ≡ list_any (contains letter) (map (λ w. w.now) flags.now) }
{
    flags.iter().any(|flag| contains(flag, letter))
}

fn contains(flag: &str, letter: u8) -> bool
    ensures { result ≡ contains letter flag.now }
{
    flag.as_bytes().contains(&letter)
}
