//! Names that differ from what a restricted stream puts in their place.

ghost use Rattle.std.specs.Prelude.{◌≡◌, ◌==◌, not};
ghost use Rattle.std.specs.List.{list_any};
ghost use Rattle.p9_restricted.specs.Laws.{has_no_blank_name, is_visible};

use p9_base::User;

/// Whether none of these users has a name of blanks alone.
///
/// Ask it of the users who are listed where a restricted stream's client is served. The stream puts
/// blanks in the place of a name, and these may name a user whose name is blanks alone.
pub fn has_no_blank_name(users: &[User]) -> bool
    ensures { result ≡ has_no_blank_name users.now }
{
    users.iter().all(is_visible)
}

// Whether the name of a user is not of blanks alone.
fn is_visible(user: &User) -> bool
    ensures { result ≡ is_visible user.now }
{
    has_other(user.as_str().as_bytes())
}

// Whether some byte is no blank.
fn has_other(bytes: &[u8]) -> bool
    ensures { result ≡ list_any (λ b. not (b == 32)) bytes.now }
{
    bytes.iter().any(|byte| *byte != b' ')
}
