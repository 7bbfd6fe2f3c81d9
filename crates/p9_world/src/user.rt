//! Lines `user NAME`.

ghost use Rattle.std.specs.Prelude.{◌≡◌};
ghost use Rattle.p9_world.specs.Meaning.{Makes};
ghost use Rattle.p9_world.specs.User.{user_line};

use crate::error::{LineFault, Stop};
use crate::reader::Reader;
use p9_base::User;
use p9_tree::Tree;

/// A user of this name joins those that are listed.
pub(crate) fn add_user<T: Tree>(world: &mut Reader<T>, name: &str) -> Result<(), Stop>
    ensures { Makes (user_line name.now world.old) world.old world.new result }
{
    let Some(user) = User::new(name) else {
        return Err(Stop::Refused(LineFault::BadUser));
    };
    if world.user_positions.has(name) {
        return Err(Stop::Refused(LineFault::Duplicate));
    }
    world.users.reserve(1)?;
    world.user_positions.insert(name, world.users.len())?;
    world.users.push(user).unwrap();
    Ok(())
}
