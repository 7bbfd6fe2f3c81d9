//! The current directory of a namespace file.

ghost use Rattle.p9_nsline.specs.Answer.{Acts};
ghost use Rattle.p9_nsline.specs.Directory.{entered};

use crate::environment::Environment;
use crate::fault::{OpFault, Stop};
use crate::find::find;
use crate::space::Space;
use p9_base::Fault;
use p9_tree::Tree;

/// Makes a directory the current one, by the trail on which it was found.
///
/// The refusals are those of the path, and [`OpFault::Path`] with [`Fault::NotDirectory`] for
/// another file. The name space is unchanged after a refusal.
pub fn cd<T: Tree>(
    environment: &Environment<'_, T>,
    space: &mut Space<T::Alloc>,
    dir: &str,
) -> Result<(), Stop>
    ensures { Acts (entered environment.now space.old dir.now) space.old space.new result }
{
    let trail = find(environment, space, dir)?;
    if !environment.is_dir(space.file(trail.here())) {
        return Err(Stop::Refused(OpFault::Path(Fault::NotDirectory)));
    }
    space.enter(trail);
    Ok(())
}
