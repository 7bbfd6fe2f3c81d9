//! Lines `set NAME VALUE`.

ghost use Rattle.std.specs.Prelude.{◌≡◌, ◌==◌, ◌||◌};
ghost use Rattle.std.specs.List.{list_any};
ghost use Rattle.p9_world.specs.Meaning.{Makes};
ghost use Rattle.p9_world.specs.Variable.{is_variable_name, set_line};

use crate::error::{LineFault, Stop};
use crate::reader::Reader;
use p9_tree::Tree;

/// A variable of this name and value joins the others.
pub(crate) fn set_variable<T: Tree>(
    alloc: T::Alloc,
    world: &mut Reader<T>,
    name: &str,
    value: &str,
) -> Result<(), Stop>
    ensures { Makes (set_line name.now value.now world.old) world.old world.new result }
{
    if !is_variable_name(name) {
        return Err(Stop::Refused(LineFault::BadName));
    }
    if world.variable_positions.has(name) {
        return Err(Stop::Refused(LineFault::Duplicate));
    }
    let owned = String::from_str(alloc, name)?;
    let value = String::from_str(alloc, value)?;
    world.vars.reserve(1)?;
    world.variable_positions.insert(name, world.vars.len())?;
    world.vars.push((owned, value)).unwrap();
    Ok(())
}

// Whether a variable may be called so.
fn is_variable_name(name: &str) -> bool
    ensures { result ≡ is_variable_name name.now }
{
    1 <= name.len() && !has_slash_or_dollar(name)
}

// Whether a `/` or a `$` is among the bytes: either ends a variable's name in a word.
fn has_slash_or_dollar(name: &str) -> bool
    ensures { result ≡ list_any (λ b. b == 47 || b == 36) name.now }
{
    name.bytes().any(|b| b == b'/' || b == b'$')
}
