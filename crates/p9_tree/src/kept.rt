//! Where a node is, in no more memory than its name has.

ghost use Rattle.std.specs.Prelude.{◌≡◌, IfOk, IsTrue, option_map};
ghost use Rattle.std.specs.Option.{option_map_or};
ghost use Rattle.p9_base.specs.Name.{is_name};
ghost use Rattle.p9_tree.specs.Node.{root_name};

use crate::node::Entry;
use p9_base::{Name, NoMemory};
use std::alloc::Allocator;
use std::marker::Model;

/// A file's name in an allocation of its own, of as many bytes as the name has. It is seen as their
/// list. A [`Name`] itself takes the room of the longest one.
#[derive(Drop)]
pub(crate) struct KeptName<A: Allocator> {
    text: String<A>,
}

impl<A: Allocator> Model for KeptName<A> {
    ghost use Rattle.std.specs.Prelude.{ℕ, List, IsTrue};
    ghost use Rattle.std.specs.String.{string_bytes};
    ghost use Rattle.p9_base.specs.Name.{is_name};

    ghost Value = { List ℕ };

    ghost view = { λ n. string_bytes n.text };

    ghost invariant = { λ n. IsTrue (is_name (string_bytes n.text)) };
}

impl<A: Allocator> KeptName<A> {
    /// A copy of the name. The only error is a failed allocation.
    pub fn copy_of(alloc: A, name: &Name) -> Result<KeptName<A>, NoMemory>
        ensures { IfOk result (λ kept. kept ≡ name.now) }
    {
        Ok(KeptName {
            text: String::from_str(alloc, name.as_str())?,
        })
    }

    /// Its text.
    pub fn as_str(&self) -> &str
        ensures text { result.now ≡ self.now }
        ensures valid { IsTrue (is_name self.now) }
    {
        self.text.as_str()
    }

    /// The name.
    pub fn name(&self) -> Name
        ensures { result ≡ self.now }
    {
        Name::new(self.as_str()).unwrap()
    }
}

/// An [`Entry`] with a kept name.
#[derive(Drop)]
pub(crate) struct KeptEntry<A: Allocator> {
    /// The number of the directory.
    pub parent: u64,
    pub name: KeptName<A>,
}

impl<A: Allocator> KeptEntry<A> {
    /// The entry.
    pub fn entry(&self) -> Entry
        ensures { result ≡ record { parent = self.now.parent; name = self.now.name } }
    {
        Entry {
            parent: self.parent,
            name: self.name.name(),
        }
    }
}

/// A copy of the entry, if there is one. The only error is a failed allocation.
pub(crate) fn kept_entry<A: Allocator>(
    alloc: A,
    entry: &Option<Entry>,
) -> Result<Option<KeptEntry<A>>, NoMemory>
    ensures parent { IfOk result (λ kept.
        option_map (λ e. e.parent) kept ≡ option_map (λ e. e.parent) entry.now) }
    ensures name { IfOk result (λ kept. option_map_or (λ e. e.name) kept root_name
        ≡ option_map_or (λ e. e.name) entry.now root_name) }
{
    let Some(entry) = entry else {
        return Ok(None);
    };
    Ok(Some(KeptEntry {
        parent: entry.parent,
        name: KeptName::copy_of(alloc, &entry.name)?,
    }))
}

/// A copy of the name, if there is one. The only error is a failed allocation.
pub(crate) fn kept_name<A: Allocator>(
    alloc: A,
    name: &Option<Name>,
) -> Result<Option<KeptName<A>>, NoMemory>
    ensures { IfOk result (λ kept. kept ≡ name.now) }
{
    let Some(name) = name else {
        return Ok(None);
    };
    Ok(Some(KeptName::copy_of(alloc, name)?))
}
