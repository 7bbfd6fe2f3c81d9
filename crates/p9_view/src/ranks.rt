//! Listed users by their names, and by their ranks.

ghost use Rattle.std.specs.Prelude.{◌≡◌, IfOk, IfSome, IsTrue, OnOk, option_copied, slice_get};
ghost use Rattle.std.specs.List.{list_any};
ghost use Rattle.std.specs.Str.{bytes_eq};
ghost use Rattle.p9_view.specs.Ranks.{HasAdded};

use indexmap::IndexSet;
use p9_base::{NoMemory, User};
use std::alloc::Allocator;
use std::collections::BTreeSet;
use std::hash::{BuildHasherDefault, FoldHasher};

/// Listed users by their names. The rank of a user is how many are listed before him.
#[derive(Drop)]
pub(crate) struct Ranks<A: Allocator + Copy> {
    users: IndexSet<User, BuildHasherDefault<FoldHasher>, A>,
}

impl<A: Allocator + Copy> Ranks<A> {
    /// Those of these users, unless one is listed twice. The only error is that an allocation fails.
    pub fn of(alloc: A, users: &[User]) -> Result<Option<Ranks<A>>, NoMemory>
        ensures { IfOk result (λ ranks. IfSome ranks (λ r. r.users.keys ≡ users.now)) }
    {
        let mut ranks = Ranks {
            users: IndexSet::new(alloc),
        };
        for user in users {
            if !ranks.users.insert(*user)? {
                return Ok(None);
            }
        }
        Ok(Some(ranks))
    }

    /// The user of a rank.
    pub fn at(&self, rank: usize) -> Option<&User>
        ensures { option_copied result ≡ slice_get self.now.users.keys rank }
    {
        self.users.get_index(rank)
    }

    /// Adds the rank of the user of this name, if he is listed.
    pub fn add(&self, name: &User, found: &mut BTreeSet<usize, A>) -> Result<(), NoMemory>
        ensures { OnOk result (HasAdded (λ user. user ≡ name.now) self.now.users.keys found.old.keys
            found.new.keys) }
    {
        let _count = self.users.len();
        if let Some(rank) = self.users.get_index_of(name) {
            found.insert(rank)?;
        }
        Ok(())
    }

    /// Adds the rank of the user of this name, if that is so and he is listed.
    pub fn add_if(
        &self,
        is_so: bool,
        name: &User,
        found: &mut BTreeSet<usize, A>,
    ) -> Result<(), NoMemory>
        ensures { OnOk result (HasAdded (λ user. IsTrue is_so × (user ≡ name.now))
            self.now.users.keys found.old.keys found.new.keys) }
    {
        if is_so {
            return self.add(name, found);
        }
        Ok(())
    }

    /// Adds the ranks of the users of these names who are listed.
    pub fn add_all(&self, names: &[User], found: &mut BTreeSet<usize, A>) -> Result<(), NoMemory>
        ensures { OnOk result (HasAdded (λ user. IsTrue (list_any (bytes_eq user) names.now))
            self.now.users.keys found.old.keys found.new.keys) }
    {
        for name in names {
            self.add(name, found)?;
        }
        Ok(())
    }
}
