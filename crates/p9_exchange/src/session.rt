//! The sessions that are open.

ghost use Rattle.std.specs.Prelude.{◌≡◌, ◌==◌, filter, not};
ghost use Rattle.std.specs.List.{list_any};

use std::alloc::Allocator;

/// Whether the session of this name is among them.
pub fn has(session: u32, sessions: &[u32]) -> bool
    ensures { result ≡ list_any (λ name. name == session) sessions.now }
{
    sessions.contains(&session)
}

/// Takes the session of this name out of them.
pub fn remove<A: Allocator>(session: u32, sessions: &mut Vec<u32, A>)
    ensures { sessions.new.items ≡ filter (λ name. not (name == session)) sessions.old.items }
{
    sessions.retain(|name| *name != session);
}
