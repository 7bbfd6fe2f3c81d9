//! What follows from the definitions of paths alone. Each function does nothing: its clauses are
//! the laws.

ghost use Rattle.std.specs.Prelude.{◌≡◌, ◌<◌, ℕ, Bool, List, length};
ghost use Rattle.p9_clean.specs.Path.{Component, is_rooted, components_of, elements_of};
ghost use Rattle.p9_clean.specs.Path.{cleaned_elements, cleaned};
ghost use Rattle.p9_clean.specs.Rules.{Shortens, CleansTo};

/// The four rules of cleaning make one list of the components of a path, in whatever order they are
/// applied: the elements of the cleaned path. None applies to these, and each rule shortens a
/// list, so every order comes to an end there.
pub fn rules_lead_to_the_cleaned_path()
    ensures one { (path : List ℕ) →
        CleansTo (is_rooted path) (components_of path) (cleaned_elements path) }
    ensures ends { (rooted : Bool) (components next : List Component) →
        Shortens rooted components next → length next < length components }
{}

/// A cleaned path begins with a slash where the path did, its elements are the cleaned ones, and
/// cleaning leaves it as it is.
pub fn cleaned_path_reads_back()
    ensures rooted { (path : List ℕ) → is_rooted (cleaned path) ≡ is_rooted path }
    ensures elements { (path : List ℕ) → elements_of (cleaned path) ≡ cleaned_elements path }
    ensures again { (path : List ℕ) → cleaned (cleaned path) ≡ cleaned path }
{}
