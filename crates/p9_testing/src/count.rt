//! What the allocator counts, as a plain value: its rules are proved here, where no cell hides it.

ghost use Rattle.std.specs.Prelude.{◌≡◌, ◌+◌, ◌-◌, ◌<◌, ◌^◌, ◌↔◌, ℕ, min, None, IsTrue};

/// How many requests were made, and the number of the one that is refused, the first being 1.
#[derive(Clone, Copy)]
pub struct Requests {
    pub made: u64,
    pub refused: Option<u64>,
}

impl Requests {
    ghost use Rattle.p9_testing.specs.Count.{Refuses, HasRefused};

    /// No request yet, and none that is refused.
    pub fn new() -> Requests
        ensures { result ≡ record { made = 0; refused = None } }
    {
        Requests {
            made: 0,
            refused: None,
        }
    }

    /// The same count, where the `n`-th request from now on is refused and no other one, and none
    /// at 0. A number past the end of the count stands for none.
    pub fn refusing(self, n: u64) -> Requests
        ensures made { result.made ≡ self.made }
        ensures refuses { (k : ℕ) → 0 < k → self.made + k < 2 ^ 64 → (Refuses result k ↔ k ≡ n) }
    {
        let refused = if n == 0 {
            None
        } else {
            self.made.checked_add(n)
        };
        Requests {
            made: self.made,
            refused,
        }
    }

    /// The count after one more request. At the end of the count it stays there.
    pub fn after_request(self) -> Requests
        ensures made { result.made ≡ min (self.made + 1) (2 ^ 64 - 1) }
        ensures refused { result.refused ≡ self.refused }
    {
        Requests {
            made: self.made.saturating_add(1),
            refused: self.refused,
        }
    }

    /// Whether the request made last is the one that is refused.
    pub fn is_refused(self) -> bool
        ensures { IsTrue result ↔ Refuses self 0 }
    {
        self.refused == Some(self.made)
    }

    /// Whether the request that is refused was made.
    pub fn has_refused(self) -> bool
        ensures { IsTrue result ↔ HasRefused self }
    {
        self.refused.is_some_and(|number| number <= self.made)
    }
}
