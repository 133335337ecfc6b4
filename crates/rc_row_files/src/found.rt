// What comparisons come to.
ghost use Rattle.std.specs.Prelude.{◌≡◌, ◌+◌, min, if◌then◌else◌};

/// How many things were tried, and how many of them differ from what they must come to.
#[derive(Clone, Copy)]
pub struct Found {
    pub tried: u64,
    pub differ: u64,
}

impl Found {
    /// Nothing was tried.
    pub fn none() -> Found
        ensures tried { result.tried ≡ 0 }
        ensures differ { result.differ ≡ 0 }
    {
        Found {
            tried: 0,
            differ: 0,
        }
    }

    /// One was tried.
    pub fn one(differs: bool) -> Found
        ensures tried { result.tried ≡ 1 }
        ensures differ { result.differ ≡ (if differs then 1 else 0) }
    {
        Found {
            tried: 1,
            differ: u64::from(differs),
        }
    }

    /// Both together.
    pub fn and(self, other: Found) -> Found
        ensures tried { result.tried ≡ min (self.tried + other.tried) 18446744073709551615 }
        ensures differ { result.differ ≡ min (self.differ + other.differ) 18446744073709551615 }
    {
        Found {
            tried: self.tried.saturating_add(other.tried),
            differ: self.differ.saturating_add(other.differ),
        }
    }
}
