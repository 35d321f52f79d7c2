//! How many runs or answers were compared, and how many differ.
ghost use Rattle.std.specs.Prelude.{◌≡◌, ◌+◌, ◌-◌, ◌^◌, min, if◌then◌else◌};

/// A count of runs, or of answers.
#[derive(Clone, Copy)]
pub struct Tally {
    pub compared: u32,
    pub differing: u32,
}

impl Tally {
    /// None.
    pub fn none() -> Tally
        ensures compared { result.compared ≡ 0 }
        ensures differing { result.differing ≡ 0 }
    {
        Tally {
            compared: 0,
            differing: 0,
        }
    }

    /// One, which is as it is wanted or differs.
    pub fn of_one(is_as_wanted: bool) -> Tally
        ensures compared { result.compared ≡ 1 }
        ensures differing { result.differing ≡ (if is_as_wanted then 0 else 1) }
    {
        Tally {
            compared: 1,
            differing: if is_as_wanted { 0 } else { 1 },
        }
    }

    /// Both counts together, each 4,294,967,295 at most.
    pub fn with(self, more: Tally) -> Tally
        ensures compared { result.compared ≡ min (self.compared + more.compared) (2 ^ 32 - 1) }
        ensures differing { result.differing ≡ min (self.differing + more.differing) (2 ^ 32 - 1) }
    {
        Tally {
            compared: self.compared.saturating_add(more.compared),
            differing: self.differing.saturating_add(more.differing),
        }
    }
}
