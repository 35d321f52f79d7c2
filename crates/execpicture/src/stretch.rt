//! Which part of a run is shown.

/// A part of a run, by the numbers that its log gives to steps, ticks and requests of interrupts; the start has 0.
#[derive(Clone, Copy)]
pub struct Stretch {
    /// What comes after this number is shown.
    pub from: u64,
    /// The last number that is shown. If it is past the end of the run, all the rest is shown.
    pub to: u64,
}

impl Stretch {
    /// All of a run.
    pub const ALL: Stretch = Stretch {
        from: 0,
        to: u64::MAX,
    };

    /// Whether nothing is in it: it ends where it begins, and that is not the start, or before.
    pub(crate) fn is_empty(self) -> bool {
        self.to < self.from || (self.to == self.from && self.to > 0)
    }
}
