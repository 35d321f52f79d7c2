//! What is seen of a way.
ghost use Rattle.std.specs.Prelude.{◌≡◌};
ghost use Rattle.wayrun.specs.Words.{see_text};

/// What is seen of a way. How it ends is always seen: the line of the alert that ends it, or who runs, and the call of
/// each task that waits.
#[derive(Clone, Copy)]
pub enum See {
    /// How it ends.
    End,
    /// The lines of `Print`, and how it ends.
    Prints,
    /// All lines, and how it ends.
    Trace,
}

impl See {
    /// What is seen, by its word.
    ///
    /// Source: project rule.
    pub fn named(name: &str) -> Option<See> {
        match name {
            "end" => Some(See::End),
            "prints" => Some(See::Prints),
            "trace" => Some(See::Trace),
            _ => None,
        }
    }

    /// The word for what is seen.
    ///
    /// Source: project rule.
    pub fn text(self) -> &'static str
        ensures { result.now ≡ see_text self }
    {
        match self {
            See::End => "end",
            See::Prints => "prints",
            See::Trace => "trace",
        }
    }
}
