//! Where interrupts come from, and what the texts and the trace call it.
ghost use Rattle.std.specs.Prelude.{◌≡◌};
ghost use Rattle.softint.specs.Sources.{is_source, source_of, source_text};

/// A source of interrupts. RKM Libraries, Exec Interrupts: the order of their priorities.
#[derive(Clone, Copy, Debug, PartialEq, Eq)]
pub enum Source {
    /// Ports, timers and the keyboard: source 3, of level 2.
    Ports,
    /// The start of the vertical blank: source 5, of level 3.
    Vertb,
    /// An external interrupt: source 13, of level 6.
    Exter,
}

impl Source {
    /// The source of this name, if there is one.
    pub fn named(name: &str) -> Option<Source>
        ensures { result ≡ source_of name.now }
    {
        if name == "PORTS" {
            Some(Source::Ports)
        } else if name == "VERTB" {
            Some(Source::Vertb)
        } else if name == "EXTER" {
            Some(Source::Exter)
        } else {
            None
        }
    }

    /// The name of the source, as it is in the texts and in the trace.
    #[inline(always)]
    pub fn text(self) -> &'static str
        ensures { result.now ≡ source_text self }
    {
        match self {
            Source::Ports => "PORTS",
            Source::Vertb => "VERTB",
            Source::Exter => "EXTER",
        }
    }

    /// Answers whether the two are the same source.
    pub fn is(self, other: Source) -> bool
        ensures { result ≡ is_source self other }
    {
        match self {
            Source::Ports => matches!(other, Source::Ports),
            Source::Vertb => matches!(other, Source::Vertb),
            Source::Exter => matches!(other, Source::Exter),
        }
    }
}
