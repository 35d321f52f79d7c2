//! The latches of the sources.
ghost use Rattle.std.specs.Prelude.{◌≡◌, is_some};
ghost use Rattle.softint.specs.Sources.{highest, with_latch, no_latches};

use crate::source::Source;

/// For each source, whether it asks to be served. RKM Libraries, Exec Interrupts: interrupt requests.
#[derive(Clone, Copy, Debug)]
pub struct Latches {
    pub ports: bool,
    pub vertb: bool,
    pub exter: bool,
}

impl Latches {
    /// No source asks to be served.
    pub fn new() -> Latches
        ensures { result ≡ no_latches }
    {
        Latches {
            ports: false,
            vertb: false,
            exter: false,
        }
    }

    /// Answers the source of highest level among those that ask to be served, or none.
    ///
    /// Source: RKM Libraries, Exec Interrupts: the order of their priorities.
    pub fn highest(self) -> Option<Source>
        ensures { result ≡ highest self }
    {
        if self.exter {
            Some(Source::Exter)
        } else if self.vertb {
            Some(Source::Vertb)
        } else if self.ports {
            Some(Source::Ports)
        } else {
            None
        }
    }

    /// Answers whether any source asks to be served.
    pub fn any(self) -> bool
        ensures { result ≡ is_some (highest self) }
    {
        self.exter || self.vertb || self.ports
    }

    /// Answers the latches with that of one source set or cleared.
    pub fn with(self, source: Source, set: bool) -> Latches
        ensures { result ≡ with_latch source set self }
    {
        match source {
            Source::Ports => Latches {
                ports: set,
                vertb: self.vertb,
                exter: self.exter,
            },
            Source::Vertb => Latches {
                ports: self.ports,
                vertb: set,
                exter: self.exter,
            },
            Source::Exter => Latches {
                ports: self.ports,
                vertb: self.vertb,
                exter: set,
            },
        }
    }
}
