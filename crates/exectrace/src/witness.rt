//! Who hears what a machine does.
ghost use Rattle.std.specs.Prelude.{◌≡◌, ◌∷◌, []};
ghost use Rattle.exectrace.specs.{Hearing.Hearing, Heard.heard};

use crate::telling::Said;

/// A listener. What it makes of what it hears is its own; that it heard the run, in order, is proved of the machine
/// once for all.
pub trait Witness {
    /// How listeners of this kind hear.
    ghost hearing: { Hearing };

    /// What is known of this one.
    ghost told: { Self → hearing.Told };

    /// It hears one thing. One that listens no more stays as it is.
    fn hear(&mut self, said: &Said<'_>)
        ensures { hearing.hears (told self.old) (told self.new) (heard said.now ∷ []) };

    /// Whether it still listens.
    fn is_good(&self) -> bool
        ensures { result ≡ hearing.good (told self.now) };
}
