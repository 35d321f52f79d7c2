//! The names that the two texts of a caller have in what is written of them.

/// The name of the machine file.
pub(crate) const MACHINE: &str = "machine.toml";

/// The name of the event text.
pub(crate) const EVENTS: &str = "run.events";
