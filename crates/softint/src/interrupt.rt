//! One software interrupt, and one server of a source.

use crate::source::Source;

/// A software interrupt by its priority: -32, -16, 0, 16 or 32. RKM Libraries, Exec Interrupts: software interrupts.
#[derive(Clone, Copy)]
pub struct Soft {
    pub pri: i8,
}

/// A server by its source and its priority, -128 to 127. RKM Libraries, Exec Interrupts: interrupt servers.
#[derive(Clone, Copy)]
pub struct Server {
    pub source: Source,
    pub pri: i8,
}
