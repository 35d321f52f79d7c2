//! Why the states of a machine cannot be gone over.
use std::alloc::{AllocError, AllocFailed};

/// Why the states of a machine cannot be gone over.
#[derive(Clone, Copy, Debug, PartialEq, Eq)]
pub enum Fault {
    /// Memory was refused.
    OutOfMemory,
    /// More events came than the clock bears.
    TooLong,
    /// No key distinguishes the states of this machine.
    NoKey,
    /// The check sees another alert after some events than the search has seen.
    IsOther,
}

impl From<AllocError> for Fault {
    fn from(_error: AllocError) -> Self {
        Fault::OutOfMemory
    }
}

impl<T: Drop> From<AllocFailed<T>> for Fault {
    fn from(_error: AllocFailed<T>) -> Self {
        Fault::OutOfMemory
    }
}
