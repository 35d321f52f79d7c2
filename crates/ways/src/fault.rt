//! Why a search gives no table.
use std::alloc::{AllocError, AllocFailed};
use thiserror::Error;

/// Why a search gives no table.
#[derive(Clone, Copy, Debug, PartialEq, Eq, Error)]
pub enum SearchFault {
    /// Memory was refused.
    #[error("no memory")]
    OutOfMemory,
    /// More than `MOST_OUTCOMES` different texts are seen, or more ways than 64 bits count.
    #[error("too many outcomes")]
    TooManyOutcomes,
    /// The outcomes take more bytes than a table keeps: the number of ways that were noted before.
    #[error("too many bytes of outcomes")]
    TooMuch(u64),
    /// A way has more than 1,000,000 ticks.
    #[error("too many ticks")]
    TooManyTicks,
}

impl From<AllocError> for SearchFault {
    fn from(_error: AllocError) -> SearchFault {
        SearchFault::OutOfMemory
    }
}

impl<T: Drop> From<AllocFailed<T>> for SearchFault {
    fn from(_error: AllocFailed<T>) -> SearchFault {
        SearchFault::OutOfMemory
    }
}
