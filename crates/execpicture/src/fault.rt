//! Why there is no picture.
use std::alloc::AllocError;
use thiserror::Error;

/// Why there is no picture.
#[derive(Clone, Copy, Debug, PartialEq, Eq, Error)]
pub enum PictureFault {
    /// Memory was refused.
    #[error("out of memory")]
    Memory,
    /// The sink did not take all.
    #[error("write failed")]
    Write,
    /// The part of the run has that many steps, ticks and requests, which is more than `LIMIT`. Nothing was written.
    #[error("a picture shows at most 200 steps, ticks and requests, and this part of the run has {0}: choose a part of it, as with --from 0 --to 200")]
    TooLong(u64),
    /// The part begins where the run is over, after that number. Nothing was written.
    #[error("the run is over after number {0}: choose a smaller number for --from")]
    PastEnd(u64),
    /// The part has no step: it ends where it begins, or before. Nothing was written.
    #[error("this part of the run is empty: --to has to be greater than --from")]
    Empty,
}

impl From<AllocError> for PictureFault {
    fn from(_refused: AllocError) -> PictureFault {
        PictureFault::Memory
    }
}
