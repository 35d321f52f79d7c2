//! Why a call on semaphores is refused.
ghost use Rattle.std.specs.Prelude.{◌≡◌};
ghost use Rattle.sigsem.specs.Faults.{fault_number};

use thiserror::Error;

/// Why a call on semaphores is refused. The call then has changed nothing.
#[derive(Clone, Copy, Debug, PartialEq, Eq, Error)]
pub enum SemFault {
    /// The task that releases the semaphore does not own it.
    #[error("the task does not own the semaphore")]
    NotOwner = 1,
    /// The count of the semaphore would go past 32767.
    #[error("the semaphore is obtained too often")]
    TooDeep = 2,
    /// The semaphore is owned.
    #[error("the semaphore is owned")]
    Busy = 3,
    /// Every semaphore is in use.
    #[error("the pool is used up")]
    PoolFull = 4,
}

impl SemFault {
    /// The number of the fault, 1 to 4 (project rule).
    pub fn number(self) -> u8
        ensures { result ≡ fault_number self }
    {
        self as u8
    }
}
