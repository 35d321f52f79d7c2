//! Why a call on requests is refused.
ghost use Rattle.std.specs.Prelude.{◌≡◌};
ghost use Rattle.iorequest.specs.Faults.{fault_number};

use thiserror::Error;

/// Why a call on requests is refused. The call then has changed nothing.
#[derive(Clone, Copy, Debug, PartialEq, Eq, Error)]
pub enum ReqFault {
    /// The request is in progress.
    #[error("the request is in progress")]
    InUse = 1,
    /// The request that is to begin is not open.
    #[error("the request is not open")]
    NotOpen = 2,
    /// Every request is in use.
    #[error("the pool is used up")]
    PoolFull = 3,
}

impl ReqFault {
    /// The number of the fault, 1 to 3 (project rule).
    pub fn number(self) -> u8
        ensures { result ≡ fault_number self }
    {
        self as u8
    }
}
