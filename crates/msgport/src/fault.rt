//! Why a call on ports and messages is refused.
ghost use Rattle.std.specs.Prelude.{◌≡◌};
ghost use Rattle.msgport.specs.Faults.{fault_number};

use thiserror::Error;

/// Why a call on ports and messages is refused. The call then has changed nothing.
#[derive(Clone, Copy, Debug, PartialEq, Eq, Error)]
pub enum PortFault {
    /// The port has messages.
    #[error("the port has messages")]
    NotEmpty = 1,
    /// The message or the port is linked where it must not be, or is not linked where it must be.
    #[error("linked where it must not be, or the other way")]
    Link = 2,
    /// There is no such port, or no such message.
    #[error("no such port or message")]
    Unknown = 3,
    /// Every port, or every message, is in use.
    #[error("the pool is used up")]
    PoolFull = 4,
}

impl PortFault {
    /// The number of the fault, 1 to 4 (project rule).
    pub fn number(self) -> u8
        ensures { result ≡ fault_number self }
    {
        self as u8
    }
}
