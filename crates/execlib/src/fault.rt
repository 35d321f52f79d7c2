//! Why a call on libraries is refused.
ghost use Rattle.std.specs.Prelude.{◌≡◌};
ghost use Rattle.execlib.specs.Faults.{fault_number};

use thiserror::Error;

/// Why a call on libraries is refused. The call then has changed nothing.
#[derive(Clone, Copy, Debug, PartialEq, Eq, Error)]
pub enum LibFault {
    /// The library that is closed is not open.
    #[error("the library is not open")]
    NotOpen = 1,
}

impl LibFault {
    /// The number of the fault, 1 (project rule).
    pub fn number(self) -> u8
        ensures { result ≡ fault_number self }
    {
        self as u8
    }
}
