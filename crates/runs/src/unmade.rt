//! Why something was not made.
use execsim::{ReadFault, SimFault};
use memlist::MemFault;
use std::alloc::AllocError;
use taskscript::{EventFault, FileFault};

/// Why something was not made.
#[derive(Clone, Copy)]
pub enum Unmade {
    /// Memory was refused.
    NoMemory,
    /// Another fault came.
    Wrong,
}

impl From<AllocError> for Unmade {
    fn from(_error: AllocError) -> Unmade {
        Unmade::NoMemory
    }
}

impl From<MemFault> for Unmade {
    fn from(fault: MemFault) -> Unmade {
        match fault {
            MemFault::OutOfMemory => Unmade::NoMemory,
            _ => Unmade::Wrong,
        }
    }
}

impl From<FileFault> for Unmade {
    fn from(fault: FileFault) -> Unmade {
        match fault {
            FileFault::OutOfMemory => Unmade::NoMemory,
            _ => Unmade::Wrong,
        }
    }
}

impl From<EventFault> for Unmade {
    fn from(fault: EventFault) -> Unmade {
        match fault {
            EventFault::OutOfMemory => Unmade::NoMemory,
            _ => Unmade::Wrong,
        }
    }
}

impl From<ReadFault> for Unmade {
    fn from(fault: ReadFault) -> Unmade {
        match fault {
            ReadFault::OutOfMemory => Unmade::NoMemory,
            _ => Unmade::Wrong,
        }
    }
}

impl From<SimFault> for Unmade {
    fn from(fault: SimFault) -> Unmade {
        match fault {
            SimFault::Memory => Unmade::NoMemory,
            SimFault::File(fault) => Unmade::from(fault),
            SimFault::Events(fault) => Unmade::from(fault),
            SimFault::Write => Unmade::Wrong,
        }
    }
}
