//! Why a text was refused: the faults of a machine file and of an event text.
ghost use Rattle.std.specs.Prelude.{◌≡◌};
ghost use Rattle.taskscript.specs.declared.fault.FileFault.TheVariants as file_fault;
ghost use Rattle.taskscript.specs.declared.fault.EventFault.TheVariants as event_fault;
ghost use Rattle.taskscript.specs.Faults.{file_fault_name, file_fault_number, event_fault_number};

use std::alloc::{AllocError, AllocFailed};
use thiserror::Error;

/// The fault of a machine file: the first one, in the order in which its places are judged. It is printed by its name.
/// The faults are numbered from 1, in the order in which they are here (project rule).
#[derive(Clone, Copy, Debug, PartialEq, Eq, Error)]
pub enum FileFault {
    /// The bytes are not text in UTF-8, or the text is not a TOML document.
    #[error("NotToml")]
    NotToml = 1,
    /// A table has a key that is not listed for it.
    #[error("UnknownKey")]
    UnknownKey = 2,
    /// A table lacks a key that it must have.
    #[error("MissingKey")]
    MissingKey = 3,
    /// A value is of another kind than its key asks for, or out of its range.
    #[error("BadValue")]
    BadValue = 4,
    /// A name was used before.
    #[error("NameTwice")]
    NameTwice = 5,
    /// The regions of memory overlap, are misaligned or too large.
    #[error("BadRegions")]
    BadRegions = 6,
    /// A line of a body is neither a label nor a command, or it names a software interrupt that the file lacks.
    #[error("BadCommand")]
    BadCommand = 7,
    /// A label is twice in a body, or a jump names a label that is not in its body.
    #[error("BadLabel")]
    BadLabel = 8,
    /// A line that is right in a task is in the body of a software interrupt or of a server, where it is not allowed.
    #[error("NotInInterrupt")]
    NotInInterrupt = 9,
    /// There are more regions, libraries, software interrupts, servers, tasks, lines or variables than the limits
    /// allow.
    #[error("TooMany")]
    TooMany = 10,
    /// Memory was refused while the file was read.
    #[error("OutOfMemory")]
    OutOfMemory = 11,
}

impl FileFault {
    /// The number of the fault, 1 to 11 (project rule).
    pub fn number(self) -> u8
        ensures { result ≡ file_fault_number self }
    {
        self as u8
    }

    /// The name of the fault, as it is here (project rule).
    pub fn name(self) -> &'static str
        ensures { result.now ≡ file_fault_name self }
    {
        match self {
            FileFault::NotToml => "NotToml",
            FileFault::UnknownKey => "UnknownKey",
            FileFault::MissingKey => "MissingKey",
            FileFault::BadValue => "BadValue",
            FileFault::NameTwice => "NameTwice",
            FileFault::BadRegions => "BadRegions",
            FileFault::BadCommand => "BadCommand",
            FileFault::BadLabel => "BadLabel",
            FileFault::NotInInterrupt => "NotInInterrupt",
            FileFault::TooMany => "TooMany",
            FileFault::OutOfMemory => "OutOfMemory",
        }
    }
}

impl From<AllocError> for FileFault {
    ghost from_gives = { λ _ e. e ≡ file_fault.OutOfMemory };

    fn from(_error: AllocError) -> FileFault {
        FileFault::OutOfMemory
    }
}

impl<T: Drop> From<AllocFailed<T>> for FileFault {
    ghost from_gives = { λ _ e. e ≡ file_fault.OutOfMemory };

    fn from(_error: AllocFailed<T>) -> FileFault {
        FileFault::OutOfMemory
    }
}

/// The fault of an event text: that of its first faulty line. It is printed by its name, and BadLine with the number of
/// that line. The faults are numbered 1, 2 and 3, in the order in which they are here (project rule).
#[derive(Clone, Copy, Debug, PartialEq, Eq, Error)]
pub enum EventFault {
    /// The line of this number is not an event. Lines are counted from 1, and those that are skipped are counted too.
    #[error("BadLine {0}")]
    BadLine(usize),
    /// A line takes the sum of the steps or that of the ticks past 1,000,000, or the number of the events past 100,000.
    #[error("TooMany")]
    TooMany,
    /// Memory was refused while the text was read.
    #[error("OutOfMemory")]
    OutOfMemory,
}

impl EventFault {
    /// The number of the fault, 1 to 3, whatever its line (project rule).
    pub fn number(self) -> u8
        ensures { result ≡ event_fault_number self }
    {
        match self {
            EventFault::BadLine(_) => 1,
            EventFault::TooMany => 2,
            EventFault::OutOfMemory => 3,
        }
    }
}

impl From<AllocError> for EventFault {
    ghost from_gives = { λ _ e. e ≡ event_fault.OutOfMemory };

    fn from(_error: AllocError) -> EventFault {
        EventFault::OutOfMemory
    }
}

impl<T: Drop> From<AllocFailed<T>> for EventFault {
    ghost from_gives = { λ _ e. e ≡ event_fault.OutOfMemory };

    fn from(_error: AllocFailed<T>) -> EventFault {
        EventFault::OutOfMemory
    }
}
