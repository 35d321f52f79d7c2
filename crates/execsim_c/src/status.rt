//! The statuses of the calls.
ghost use Rattle.std.specs.Prelude.{◌≡◌, ◌⊎◌, false, true};
ghost use Rattle.execsim.specs.declared.simulation.End.{End};
ghost use Rattle.execsim_c.specs.Buffers.{IsEventsFault, IsMachineFault};

use execsim::{End, SimFault};
use taskscript::{EventFault, FileFault};

/// The status if the machine ran over all its events.
pub(crate) const RAN: u32 = 0;

/// The status if the machine file is refused.
pub(crate) const MACHINE_REFUSED: u32 = 1;

/// The status if the event text is refused.
pub(crate) const EVENTS_REFUSED: u32 = 2;

/// The status if an alert ended the run.
pub(crate) const ALERTED: u32 = 3;

/// The status if memory was refused.
pub(crate) const NO_MEMORY: u32 = 4;

/// The status if the trace is longer than the caller's buffer.
pub(crate) const TOO_LONG: u32 = 5;

/// The status if the handle has no machine.
pub(crate) const NO_MACHINE: u32 = 6;

/// The status if there is no such task, step or outcome, or no block at the address, or if a number is out of range.
pub(crate) const NOT_THERE: u32 = 7;

/// The status if a search has more ways, outcomes, bytes of outcomes or ticks than it takes.
pub(crate) const TOO_MANY: u32 = 8;

/// The status of a run that came to its end.
pub(crate) fn status_of(end: End) -> u32
    ensures ran { end ≡ End.Ran → result ≡ 0 }
    ensures alerted { end ≡ End.Alerted → result ≡ 3 }
{
    match end {
        End::Ran => RAN,
        End::Alerted => ALERTED,
    }
}

/// The status of a machine that goes on, or that an alert has stopped.
pub(crate) fn status_if(stopped: bool) -> u32
    ensures ran { result ≡ 0 → stopped ≡ false }
    ensures alerted { result ≡ 3 → stopped ≡ true }
    ensures others { (result ≡ 0) ⊎ (result ≡ 3) }
{
    if stopped { ALERTED } else { RAN }
}

/// The status of a run that did not come to its end.
pub(crate) fn status_of_fault(fault: SimFault) -> u32
    ensures machine { result ≡ 1 → IsMachineFault fault }
    ensures events { result ≡ 2 → IsEventsFault fault }
    ensures others { (result ≡ 1) ⊎ (result ≡ 2) ⊎ (result ≡ 4) }
{
    match fault {
        SimFault::File(FileFault::OutOfMemory) => NO_MEMORY,
        SimFault::File(_) => MACHINE_REFUSED,
        SimFault::Events(EventFault::OutOfMemory) => NO_MEMORY,
        SimFault::Events(_) => EVENTS_REFUSED,
        SimFault::Memory => NO_MEMORY,
        // the trace is kept in memory, which is all that can be refused
        SimFault::Write => NO_MEMORY,
    }
}
