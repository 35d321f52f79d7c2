//! What is seen of a request that waits. Nothing here changes it.
ghost use Rattle.std.specs.Prelude.{◌≡◌, ◌<◌, option_map};
ghost use Rattle.timerdev.specs.{DueTimes.due_of, DueTimes.due_view, Held.due_for};

use super::{ReqId, Timer};
use crate::place::SYSTEM;
use execlist::space::{HeaderId, ListSpace};

/// The time for which a request waits, in microseconds.
#[derive(Clone, Copy, Debug)]
pub enum DueTime {
    /// A time of the clock. Devices, timer device: UNIT_MICROHZ and UNIT_VBLANK.
    Clock(u64),
    /// A system time. Devices, timer device: UNIT_WAITUNTIL.
    System(u64),
}

/// The time of a request that waits in that header.
fn due_time(h: HeaderId, time: u64) -> DueTime
    ensures { due_view result ≡ due_for h time }
{
    if h == SYSTEM {
        DueTime::System(time)
    } else {
        DueTime::Clock(time)
    }
}

impl<S: ListSpace> Timer<S> {
    /// Answers the time for which a request waits, or none if it does not wait.
    ///
    /// Source: RKM Devices, timer device: TR_ADDREQUEST.
    pub fn due_of(&self, r: ReqId) -> Option<DueTime>
        requires { r < self.now.room }
        ensures { option_map due_view result ≡ due_of r self.now.timer }
    {
        match self.queues.home(r) {
            None => None,
            Some(h) => Some(due_time(h, self.dues[r])),
        }
    }
}
