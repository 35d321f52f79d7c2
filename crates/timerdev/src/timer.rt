//! The clock, system time, and the requests that wait.
ghost use Rattle.std.specs.Prelude.{◌≡◌, ◌<◌, ◌≤◌, ◌+◌, ◌^◌, false, not, IfOk, IfSome, IsTrue};
ghost use Rattle.timerdev.specs.Timing.{AtClock, AtSystem, begins_to_wait, due_next, is_waiting, looked_at, new_timer, system_set, clock_ticked, until_next, waits_no_more};
ghost use Rattle.timerdev.specs.Held.{due_for, on_timer, taken_off};

mod readers;

use crate::first::{first_come, is_first};
use crate::place::{ALL, CLOCK, SYSTEM, place_after};
use execlist::space::{HeaderId, ListSpace};
pub use readers::DueTime;
use std::alloc::{AllocError, Global};
use std::marker::Model;

/// The number of a request, from 0.
pub type ReqId = usize;

/// The clock of timer.device, system time, and the requests that wait for a time of either, each kind by its time, and
/// all in the order in which they were begun.
///
/// All room is made by `new`; no other call takes memory. `add` and `add_until` look at those requests alone that are
/// due after the new one, and `due` at more than two only if one of the clock and one of system time are due at one due
/// time. Devices, timer device.
#[derive(Drop)]
pub struct Timer<S: ListSpace> {
    queues: S,
    begun: S,
    dues: Vec<u64>,
    clock: u64,
    system: u64,
    is_set: bool,
    tick_micros: u32,
}

impl<S: ListSpace> Model for Timer<S> {
    ghost use Rattle.std.specs.Prelude.{length};
    ghost use Rattle.execlist.specs.Lists.{sequence};
    ghost use Rattle.timerdev.specs.Held.{Held, KeepsTimer, due_in, waiting_for};

    ghost Value = { Held };

    ghost view = { λ q. record {
      room = length q.dues.items;
      timer = record {
        clock = q.clock;
        system = q.system;
        tick_micros = q.tick_micros;
        is_set = q.is_set;
        waiting = waiting_for (due_in (S.homes q.queues) q.dues.items) (sequence (S.sequences q.begun) 0);
      };
    } };

    ghost invariant = { λ q. KeepsTimer (S.sequences q.queues) (S.homes q.queues) (S.sequences q.begun) (S.homes q.begun) q.dues.items };
}

impl<S: ListSpace> Timer<S> {
    /// A clock and a system time that are at 0 and gain that many microseconds at each tick, and room for requests of
    /// that many numbers, at most 4,096. None waits.
    ///
    /// An error means that memory is refused.
    pub fn new(alloc: Global, requests: usize, tick_micros: u32) -> Result<Self, AllocError>
        requires { requests ≤ 4096 }
        ensures { IfOk result (λ q. q ≡ record { room = requests; timer = new_timer tick_micros }) }
    {
        let queues = S::new(alloc, 2, requests)?;
        let begun = S::new(alloc, 1, requests)?;
        let dues = Vec::from_elem(alloc, 0, requests)?;
        Ok(Timer {
            queues,
            begun,
            dues,
            clock: 0,
            system: 0,
            is_set: false,
            tick_micros,
        })
    }

    /// Sets clock and system time to 0, which gain that many microseconds at each tick, as `new` made them. No request
    /// waits any more.
    ///
    /// Source: project rule.
    pub fn reset(&mut self, tick_micros: u32)
        ensures { self.new ≡ record { room = self.old.room; timer = new_timer tick_micros } }
    {
        self.queues.reset();
        self.begun.reset();
        self.clock = 0;
        self.system = 0;
        self.is_set = false;
        self.tick_micros = tick_micros;
    }

    // ---- the clock, and system time

    /// Answers the microseconds that the clock has counted. Project rule: the clock begins at 0.
    pub fn now(&self) -> u64
        ensures { result ≡ self.now.timer.clock }
    {
        self.clock
    }

    /// Answers system time, in microseconds. Project rule: it begins at 0. Autodoc timer.device: TR_GETSYSTIME.
    pub fn sys_now(&self) -> u64
        ensures { result ≡ self.now.timer.system }
    {
        self.system
    }

    /// Clock and system time gain the microseconds of a tick. Both sums are to stay below 2 to the power 64.
    ///
    /// Source: RKM Devices, timer device: UNIT_VBLANK; that ticks alone move the clock is a project rule.
    pub fn tick(&mut self)
        requires clock { self.old.timer.clock + self.old.timer.tick_micros < 2 ^ 64 }
        requires system { self.old.timer.system + self.old.timer.tick_micros < 2 ^ 64 }
        ensures { self.new ≡ on_timer clock_ticked self.old }
    {
        self.clock += u64::from(self.tick_micros);
        self.system += u64::from(self.tick_micros);
    }

    /// System time becomes that, in microseconds; the clock stays, and so does every request that waits.
    /// Autodoc timer.device: TR_SETSYSTIME.
    pub fn set_sys(&mut self, value: u64)
        ensures { self.new ≡ on_timer (system_set value) self.old }
    {
        self.system = value;
        self.is_set = true;
    }

    /// Answers whether system time was set since this was asked last. Project rule.
    pub fn take_setting(&mut self) -> bool
        ensures value { result ≡ self.old.timer.is_set }
        ensures next { self.new ≡ on_timer looked_at self.old }
    {
        let was_set = self.is_set;
        self.is_set = false;
        was_set
    }

    // ---- requests

    /// Lets a request that does not wait wait until the clock has come to that time, in microseconds.
    /// Devices, timer device: TR_ADDREQUEST, UNIT_MICROHZ and UNIT_VBLANK.
    pub fn add(&mut self, r: ReqId, due: u64)
        requires known { r < self.old.room }
        requires loose { IsTrue (not (is_waiting r self.old.timer)) }
        ensures { self.new ≡ on_timer (begins_to_wait r (AtClock due)) self.old }
    {
        self.put(CLOCK, r, due);
    }

    /// Lets a request that does not wait wait until system time has come to that time, in microseconds.
    /// Devices, timer device: TR_ADDREQUEST, UNIT_WAITUNTIL.
    pub fn add_until(&mut self, r: ReqId, at: u64)
        requires known { r < self.old.room }
        requires loose { IsTrue (not (is_waiting r self.old.timer)) }
        ensures { self.new ≡ on_timer (begins_to_wait r (AtSystem at)) self.old }
    {
        self.put(SYSTEM, r, at);
    }

    /// Takes off the first request whose time has come and answers it, or answers none if there is none. First is the
    /// one of the first due time, and of those of one due time the one that was begun first; the due time of a request
    /// that waits for system time is that time less how far system time is ahead of the clock now. Devices, timer
    /// device: TR_ADDREQUEST.
    pub fn due(&mut self) -> Option<ReqId>
        ensures value { result ≡ due_next self.old.timer }
        ensures next { self.new ≡ on_timer (taken_off (due_next self.old.timer)) self.old }
        ensures known { IfSome result (λ r. r < self.new.room) }
    {
        let r = self.first_due()?;
        self.take_off(r);
        Some(r)
    }

    /// Takes off the first request that waits for system time and whose time has come, and answers it, or answers none
    /// if there is none. Autodoc timer.device: TR_SETSYSTIME; Devices, timer device: UNIT_WAITUNTIL.
    pub fn due_until(&mut self) -> Option<ReqId>
        ensures value { result ≡ until_next self.old.timer }
        ensures next { self.new ≡ on_timer (taken_off (until_next self.old.timer)) self.old }
        ensures known { IfSome result (λ r. r < self.new.room) }
    {
        let r = self.first_until()?;
        self.take_off(r);
        Some(r)
    }

    /// Lets a request that waits wait no more. Autodoc exec.library/AbortIO.
    pub fn cancel(&mut self, r: ReqId)
        requires { IsTrue (is_waiting r self.old.timer) }
        ensures { self.new ≡ on_timer (waits_no_more r) self.old }
    {
        self.take_off(r);
    }

    /// Answers whether a request waits: whether it may be cancelled, and may not be added. Project rule.
    pub fn is_queued(&self, r: ReqId) -> bool
        requires { r < self.now.room }
        ensures { result ≡ is_waiting r self.now.timer }
    {
        self.begun.home(r).is_some()
    }
}

impl<S: ListSpace> Timer<S> {
    // Lets a request that does not wait wait for that time, in one of the two headers.
    fn put(&mut self, h: HeaderId, r: ReqId, time: u64)
        requires header { h < 2 }
        requires known { r < self.old.room }
        requires loose { IsTrue (not (is_waiting r self.old.timer)) }
        ensures { self.new ≡ on_timer (begins_to_wait r (due_for h time)) self.old }
    {
        self.dues[r] = time;
        let after = place_after(&self.queues, h, &self.dues, time);
        self.queues.insert(h, r, after);
        self.begun.add_tail(ALL, r);
    }

    // Lets a request that waits wait no more.
    fn take_off(&mut self, r: ReqId)
        requires { IsTrue (is_waiting r self.old.timer) }
        ensures { self.new ≡ on_timer (waits_no_more r) self.old }
    {
        self.queues.remove(r);
        self.begun.remove(r);
    }

    // The first request whose time has come: of the first of the clock and the first of system time, the one that is
    // later by now, or the one that was begun first.
    fn first_due(&self) -> Option<ReqId>
        ensures value { result ≡ due_next self.now.timer }
        ensures waits { IfSome result (λ r. IsTrue (is_waiting r self.now.timer)) }
        ensures known { IfSome result (λ r. r < self.now.room) }
    {
        let of_clock = first_come(&self.queues, CLOCK, &self.dues, self.clock);
        let of_system = first_come(&self.queues, SYSTEM, &self.dues, self.system);
        let Some(a) = of_clock else {
            return of_system;
        };
        let Some(b) = of_system else {
            return of_clock;
        };
        let late_a = self.clock - self.dues[a];
        let late_b = self.system - self.dues[b];
        if is_first(&self.begun, a, late_a, b, late_b) {
            of_clock
        } else {
            of_system
        }
    }

    // The first request that waits for system time and whose time has come.
    fn first_until(&self) -> Option<ReqId>
        ensures value { result ≡ until_next self.now.timer }
        ensures waits { IfSome result (λ r. IsTrue (is_waiting r self.now.timer)) }
        ensures known { IfSome result (λ r. r < self.now.room) }
    {
        first_come(&self.queues, SYSTEM, &self.dues, self.system)
    }
}
