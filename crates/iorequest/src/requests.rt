//! The timer requests of a machine, by number.
ghost use Rattle.std.specs.Prelude.{◌≡◌, ◌+◌, ◌<◌, ◌^◌, ◌≤◌, take, length, false, true, Some, IfOk, IsSome, IsTrue, ok_or};
ghost use Rattle.std.specs.List.{list_any};
ghost use Rattle.execlist.specs.{Pool.IsStocked, Pool.all_free, Pool.next_number, Answers.fault_or, Answers.kept_or};
ghost use Rattle.iorequest.specs.Requests.{is_request, request_at, request_made, request_freed, with_request, in_use_fault, begin_fault, unit_error, opened, closed, written_with, is_under_way_at};
ghost use Rattle.iorequest.specs.{Counting.key_of, Request.is_under_way, Request.is_opened, Request.time_of, Request.in_progress, Request.outcome, Request.finished, Request.reply_port};

use crate::fault::ReqFault;
use crate::request::{Begun, ReqState, Request, UNIT_WAITUNTIL};
use execlist::pool::Pool;
use std::alloc::{AllocError, Global};
use std::marker::Model;

/// The number of a request, from 0.
pub type ReqId = usize;

/// IOERR_OPENFAIL: there is no such device or unit.
const IOERR_OPENFAIL: i8 = -1;

/// UNIT_VBLANK, the last of the units that count the time from the beginning of a request; the first is UNIT_MICROHZ,
/// 0.
const UNIT_VBLANK: u32 = 1;

/// Timer requests.
///
/// All room is made by `new`; no other call takes memory. `under_way` and `reset` alone look at all requests, and
/// `under_way` only if one is in progress whose reply port has the same key. RKM Devices, Timer Device.
#[derive(Drop)]
pub struct Requests {
    requests: Pool<Request>,
    room: usize,
    // for each key of a reply port, how many requests are in progress
    counts: Vec<usize>,
}

impl Model for Requests {
    ghost use Rattle.std.specs.Prelude.{◌≡◌, length};
    ghost use Rattle.execlist.specs.Pool.{Pooled};
    ghost use Rattle.iorequest.specs.{Counting.IsCounted, declared.request.Request.Request};

    ghost Value = { Pooled Request };

    ghost view = { λ q. q.requests };

    ghost invariant = { λ q. (q.room ≡ length q.requests.slots) × IsCounted q.requests.slots q.counts.items };
}

impl Requests {
    /// Room for that many requests. There is none yet.
    ///
    /// An error means that memory is refused.
    pub fn new(alloc: Global, n: usize) -> Result<Self, AllocError>
        ensures { IfOk result (λ q. q ≡ all_free n) }
    {
        let requests = Pool::new(alloc, n)?;
        let counts = vec![in alloc; 0; keys_for(n)]?;
        Ok(Requests {
            requests,
            room: n,
            counts,
        })
    }

    /// Frees every request, as `new` made them.
    ///
    /// Source: project rule.
    pub fn reset(&mut self)
        ensures { self.new ≡ all_free (length self.old.slots) }
    {
        self.requests.reset();
        self.counts.fill(0);
    }

    // ---- making and freeing

    /// Makes a request with that reply port. It is idle and not open, and every other field is 0.
    ///
    /// The reply port is what the caller calls it by; nothing here looks at it. Answers the request's number, or
    /// PoolFull if every request is in use. Autodoc exec.library/CreateIORequest.
    pub fn create(&mut self, port: u32) -> Result<ReqId, ReqFault>
        ensures answer { result ≡ ok_or (next_number self.old) ReqFault.PoolFull }
        ensures next { self.new ≡ request_made port self.old }
        ensures live { IfOk result (λ r. IsTrue (is_request r self.new)) }
    {
        match self.requests.next() {
            Some(r) => {
                self.requests.give(Request::idle(port));
                Ok(r)
            }
            None => Err(ReqFault::PoolFull),
        }
    }

    /// Frees a request: its number may be given again. It is InUse if the request is in progress (project rule).
    /// Autodoc exec.library/DeleteIORequest.
    pub fn delete(&mut self, r: ReqId) -> Result<(), ReqFault>
        requires { IsTrue (is_request r self.old) }
        ensures answer { result ≡ fault_or (in_use_fault r self.old) tt }
        ensures next { self.new ≡ kept_or (in_use_fault r self.old) self.old (request_freed r self.old) }
    {
        if self.request(r).is_under_way() {
            return Err(ReqFault::InUse);
        }
        self.requests.release(r);
        Ok(())
    }

    // ---- opening and writing

    /// Opens a request for a unit of the timer, none if another device is meant. UNIT_MICROHZ (0), UNIT_VBLANK (1) and
    /// UNIT_WAITUNTIL (3) are there; for any other the request is not open afterwards.
    ///
    /// Answers the error, which the request has then: 0, or IOERR_OPENFAIL (-1). It is InUse if the request is in
    /// progress (project rule). Autodoc exec.library/OpenDevice; RKM Devices, Timer Device: units.
    pub fn open_device(&mut self, r: ReqId, unit: Option<u32>) -> Result<i8, ReqFault>
        requires { IsTrue (is_request r self.old) }
        ensures answer { result ≡ fault_or (in_use_fault r self.old) (unit_error unit) }
        ensures next { self.new ≡ kept_or (in_use_fault r self.old) self.old (opened r unit self.old) }
    {
        let request = self.request(r);
        if request.is_under_way() {
            return Err(ReqFault::InUse);
        }
        let error = unit_error(unit);
        self.replace(
            r,
            Request {
                port: request.port,
                state: request.state,
                unit: if error == 0 { unit } else { None },
                command: request.command,
                secs: request.secs,
                micros: request.micros,
                error,
                quick: request.quick,
            },
        );
        Ok(error)
    }

    /// Leaves a request not open. It is InUse if the request is in progress (project rule). Autodoc
    /// exec.library/CloseDevice.
    pub fn close_device(&mut self, r: ReqId) -> Result<(), ReqFault>
        requires { IsTrue (is_request r self.old) }
        ensures answer { result ≡ fault_or (in_use_fault r self.old) tt }
        ensures next { self.new ≡ kept_or (in_use_fault r self.old) self.old (closed r self.old) }
    {
        let mut request = self.request(r);
        if request.is_under_way() {
            return Err(ReqFault::InUse);
        }
        request.unit = None;
        self.replace(r, request);
        Ok(())
    }

    /// Gives a request a command and a time, in seconds and microseconds. It is InUse if the request is in progress
    /// (project rule). RKM Devices, Introduction to Amiga System Devices: `io_Command`; Timer Device: `tr_time`.
    pub fn set(&mut self, r: ReqId, cmd: u16, secs: u32, micros: u32) -> Result<(), ReqFault>
        requires { IsTrue (is_request r self.old) }
        ensures answer { result ≡ fault_or (in_use_fault r self.old) tt }
        ensures next { self.new ≡ kept_or (in_use_fault r self.old) self.old (written_with cmd secs micros r self.old) }
    {
        let mut request = self.request(r);
        if request.is_under_way() {
            return Err(ReqFault::InUse);
        }
        request.command = cmd;
        request.secs = secs;
        request.micros = micros;
        self.replace(r, request);
        Ok(())
    }

    // ---- beginning and finishing

    /// Begins a request, with IOF_QUICK set or not, when the clock reports `now` and system time is `sys`, both in
    /// microseconds. Its error becomes 0, and it is in progress until `finish`. TR_ADDREQUEST (9) clears IOF_QUICK if
    /// it is to wait: for a positive time to be over, or, on UNIT_WAITUNTIL, for a system time that is still to come.
    /// TR_GETSYSTIME (10) puts system time into the time field, its seconds modulo 2 to the power 32 (project rule).
    ///
    /// Answers how it goes on: `Queue` with the time of the clock when it is due; `Until` with the system time when it
    /// is due; `NewTime` for TR_SETSYSTIME (11), with what system time becomes: the caller sets it, and finishes the
    /// request with error 0; or `Finish` with its error, which is IOERR_NOCMD (-3) for a command that the timer does
    /// not know. It is InUse if the request is in progress, and NotOpen if it is not open (project rule). The sum of
    /// the clock and the request's time is below 2 to the power 64. Autodoc timer.device: TR_ADDREQUEST, TR_GETSYSTIME,
    /// TR_SETSYSTIME; RKM Devices, Timer Device: UNIT_WAITUNTIL.
    pub fn begin(&mut self, r: ReqId, quick: bool, now: u64, sys: u64) -> Result<Begun, ReqFault>
        requires live { IsTrue (is_request r self.old) }
        requires clock { now + time_of (request_at r self.old) < 2 ^ 64 }
        ensures answer { result ≡ fault_or (begin_fault r self.old) (outcome now sys (request_at r self.old)) }
        ensures next { self.new ≡ kept_or (begin_fault r self.old) self.old
            (with_request r (in_progress quick sys (request_at r self.old)) self.old) }
    {
        let request = self.request(r);
        if request.is_under_way() {
            return Err(ReqFault::InUse);
        }
        if !request.is_open() {
            return Err(ReqFault::NotOpen);
        }
        self.put_under_way(r, request.begun(quick, sys));
        Ok(request.outcome(now, sys))
    }

    /// Finishes a request that is in progress, with an error: one whose IOF_QUICK is set is done quick, any other is
    /// replied.
    ///
    /// Answers the reply port, to which the caller replies it, or none if it is done quick.
    /// RKM Devices, Introduction to Amiga System Devices: quick I/O.
    pub fn finish(&mut self, r: ReqId, error: i8) -> Option<u32>
        requires { IsTrue (is_under_way (request_at r self.old)) }
        ensures answer { result ≡ reply_port (request_at r self.old) }
        ensures next { self.new ≡ with_request r (finished error (request_at r self.old)) self.old }
    {
        let mut request = self.request(r);
        request.error = error;
        if request.quick {
            request.state = ReqState::Quick;
            self.end(r, request);
            None
        } else {
            request.state = ReqState::Replied;
            self.end(r, request);
            Some(request.port)
        }
    }

    // ---- reading

    /// Answers whether there is a request of that number: whether the calls that ask for one may be made. Project rule.
    pub fn is_request(&self, r: ReqId) -> bool
        ensures { result ≡ is_request r self.now }
    {
        self.requests.get(r).is_some()
    }

    /// Answers how far a request has come. RKM Devices, Introduction to Amiga System Devices.
    pub fn state(&self, r: ReqId) -> ReqState
        requires { IsTrue (is_request r self.now) }
        ensures { result ≡ (request_at r self.now).state }
    {
        self.request(r).state
    }

    /// Answers whether a request is open. Project rule: Exec cannot say.
    pub fn is_open(&self, r: ReqId) -> bool
        requires { IsTrue (is_request r self.now) }
        ensures { result ≡ is_opened (request_at r self.now) }
    {
        self.request(r).is_open()
    }

    /// Answers a request's reply port. RKM Devices, Introduction to Amiga System Devices: `mn_ReplyPort`.
    pub fn reply_port(&self, r: ReqId) -> u32
        requires { IsTrue (is_request r self.now) }
        ensures { result ≡ (request_at r self.now).port }
    {
        self.request(r).port
    }

    /// Answers a request's error: 0, or why it failed. RKM Devices, Introduction to Amiga System Devices: `io_Error`.
    pub fn error(&self, r: ReqId) -> i8
        requires { IsTrue (is_request r self.now) }
        ensures { result ≡ (request_at r self.now).error }
    {
        self.request(r).error
    }

    /// Answers the seconds of a request's time field. RKM Devices, Timer Device: `tv_secs`.
    pub fn secs(&self, r: ReqId) -> u32
        requires { IsTrue (is_request r self.now) }
        ensures { result ≡ (request_at r self.now).secs }
    {
        self.request(r).secs
    }

    /// Answers the microseconds of a request's time field. RKM Devices, Timer Device: `tv_micro`.
    pub fn micros(&self, r: ReqId) -> u32
        requires { IsTrue (is_request r self.now) }
        ensures { result ≡ (request_at r self.now).micros }
    {
        self.request(r).micros
    }

    /// Answers whether IOF_QUICK of a request is set. RKM Devices, Introduction to Amiga System Devices: `io_Flags`.
    pub fn quick(&self, r: ReqId) -> bool
        requires { IsTrue (is_request r self.now) }
        ensures { result ≡ (request_at r self.now).quick }
    {
        self.request(r).quick
    }

    /// Answers whether a request with that reply port is in progress. Project rule: Exec cannot say.
    pub fn under_way(&self, port: u32) -> bool
        ensures { result ≡ list_any (is_under_way_at port) self.now.slots }
    {
        if self.counts[key_of(port, self.counts.len())] == 0 {
            return false;
        }
        for r in 0..self.room {
            if is_under_way_at(port, self.requests.get(r)) {
                return true;
            }
        }
        false
    }

    /// Does nothing: its clause is what always holds of the number that is next.
    pub fn facts(&self)
        ensures { IsStocked self.now }
    {
        self.requests.facts();
    }

    // Request r, which is not in progress, is another one that is not.
    fn replace(&mut self, r: ReqId, request: Request)
        requires live { IsTrue (is_request r self.old) }
        requires before { is_under_way (request_at r self.old) ≡ false }
        requires after { is_under_way request ≡ false }
        ensures { self.new ≡ with_request r request self.old }
    {
        self.requests.set(r, request);
    }

    // Request r, which is not in progress, is another one that is.
    fn put_under_way(&mut self, r: ReqId, request: Request)
        requires live { IsTrue (is_request r self.old) }
        requires before { is_under_way (request_at r self.old) ≡ false }
        requires after { is_under_way request ≡ true }
        ensures { self.new ≡ with_request r request self.old }
    {
        self.requests.set(r, request);
        let key = key_of(request.port, self.counts.len());
        self.counts[key] += 1;
    }

    // Request r, which is in progress, is another one of its reply port that is not.
    fn end(&mut self, r: ReqId, request: Request)
        requires live { IsTrue (is_request r self.old) }
        requires before { is_under_way (request_at r self.old) ≡ true }
        requires after { is_under_way request ≡ false }
        requires port { request.port ≡ (request_at r self.old).port }
        ensures { self.new ≡ with_request r request self.old }
    {
        self.requests.set(r, request);
        let key = key_of(request.port, self.counts.len());
        self.counts[key] -= 1;
    }

    /// A request; if there is none of that number, an idle one with no reply port.
    ///
    /// Source: RKM Devices, Timer Device: `struct timerequest`.
    pub fn request_at(&self, r: ReqId) -> Request
        ensures { result ≡ request_at r self.now }
    {
        match self.requests.get(r) {
            Some(request) => request,
            None => Request::idle(0),
        }
    }

    // A request.
    fn request(&self, r: ReqId) -> Request
        requires { IsTrue (is_request r self.now) }
        ensures { result ≡ request_at r self.now }
    {
        self.requests.get(r).unwrap()
    }
}

// The number of keys for this number of requests: at least one.
fn keys_for(requests: usize) -> usize
    ensures { 0 < result }
{
    if requests == 0 { 1 } else { requests }
}

// The key of a reply port, below `keys`.
fn key_of(port: u32, keys: usize) -> usize
    requires { 0 < keys }
    ensures value { result ≡ key_of keys port }
    ensures within { result < keys }
{
    port as usize / 8 % keys
}

// The error of opening a unit.
fn unit_error(unit: Option<u32>) -> i8
    ensures { result ≡ unit_error unit }
{
    match unit {
        None => IOERR_OPENFAIL,
        Some(unit) => {
            if unit <= UNIT_VBLANK || unit == UNIT_WAITUNTIL {
                0
            } else {
                IOERR_OPENFAIL
            }
        }
    }
}

// Whether a number of the pool holds a request with that reply port that is in progress.
fn is_under_way_at(port: u32, held: Option<Request>) -> bool
    ensures { result ≡ is_under_way_at port held }
{
    match held {
        None => false,
        Some(request) => request.port == port && request.is_under_way(),
    }
}
