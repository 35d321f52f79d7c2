//! Requests and the timer: by number, with the blocks in which they live and their replies; how they are found by
//! address; and the calls by address (RKM Devices, Introduction to Amiga System Devices; Devices, timer device).
ghost use Rattle.std.specs.Prelude.{◌≡◌, ◌<◌, ◌≤◌, ◌+◌, ◌^◌, false, negsuc, None, Some, IfSome, IsSome, IsTrue, length, option_map, IfOk, true, OnErr, OnOk};
ghost use Rattle.execlist.specs.{Lists.home, Pool.slot};
ghost use Rattle.iorequest.specs.{declared.request.ReqState.TheVariants.Replied, Request.finished, Request.idle_request, Request.is_opened, Request.is_under_way, Request.reply_port, Request.time_of, Requests.closed, Requests.is_request, Requests.opened, Requests.request_at, Requests.unit_error, Requests.with_request, Requests.written_with};
ghost use Rattle.msgport.specs.Ports.{is_message, is_port, is_queued};
ghost use Rattle.timerdev.specs.Timing.{due_next, looked_at, clock_ticked, until_next};
ghost use Rattle.execmodel.specs.{State.Request, State.on_heap, State.on_timer, Memory.freed, Memory.placed, LowMemory.after_asking_for_object, Objects.place_for_object, Ports.port_of, Ports.port_alert};
ghost use Rattle.execheap.specs.{Changes.reserved, Numbered.IsKnown, Numbered.message_of_request, Numbered.places, Numbered.shown_memory, Numbered.shown_heap, Requesting.on_requests, Requesting.on_timing, Refusals.alert_of, Listing.IsSignal, Listing.aborted, Listing.aborting, Listing.acting_begun, Listing.awaited_for, Listing.ended_if, Listing.finishing, Listing.taken_if_replied};
ghost use Rattle.execmodel.specs.Requests as model;
ghost use Rattle.execheap.specs.declared.tag.Kind.TheVariants as variant;
ghost use Rattle.execheap.specs.Requesting as next;

use crate::awaited::Awaited;
use crate::heap::Heap;
use crate::objects::Objects;
use crate::refusal::Refusal;
use crate::table::Table;
use crate::tag::Kind;
use execlist::space::ListSpace;
use iorequest::request::{Begun, ReqState};
use iorequest::requests::{ReqId, Requests};
use msgport::action::{Action, TaskId};
use msgport::ports::{MsgId, Ports};

/// IOERR_ABORTED (exec/errors.h).
const IOERR_ABORTED: i8 = -2;

/// The ports with a message more for each request.
pub(crate) fn with_requests<S: ListSpace>(mut ports: Ports<S>, requests: usize) -> Ports<S>
    requires { requests ≤ length ports.messages.free }
    ensures { result ≡ reserved requests ports }
{
    for _made in 0..requests {
        ports.make_msg(0, 0).unwrap();
    }
    ports
}

impl<S: ListSpace> Objects<S> {
    /// The requests.
    pub fn requests(&self) -> &Requests
        ensures { result.now ≡ self.now.requests }
    {
        &self.requests
    }

    /// The number of a request as a message.
    pub fn message_of(&self, r: ReqId) -> MsgId
        requires { IsTrue (is_request r self.now.requests) }
        ensures value { result ≡ message_of_request r self.now }
        ensures known { IsKnown self.now }
    {
        self.facts();
        self.table.pool() + r
    }

    // ---- made and freed

    /// A new request with that reply port, which is idle and not open, if the pool has one left and its block fits, at
    /// once or after libraries were asked for memory: its address.
    ///
    /// Source: autodoc exec.library/CreateIORequest.
    pub fn make_request(&mut self, port: u32) -> Option<u32>
        ensures address { result ≡ place_for_object model.is_request model.request_size (after_asking_for_object model.is_request model.request_size (shown_memory self.old)) }
        ensures next { shown_memory self.new ≡ placed model.request_size (Request (idle_request port)) result (after_asking_for_object model.is_request model.request_size (shown_memory self.old)) }
    {
        self.facts();
        let (_, request) = self.table.make(Kind::Request)?;
        self.requests.create(port).unwrap();
        Some(request)
    }

    /// Frees a request that is not in progress and whose reply is in no port.
    ///
    /// Source: autodoc exec.library/DeleteIORequest.
    pub fn free_request(&mut self, r: ReqId, address: u32)
        requires live { slot (places variant.Request self.old) r ≡ Some address }
        requires rests { is_under_way (request_at r self.old.requests) ≡ false }
        requires loose { home self.old.ports.places (message_of_request r self.old) ≡ None }
        ensures { shown_memory self.new ≡ freed address (shown_memory self.old) }
    {
        self.facts();
        self.table.free(Kind::Request, r, address);
        self.requests.delete(r).unwrap();
    }

    // ---- opening and writing

    /// Opens a request that is not in progress for a unit of the timer, none if another device is meant, and answers
    /// the error.
    ///
    /// Source: autodoc exec.library/OpenDevice.
    pub fn open_request(&mut self, r: ReqId, unit: Option<u32>) -> i8
        requires live { IsTrue (is_request r self.old.requests) }
        requires rests { is_under_way (request_at r self.old.requests) ≡ false }
        ensures answer { result ≡ unit_error unit }
        ensures next { self.new ≡ on_requests (opened r unit) self.old }
    {
        self.requests.open_device(r, unit).unwrap()
    }

    /// Leaves a request that is not in progress not open.
    ///
    /// Source: autodoc exec.library/CloseDevice.
    pub fn close_request(&mut self, r: ReqId)
        requires live { IsTrue (is_request r self.old.requests) }
        requires rests { is_under_way (request_at r self.old.requests) ≡ false }
        ensures { self.new ≡ on_requests (closed r) self.old }
    {
        self.requests.close_device(r).unwrap();
    }

    /// Gives a request that is not in progress a command and a time.
    ///
    /// Source: RKM Devices, Introduction to Amiga System Devices: `io_Command`; RKM Devices, timer device: `tr_time`.
    pub fn set_request(&mut self, r: ReqId, command: u16, secs: u32, micros: u32)
        requires live { IsTrue (is_request r self.old.requests) }
        requires rests { is_under_way (request_at r self.old.requests) ≡ false }
        ensures { self.new ≡ on_requests (written_with command secs micros r) self.old }
    {
        self.requests.set(r, command, secs, micros).unwrap();
    }

    // ---- begun and finished

    /// Begins a request with IOF_QUICK set or not, and answers what is to be done for its reply, if it is done at once.
    ///
    /// Source: RKM Devices, timer device, and autodocs exec.library/DoIO and exec.library/SendIO.
    pub fn begin_request(&mut self, r: ReqId, quick: bool) -> Action
        requires live { IsTrue (is_request r self.old.requests) }
        requires rests { is_under_way (request_at r self.old.requests) ≡ false }
        requires open { IsTrue (is_opened (request_at r self.old.requests)) }
        requires loose { home self.old.ports.places (message_of_request r self.old) ≡ None }
        ensures answer { result ≡ next.acting_so (next.goes_on r self.old) quick r self.old }
        ensures next { self.new ≡ next.begun_now quick r self.old }
    {
        let message = self.message_of(r);
        self.time_is_short(r);
        match self
            .requests
            .begin(r, quick, self.timer.now(), self.timer.sys_now())
            .unwrap()
        {
            Begun::Queue(due) => {
                self.ports.hold(message).unwrap();
                self.timer.add(r, due);
                Action::Nothing
            }
            Begun::Until(time) => {
                self.ports.hold(message).unwrap();
                self.timer.add_until(r, time);
                Action::Nothing
            }
            Begun::Finish(error) => finish(
                &self.table,
                &mut self.requests,
                &mut self.ports,
                r,
                error,
                message,
            ),
            Begun::NewTime(time) => {
                self.timer.set_sys(time);
                finish(
                    &self.table,
                    &mut self.requests,
                    &mut self.ports,
                    r,
                    0,
                    message,
                )
            }
        }
    }

    /// The time of a request is no longer than its seconds and microseconds can say.
    fn time_is_short(&self, r: ReqId)
        requires { IsTrue (is_request r self.now.requests) }
        ensures { time_of (request_at r self.now.requests) < 2 ^ 53 }
    {
        let _ = self.requests.secs(r);
        let _ = self.requests.micros(r);
    }

    /// Ends a request that is in progress with IOERR_ABORTED, and answers what is to be done for its reply.
    ///
    /// Source: autodoc exec.library/AbortIO.
    pub fn abort_request(&mut self, r: ReqId) -> Action
        requires live { IsTrue (is_request r self.old.requests) }
        requires under_way { IsTrue (is_under_way (request_at r self.old.requests)) }
        ensures answer { result ≡ next.acting_ended r self.old }
        ensures next { self.new ≡ next.ended (negsuc 1) r self.old }
    {
        let message = self.message_of(r);
        self.timer.cancel(r);
        finish(
            &self.table,
            &mut self.requests,
            &mut self.ports,
            r,
            IOERR_ABORTED,
            message,
        )
    }

    /// Ends the first request whose time has come, if there is one, with error 0, and answers its number and what is to
    /// be done for its reply.
    ///
    /// Source: RKM Devices, timer device: TR_ADDREQUEST.
    pub fn finish_due(&mut self) -> Option<(ReqId, Action)>
        ensures answer { result ≡ option_map (λ r. (r, next.acting_ended r self.old)) (due_next self.old.timing.timer) }
        ensures live { IfSome result (λ pair. IsSome (slot (places variant.Request self.new) pair.0)) }
        ensures next { self.new ≡ next.ended_if (due_next self.old.timing.timer) self.old }
    {
        self.facts();
        let r = self.timer.due()?;
        let message = self.table.pool() + r;
        let action = finish(
            &self.table,
            &mut self.requests,
            &mut self.ports,
            r,
            0,
            message,
        );
        Some((r, action))
    }

    /// The same of the first request that waits for system time.
    ///
    /// Source: RKM Devices, timer device: UNIT_WAITUNTIL.
    pub fn finish_until(&mut self) -> Option<(ReqId, Action)>
        ensures answer { result ≡ option_map (λ r. (r, next.acting_ended r self.old)) (until_next self.old.timing.timer) }
        ensures live { IfSome result (λ pair. IsSome (slot (places variant.Request self.new) pair.0)) }
        ensures next { self.new ≡ next.ended_if (until_next self.old.timing.timer) self.old }
    {
        self.facts();
        let r = self.timer.due_until()?;
        let message = self.table.pool() + r;
        let action = finish(
            &self.table,
            &mut self.requests,
            &mut self.ports,
            r,
            0,
            message,
        );
        Some((r, action))
    }

    // ---- looked for

    /// Takes the reply of a request that is replied out of the port that has it; any other stays as it is.
    ///
    /// Source: autodoc exec.library/WaitIO.
    pub fn take_reply(&mut self, r: ReqId)
        requires live { IsTrue (is_request r self.old.requests) }
        requires queued { (request_at r self.old.requests).state ≡ Replied → IsSome (home self.old.ports.places (message_of_request r self.old)) }
        ensures { self.new ≡ next.reply_out (request_at r self.old.requests).state r self.old }
    {
        let message = self.message_of(r);
        match self.requests.state(r) {
            ReqState::Replied => self.ports.take_out(message).unwrap(),
            ReqState::Idle | ReqState::UnderWay | ReqState::Quick => {}
        }
    }

    /// What a task gets that looks for a request, whose reply port signals the task by the signal of that number.
    ///
    /// Source: autodoc exec.library/WaitIO.
    pub fn looked_for(&self, r: ReqId, bit: u32) -> Awaited
        requires { IsTrue (is_request r self.now.requests) }
        ensures { result ≡ next.looked_for (request_at r self.now.requests) bit }
    {
        if self.is_under_way(r) {
            Awaited::UnderWay(bit)
        } else {
            Awaited::Done(self.requests.error(r))
        }
    }

    /// Whether a request is in progress.
    ///
    /// Source: autodoc exec.library/CheckIO.
    pub fn is_under_way(&self, r: ReqId) -> bool
        requires { IsTrue (is_request r self.now.requests) }
        ensures { result ≡ is_under_way (request_at r self.now.requests) }
    {
        matches!(self.requests.state(r), ReqState::UnderWay)
    }

    // ---- the clock, and system time

    /// Clock and system time gain the microseconds of a tick. The clock stays so far below 2 to the power 64 that
    /// system time and the longest time of a request can be added to it, which are less than 2 to the power 54.
    ///
    /// Source: RKM Devices, timer device: UNIT_VBLANK; that ticks alone move the clock is a project rule.
    pub fn tick(&mut self)
        requires { self.old.timing.timer.clock + self.old.timing.timer.tick_micros + 2 ^ 54 ≤ 2 ^ 64 }
        ensures { self.new ≡ on_timing clock_ticked self.old }
    {
        self.timer.tick();
    }

    /// Whether system time was set since this was asked last.
    ///
    /// Source: RKM Devices, timer device: TR_SETSYSTIME.
    pub fn take_setting(&mut self) -> bool
        ensures value { result ≡ self.old.timing.timer.is_set }
        ensures next { self.new ≡ on_timing looked_at self.old }
    {
        self.timer.take_setting()
    }

    // ---- found by address; or why the call is refused

    /// The request that begins at an address.
    pub fn request_at(&self, request: u32) -> Result<ReqId, Refusal>
        ensures alert { alert_of result ≡ model.request_alert request (shown_heap self.now) }
        ensures found { IfOk result (λ r. slot (places variant.Request self.now) r ≡ Some request) }
        ensures live { IfOk result (λ r. IsTrue (is_request r self.now.requests)) }
        ensures content { IfOk result (λ r. request_at r self.now.requests ≡ model.request_of request (shown_heap self.now)) }
        ensures known { IsKnown self.now }
    {
        match self.number_at(Kind::Request, request) {
            Some(r) => Ok(r),
            None => Err(Refusal::Handle),
        }
    }

    /// The request that begins at an address, which is not in progress.
    pub fn idle_request_at(&self, request: u32) -> Result<ReqId, Refusal>
        ensures alert { alert_of result ≡ model.resting_alert request (shown_heap self.now) }
        ensures found { IfOk result (λ r. slot (places variant.Request self.now) r ≡ Some request) }
        ensures live { IfOk result (λ r. IsTrue (is_request r self.now.requests)) }
        ensures content { IfOk result (λ r. request_at r self.now.requests ≡ model.request_of request (shown_heap self.now)) }
        ensures rests { IfOk result (λ r. is_under_way (request_at r self.now.requests) ≡ false) }
        ensures known { IsKnown self.now }
    {
        let r = self.request_at(request)?;
        let begun = self.is_under_way(r);
        if begun { Err(Refusal::Io) } else { Ok(r) }
    }

    /// The request that begins at an address, which is not in progress and whose reply is in no port.
    pub fn request_to_delete(&self, request: u32) -> Result<ReqId, Refusal>
        ensures alert { alert_of result ≡ model.delete_request_alert request (shown_heap self.now) }
        ensures found { IfOk result (λ r. slot (places variant.Request self.now) r ≡ Some request) }
        ensures rests { IfOk result (λ r. is_under_way (request_at r self.now.requests) ≡ false) }
        ensures loose { IfOk result (λ r. home self.now.ports.places (message_of_request r self.now) ≡ None) }
        ensures known { IsKnown self.now }
    {
        let r = self.idle_request_at(request)?;
        let queued = self.is_reply_queued(r);
        if queued { Err(Refusal::Link) } else { Ok(r) }
    }

    /// The request that begins at an address, which may begin but for its reply port: it is not in progress, open, and
    /// its reply is in no port.
    fn request_to_begin(&self, request: u32) -> Result<ReqId, Refusal>
        ensures alert { alert_of result ≡ model.begin_alert None request (shown_heap self.now) }
        ensures found { IfOk result (λ r. slot (places variant.Request self.now) r ≡ Some request) }
        ensures live { IfOk result (λ r. IsTrue (is_request r self.now.requests)) }
        ensures content { IfOk result (λ r. request_at r self.now.requests ≡ model.request_of request (shown_heap self.now)) }
        ensures rests { IfOk result (λ r. is_under_way (request_at r self.now.requests) ≡ false) }
        ensures open { IfOk result (λ r. IsTrue (is_opened (request_at r self.now.requests))) }
        ensures loose { IfOk result (λ r. home self.now.ports.places (message_of_request r self.now) ≡ None) }
        ensures known { IsKnown self.now }
    {
        let r = self.idle_request_at(request)?;
        let open = self.requests().is_open(r);
        let queued = self.is_reply_queued(r);
        if !open {
            Err(Refusal::Io)
        } else if queued {
            Err(Refusal::Link)
        } else {
            Ok(r)
        }
    }

    /// The request that begins at an address and may be sent: it may begin, and its reply port lives.
    pub fn request_to_send(&self, request: u32) -> Result<ReqId, Refusal>
        ensures alert { alert_of result ≡ model.send_alert request (shown_heap self.now) }
        ensures found { IfOk result (λ r. slot (places variant.Request self.now) r ≡ Some request) }
        ensures live { IfOk result (λ r. IsTrue (is_request r self.now.requests)) }
        ensures content { IfOk result (λ r. request_at r self.now.requests ≡ model.request_of request (shown_heap self.now)) }
        ensures rests { IfOk result (λ r. is_under_way (request_at r self.now.requests) ≡ false) }
        ensures open { IfOk result (λ r. IsTrue (is_opened (request_at r self.now.requests))) }
        ensures loose { IfOk result (λ r. home self.now.ports.places (message_of_request r self.now) ≡ None) }
        ensures known { IsKnown self.now }
    {
        let r = self.request_to_begin(request)?;
        self.port_at(self.requests().reply_port(r))?;
        Ok(r)
    }

    /// The request that begins at an address and that a task may do: it may begin, and its reply port signals the task
    /// by the signal of the number that is answered.
    pub fn request_to_do(&self, task: TaskId, request: u32) -> Result<(ReqId, u32), Refusal>
        ensures alert { alert_of result ≡ model.do_alert task request (shown_heap self.now) }
        ensures found { IfOk result (λ pair. slot (places variant.Request self.now) pair.0 ≡ Some request) }
        ensures live { IfOk result (λ pair. IsTrue (is_request pair.0 self.now.requests)) }
        ensures content { IfOk result (λ pair. request_at pair.0 self.now.requests ≡ model.request_of request (shown_heap self.now)) }
        ensures rests { IfOk result (λ pair. is_under_way (request_at pair.0 self.now.requests) ≡ false) }
        ensures open { IfOk result (λ pair. IsTrue (is_opened (request_at pair.0 self.now.requests))) }
        ensures loose { IfOk result (λ pair. home self.now.ports.places (message_of_request pair.0 self.now) ≡ None) }
        ensures bit { IfOk result (λ pair. pair.1 ≡ (port_of (model.request_of request (shown_heap self.now)).port (shown_heap self.now)).bit) }
        ensures signal { IfOk result (λ pair. pair.1 < 32) }
        ensures known { IsKnown self.now }
    {
        let r = self.request_to_begin(request)?;
        let (_, bit) = self.port_to_wait_at(task, self.requests().reply_port(r))?;
        Ok((r, bit))
    }

    /// The request that begins at an address and that a task may wait for: it was begun; if it is in progress, its
    /// reply port signals the task, by the signal of the number that is answered; if it is replied, its reply is in a
    /// port.
    pub fn request_to_wait_for(&self, task: TaskId, request: u32) -> Result<(ReqId, u32), Refusal>
        ensures alert { alert_of result ≡ model.wait_io_alert task request (shown_heap self.now) }
        ensures found { IfOk result (λ pair. slot (places variant.Request self.now) pair.0 ≡ Some request) }
        ensures live { IfOk result (λ pair. IsTrue (is_request pair.0 self.now.requests)) }
        ensures content { IfOk result (λ pair. request_at pair.0 self.now.requests ≡ model.request_of request (shown_heap self.now)) }
        ensures bit { IfOk result (λ pair. IsTrue (is_under_way (request_at pair.0 self.now.requests))
            → pair.1 ≡ (port_of (model.request_of request (shown_heap self.now)).port (shown_heap self.now)).bit) }
        ensures signal { IfOk result (λ pair. pair.1 < 32) }
        ensures queued { IfOk result (λ pair. (request_at pair.0 self.now.requests).state ≡ Replied
            → IsSome (home self.now.ports.places (message_of_request pair.0 self.now))) }
        ensures known { IsKnown self.now }
    {
        let r = self.request_at(request)?;
        match self.requests().state(r) {
            ReqState::Idle => Err(Refusal::Io),
            ReqState::Quick => Ok((r, 0)),
            ReqState::UnderWay => {
                let (_, bit) = self.port_to_wait_at(task, self.requests().reply_port(r))?;
                Ok((r, bit))
            }
            ReqState::Replied => {
                let queued = self.is_reply_queued(r);
                if queued {
                    Ok((r, 0))
                } else {
                    Err(Refusal::Link)
                }
            }
        }
    }

    /// Whether the reply of a request is in a port.
    fn is_reply_queued(&self, r: ReqId) -> bool
        requires { IsTrue (is_request r self.now.requests) }
        ensures value { result ≡ is_queued (message_of_request r self.now) self.now.ports }
        ensures known { IsKnown self.now }
    {
        self.facts();
        self.ports().is_queued(self.message_of(r))
    }
}

/// Finishes a request that is in progress with an error, puts its message as a reply at its reply port, if it has one
/// that lives and is not done quick, and answers what is to be done for it. The message is not held any more.
fn finish<S: ListSpace>(
    table: &Table<S>,
    requests: &mut Requests,
    ports: &mut Ports<S>,
    r: ReqId,
    error: i8,
    message: MsgId,
) -> Action
    requires under_way { IsTrue (is_under_way (request_at r requests.old)) }
    requires port { IfSome (next.port_number (reply_port (request_at r requests.old)) table.now) (λ p. IsTrue (is_port p ports.old)) }
    requires message { IsTrue (is_message message ports.old) }
    requires loose { home ports.old.places message ≡ None }
    ensures answer { result ≡ next.acting_at (next.port_number (reply_port (request_at r requests.old)) table.now) ports.old }
    ensures requests { requests.new ≡ with_request r (finished error (request_at r requests.old)) requests.old }
    ensures ports { ports.new ≡ next.put_at (next.port_number (reply_port (request_at r requests.old)) table.now) message ports.old }
{
    let port = match requests.finish(r, error) {
        Some(address) => table.number_at(Kind::Port, address),
        None => None,
    };
    match port {
        Some(p) => ports.reply(p, message).unwrap(),
        None => {
            ports.let_go(message);
            Action::Nothing
        }
    }
}

impl<S: ListSpace> Heap<S> {
    // ---- made and freed

    /// Makes a request with a reply port, which is idle and not open, and answers its address; none if the pool has no
    /// request left, which asks nothing, or its block fits nowhere, even after libraries were asked for memory. It is
    /// refused if no port begins at the reply port (Handle). Autodoc exec.library/CreateIORequest; the refusal: project
    /// rule.
    pub fn new_request(&mut self, port: u32) -> Result<Option<u32>, Refusal>
        ensures alert { alert_of result ≡ port_alert port self.old.heap }
        ensures address { IfOk result (λ place. place ≡ place_for_object model.is_request model.request_size (after_asking_for_object model.is_request model.request_size self.old)) }
        ensures next { IfOk result (λ place. self.new ≡ placed model.request_size (Request (idle_request port)) place (after_asking_for_object model.is_request model.request_size self.old)) }
        ensures kept { OnErr result (self.new ≡ self.old) }
    {
        self.objects.port_at(port)?;
        Ok(self.objects.make_request(port))
    }

    /// Answers whether a request begins at an address. Project rule.
    pub fn is_request(&self, request: u32) -> bool
        ensures { result ≡ model.is_request_at request self.now.heap }
    {
        self.objects.number_at(Kind::Request, request).is_some()
    }

    /// Frees a request. It is refused if no request begins at the address (Handle), if it is in progress (Io), and if
    /// its reply is queued (Link). Autodoc exec.library/DeleteIORequest; the refusals: project rule.
    pub fn delete_request(&mut self, request: u32) -> Result<(), Refusal>
        ensures alert { alert_of result ≡ model.delete_request_alert request self.old.heap }
        ensures next { OnOk result (self.new ≡ freed request self.old) }
        ensures kept { OnErr result (self.new ≡ self.old) }
    {
        let r = self.objects.request_to_delete(request)?;
        self.objects.free_request(r, request);
        Ok(())
    }

    // ---- opening and writing

    /// Opens a request for a unit of timer.device, none if another device is meant, and answers the error, which the
    /// request has then: 0, or IOERR_OPENFAIL (-1), and it is then not open. It is refused if no request begins at the
    /// address (Handle), and if it is in progress (Io). Autodoc exec.library/OpenDevice; the refusals: project rule.
    pub fn open_device(&mut self, request: u32, unit: Option<u32>) -> Result<i8, Refusal>
        ensures alert { alert_of result ≡ model.resting_alert request self.old.heap }
        ensures answer { IfOk result (λ error. error ≡ unit_error unit) }
        ensures next { OnOk result (self.new ≡ on_heap (model.opened_for unit request) self.old) }
        ensures kept { OnErr result (self.new ≡ self.old) }
    {
        let r = self.objects.idle_request_at(request)?;
        Ok(self.objects.open_request(r, unit))
    }

    /// Leaves a request not open. It is refused if no request begins at the address (Handle), and if it is in progress
    /// (Io). Autodoc exec.library/CloseDevice; the refusals: project rule.
    pub fn close_device(&mut self, request: u32) -> Result<(), Refusal>
        ensures alert { alert_of result ≡ model.resting_alert request self.old.heap }
        ensures next { OnOk result (self.new ≡ on_heap (model.closed_device request) self.old) }
        ensures kept { OnErr result (self.new ≡ self.old) }
    {
        let r = self.objects.idle_request_at(request)?;
        self.objects.close_request(r);
        Ok(())
    }

    /// Gives a request a command and a time in seconds and microseconds. It is refused if no request begins at the
    /// address (Handle), and if it is in progress (Io). RKM Devices, Introduction to Amiga System Devices:
    /// `io_Command`; Devices, timer device: `tr_time`; the refusals: project rule.
    pub fn set_request(
        &mut self,
        request: u32,
        command: u16,
        secs: u32,
        micros: u32,
    ) -> Result<(), Refusal>
        ensures alert { alert_of result ≡ model.resting_alert request self.old.heap }
        ensures next { OnOk result (self.new ≡ on_heap (model.with_command command secs micros request) self.old) }
        ensures kept { OnErr result (self.new ≡ self.old) }
    {
        let r = self.objects.idle_request_at(request)?;
        self.objects.set_request(r, command, secs, micros);
        Ok(())
    }

    // ---- beginning

    /// Begins a request with IOF_QUICK cleared, and answers what is to be done for its reply, if it is done at once;
    /// else it waits for its time. TR_SETSYSTIME is done at once, and system time is then the time of the request. It
    /// is refused if no request begins at the address (Handle), if it is in progress or not open (Io), if its reply is
    /// queued (Link), and if its reply port does not live (Handle). Autodocs exec.library/SendIO and timer.device:
    /// TR_SETSYSTIME; the refusals: project rule.
    pub fn send_request(&mut self, request: u32) -> Result<Action, Refusal>
        ensures alert { alert_of result ≡ model.send_alert request self.old.heap }
        ensures answer { IfOk result (λ action. action ≡ acting_begun false request self.old) }
        ensures next { OnOk result (self.new ≡ model.begun_at false request self.old) }
        ensures kept { OnErr result (self.new ≡ self.old) }
    {
        let r = self.objects.request_to_send(request)?;
        Ok(self.objects.begin_request(r, false))
    }

    /// Begins a request with IOF_QUICK set, and answers its error, if it is done at once; else it waits for its time,
    /// and the answer is the number of the signal by which its reply port notifies the task (0 to 31). It is refused as
    /// by `send_request`, and if the reply port does not signal the task (Port). Autodoc exec.library/DoIO; the
    /// refusals: project rule.
    pub fn do_request(&mut self, task: TaskId, request: u32) -> Result<Awaited, Refusal>
        ensures alert { alert_of result ≡ model.do_alert task request self.old.heap }
        ensures answer { IfOk result (λ answer. answer ≡ awaited_for request self.new.heap) }
        ensures signal { IfOk result IsSignal }
        ensures next { OnOk result (self.new ≡ model.begun_at true request self.old) }
        ensures kept { OnErr result (self.new ≡ self.old) }
    {
        let (r, bit) = self.objects.request_to_do(task, request)?;
        self.objects.begin_request(r, true);
        Ok(self.objects.looked_for(r, bit))
    }

    // ---- waiting and aborting

    /// Answers whether a request is in progress. It is refused if no request begins at the address (Handle). Autodoc
    /// exec.library/CheckIO; the refusal: project rule.
    pub fn is_under_way(&self, request: u32) -> Result<bool, Refusal>
        ensures alert { alert_of result ≡ model.request_alert request self.now.heap }
        ensures answer { IfOk result (λ answer. answer ≡ is_under_way (model.request_of request self.now.heap)) }
    {
        let r = self.objects.request_at(request)?;
        Ok(self.objects.is_under_way(r))
    }

    /// Answers the error of a request that is done, and takes its reply, if it has one, out of its reply port; for one
    /// that is in progress the number of the signal by which its reply port notifies the task (0 to 31). It is refused
    /// if no request begins at the address (Handle), if it never was begun (Io), if it is replied and its reply is not
    /// queued (Link), and if it is in progress and its reply port does not signal the task (Port). Autodoc
    /// exec.library/WaitIO; the refusals: project rule.
    pub fn wait_for_request(&mut self, task: TaskId, request: u32) -> Result<Awaited, Refusal>
        ensures alert { alert_of result ≡ model.wait_io_alert task request self.old.heap }
        ensures answer { IfOk result (λ answer. answer ≡ awaited_for request self.old.heap) }
        ensures signal { IfOk result IsSignal }
        ensures next { OnOk result (self.new ≡ on_heap (taken_if_replied request) self.old) }
        ensures kept { OnErr result (self.new ≡ self.old) }
    {
        let (r, bit) = self.objects.request_to_wait_for(task, request)?;
        self.objects.take_reply(r);
        Ok(self.objects.looked_for(r, bit))
    }

    /// Ends a request that is in progress with IOERR_ABORTED (-2), and answers what is to be done for its reply; none,
    /// and nothing changes, if it is not in progress. It is refused if no request begins at the address (Handle).
    /// Autodoc exec.library/AbortIO; the refusal: project rule.
    pub fn abort_request(&mut self, request: u32) -> Result<Option<Action>, Refusal>
        ensures alert { alert_of result ≡ model.request_alert request self.old.heap }
        ensures answer { IfOk result (λ answer. answer ≡ aborting request self.old.heap) }
        ensures next { OnOk result (self.new ≡ aborted request self.old) }
        ensures kept { OnErr result (self.new ≡ self.old) }
    {
        let r = self.objects.request_at(request)?;
        if self.objects.is_under_way(r) {
            Ok(Some(self.objects.abort_request(r)))
        } else {
            Ok(None)
        }
    }

    // ---- what a request holds

    /// Answers the seconds of the time of a request. It is refused if no request begins at the address (Handle).
    /// Devices, timer device: `tr_time`; the refusal: project rule.
    pub fn secs(&self, request: u32) -> Result<u32, Refusal>
        ensures alert { alert_of result ≡ model.request_alert request self.now.heap }
        ensures answer { IfOk result (λ secs. secs ≡ (model.request_of request self.now.heap).secs) }
    {
        let r = self.objects.request_at(request)?;
        Ok(self.objects.requests().secs(r))
    }

    /// Answers the microseconds of the time of a request. It is refused as `secs`. Devices, timer device: `tr_time`;
    /// the refusal: project rule.
    pub fn micros(&self, request: u32) -> Result<u32, Refusal>
        ensures alert { alert_of result ≡ model.request_alert request self.now.heap }
        ensures answer { IfOk result (λ micros. micros ≡ (model.request_of request self.now.heap).micros) }
    {
        let r = self.objects.request_at(request)?;
        Ok(self.objects.requests().micros(r))
    }

    /// Answers the error of a request: 0, IOERR_OPENFAIL (-1), IOERR_ABORTED (-2) or IOERR_NOCMD (-3). It is refused as
    /// `secs`. RKM Devices, Introduction to Amiga System Devices: `io_Error`; the refusal: project rule.
    pub fn error(&self, request: u32) -> Result<i8, Refusal>
        ensures alert { alert_of result ≡ model.request_alert request self.now.heap }
        ensures answer { IfOk result (λ error. error ≡ (model.request_of request self.now.heap).error) }
    {
        let r = self.objects.request_at(request)?;
        Ok(self.objects.requests().error(r))
    }

    /// Answers whether IOF_QUICK of a request is set. It is refused as `secs`. RKM Devices, Introduction to Amiga
    /// System Devices: `io_Flags`; the refusal: project rule.
    pub fn quick(&self, request: u32) -> Result<bool, Refusal>
        ensures alert { alert_of result ≡ model.request_alert request self.now.heap }
        ensures answer { IfOk result (λ quick. quick ≡ (model.request_of request self.now.heap).quick) }
    {
        let r = self.objects.request_at(request)?;
        Ok(self.objects.requests().quick(r))
    }

    // ---- the clock, and system time

    /// Clock and system time gain the microseconds of a tick. The clock stays 2 to the power 54 below 2 to the power
    /// 64, so that system time and the longest time of a request can be added. Devices, timer device; project rule:
    /// both count ticks alone.
    pub fn tick(&mut self)
        requires { self.old.timer.clock + self.old.timer.tick_micros + 2 ^ 54 ≤ 2 ^ 64 }
        ensures { self.new ≡ on_timer clock_ticked self.old }
    {
        self.objects.tick();
    }

    /// Answers whether system time was set since this was asked last, so that those that wait for it are to be looked
    /// at. Project rule.
    pub fn take_setting(&mut self) -> bool
        ensures answer { result ≡ self.old.timer.is_set }
        ensures next { self.new ≡ on_timer looked_at self.old }
    {
        self.objects.take_setting()
    }

    /// Finishes the first request whose time has come, with error 0, and answers its address and what is to be done for
    /// its reply; none if no time has come. First is the one of the first due time, and of those of one due time the
    /// one that was begun first; the due time of a request that waits for system time is that time less how far system
    /// time is ahead of the clock now. Devices, timer device: TR_ADDREQUEST.
    pub fn finish_due(&mut self) -> Option<(u32, Action)>
        ensures answer { result ≡ finishing self.old.heap (due_next self.old.timer) }
        ensures next { self.new ≡ ended_if (due_next self.old.timer) self.old }
    {
        self.objects.facts();
        let (r, action) = self.objects.finish_due()?;
        Some((self.objects.address_of(Kind::Request, r), action))
    }

    /// Finishes, with error 0, the first request that waits for system time and whose time has come, and answers its
    /// address and what is to be done for its reply; none if there is none. Autodoc timer.device: TR_SETSYSTIME;
    /// Devices, timer device: UNIT_WAITUNTIL.
    pub fn finish_until(&mut self) -> Option<(u32, Action)>
        ensures answer { result ≡ finishing self.old.heap (until_next self.old.timer) }
        ensures next { self.new ≡ ended_if (until_next self.old.timer) self.old }
    {
        self.objects.facts();
        let (r, action) = self.objects.finish_until()?;
        Some((self.objects.address_of(Kind::Request, r), action))
    }
}
