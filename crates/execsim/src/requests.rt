//! Requests of timer.device: how they are made and freed, opened, written, begun, waited for and aborted; and how those
//! finish whose time has come, at a tick or when system time is set. A request is named by the address of its block.
//! The calls of `Heap` have the effects on memory; what a reply does to a task is done here.
ghost use Rattle.std.specs.Prelude.{◌≡◌, ◌^◌, false, true, pos, unwrap_or, IfOk, OnErr, OnOk, if◌then◌else◌};
ghost use Rattle.std.specs.Int.{cast_unsigned, w32};
ghost use Rattle.iorequest.specs.{Request.is_under_way, Requests.unit_error};
ghost use Rattle.execmodel.specs.Requests.{does_requests, finishes_all_due, finishes_set, opened_for, request_alert, request_of, resting_alert, timer_unit, does_create_io_request, does_delete_io_request, does_open_device, does_close_device, does_set_io, does_do_io, does_send_io, does_check_io, does_wait_io, does_abort_io, does_io_secs, does_io_micros, does_io_error, does_io_flags};
ghost use Rattle.execmodel.specs.{State.on_heap, State.on_memory, State.on_timer, Interrupts.finishes_for};
ghost use Rattle.timerdev.specs.Timing.{due_next, looked_at, clock_ticked, until_next};
ghost use Rattle.execheap.specs.{Listing.IsSignal, Listing.ended_if, Listing.finishing, Refusals.alert_of};
ghost use Rattle.execsim.specs.{Callers.HasTask, Callers.Runs, Actions.aborts_or_alerted, Actions.finishes_all_until, Actions.finishes_with, Actions.tells_or_waits, Agreement.Follows, Time.HasTimeFor, Views.call_view};

use crate::call::{Call, Caller};
use crate::kernel::Kernel;
use crate::ports::name_or_empty;
use execheap::{Action, Awaited, Refusal};
use execlist::space::ListSpace;
use exectrace::{Name, Said, Witness};
use script::{Alert, RequestWord};
use softint::source::Source;
use taskq::TaskId;

/// What AbortIO answers for a request that is not in progress: the word of -1.
const NOT_ABORTED: u32 = 0xffff_ffff;

/// The unit of timer.device that is meant; none if another device is.
fn timer_unit(device: Name, unit: u32) -> Option<u32>
    ensures { result ≡ timer_unit device.bytes unit }
{
    if device.as_str() == "timer.device" {
        Some(unit)
    } else {
        None
    }
}

/// An error as a word.
fn error_word(error: i8) -> u32
    ensures { result ≡ cast_unsigned w32 error }
{
    i32::from(error).cast_unsigned()
}

/// What CheckIO answers: 0 for a request that is in progress, and else the request.
fn checked(under_way: bool, request: u32) -> u32
    ensures { result ≡ (if under_way then 0 else request) }
{
    if under_way { 0 } else { request }
}

/// A flag as a word.
fn flag_word(set: bool) -> u32
    ensures { result ≡ (if set then 1 else 0) }
{
    if set { 1 } else { 0 }
}

impl<S: ListSpace> Kernel<S> {
    // ---- made and freed

    /// CreateIORequest port: answers the address of a new request with that reply port, or 0; 0 for port 0. HANDLE if
    /// the port is not 0 and none begins there (autodoc exec.library/CreateIORequest; the alert: project rule).
    fn create_io_request<W: Witness>(&mut self, t: TaskId, call: &Call, out: &mut W)
        requires { HasTask t self.old }
        ensures { Follows W.hearing (does_create_io_request t (call_view call.now)) self.old self.new (W.told out.old) (W.told out.new) }
    {
        let port = call.number(0);
        if port == 0 {
            self.answer(t, call, 0, out);
        } else {
            match self.memory.new_request(port) {
                Ok(request) => self.answer(t, call, request.unwrap_or(0), out),
                Err(why) => self.refuse(why, t, call, out),
            }
        }
    }

    /// DeleteIORequest request: frees a request; 0 does nothing. HANDLE if none begins there, IO if it is in progress,
    /// LINK if its reply is queued (autodoc exec.library/DeleteIORequest; the alerts: project rule).
    fn delete_io_request<W: Witness>(&mut self, t: TaskId, call: &Call, out: &mut W)
        requires { HasTask t self.old }
        ensures { Follows W.hearing (does_delete_io_request t (call_view call.now)) self.old self.new (W.told out.old) (W.told out.new) }
    {
        let request = call.number(0);
        if request == 0 {
            self.end_call(t, call, out);
        } else {
            let tried = self.memory.delete_request(request);
            self.conclude(tried, t, call, out);
        }
    }

    // ---- opening and writing

    /// Opens a request for a unit of timer.device, none if another device is meant, and answers its error as a word.
    fn open_request(&mut self, request: u32, unit: Option<u32>) -> Result<u32, Refusal>
        ensures alert { alert_of result ≡ resting_alert request self.old.memory.heap }
        ensures answer { IfOk result (λ error. error ≡ cast_unsigned w32 (unit_error unit)) }
        ensures next { OnOk result (self.new ≡ record self.old { memory = on_heap (opened_for unit request) self.old.memory }) }
        ensures kept { OnErr result (self.new ≡ self.old) }
    {
        match self.memory.open_device(request, unit) {
            Ok(error) => Ok(error_word(error)),
            Err(why) => Err(why),
        }
    }

    /// OpenDevice name unit request: opens a request for a unit of timer.device, and answers 0; or the word of
    /// IOERR_OPENFAIL (-1) if there is no such device or unit, and the request is then not open. HANDLE if no request
    /// begins there, IO if it is in progress (autodoc exec.library/OpenDevice; the alerts: project rule).
    fn open_device<W: Witness>(&mut self, t: TaskId, call: &Call, out: &mut W)
        requires { HasTask t self.old }
        ensures { Follows W.hearing (does_open_device t (call_view call.now)) self.old self.new (W.told out.old) (W.told out.new) }
    {
        let unit = timer_unit(name_or_empty(call.name(0)), call.number(1));
        let tried = self.open_request(call.number(2), unit);
        self.conclude_with(tried, t, call, out);
    }

    /// CloseDevice request: the request is not open. HANDLE if none begins there, IO if it is in progress (autodoc
    /// exec.library/CloseDevice; the alerts: project rule).
    #[tactic(auto, using(crate::proofs::Requesting::close_tried))]
    fn close_device<W: Witness>(&mut self, t: TaskId, call: &Call, out: &mut W)
        requires { HasTask t self.old }
        ensures { Follows W.hearing (does_close_device t (call_view call.now)) self.old self.new (W.told out.old) (W.told out.new) }
    {
        let request = call.number(0);
        let tried = self.memory.close_device(request);
        self.conclude(tried, t, call, out);
    }

    /// SetIO request cmd secs micros: gives a request a command and a time in seconds and microseconds. HANDLE if no
    /// request begins there, VALUE if the command is above 65535, IO if the request is in progress (RKM Devices,
    /// Introduction to Amiga System Devices: io_Command; Devices, timer device: tr_time; that there is a call for it,
    /// and the alerts: project rule).
    fn set_io<W: Witness>(&mut self, t: TaskId, call: &Call, out: &mut W)
        requires { HasTask t self.old }
        ensures { Follows W.hearing (does_set_io t (call_view call.now)) self.old self.new (W.told out.old) (W.told out.new) }
    {
        let request = call.number(0);
        let command = call.number(1);
        if command < 65536 {
            let tried = self
                .memory
                .set_request(request, command as u16, call.number(2), call.number(3));
            self.conclude(tried, t, call, out);
        } else if self.memory.is_request(request) {
            self.alert(Alert::Value, t, call, out);
        } else {
            self.alert(Alert::Handle, t, call, out);
        }
    }

    // ---- beginning and waiting

    /// SendIO request: begins a request with IOF_QUICK cleared; if that does it at once, it is replied. HANDLE if no
    /// request begins there, IO if it is in progress or not open, LINK if its reply is queued, HANDLE if no port begins
    /// at its reply port's address (autodoc exec.library/SendIO; the alerts: project rule).
    fn send_io<W: Witness>(&mut self, t: TaskId, call: &Call, out: &mut W)
        requires { HasTask t self.old }
        ensures { Follows W.hearing (does_send_io t (call_view call.now)) self.old self.new (W.told out.old) (W.told out.new) }
    {
        let request = call.number(0);
        let tried = self.memory.send_request(request);
        self.end_putting(tried, &Caller::Task(t), call, out);
    }

    /// The call that looks for a request answers its error, or waits for its reply port's signal.
    fn look_for<W: Witness>(&mut self, found: Awaited, t: TaskId, call: &Call, out: &mut W)
        requires known { HasTask t self.old }
        requires runs { Runs t self.old }
        requires signal { IsSignal found }
        ensures { Follows W.hearing (tells_or_waits found t (call_view call.now)) self.old self.new (W.told out.old) (W.told out.new) }
    {
        match found {
            Awaited::Done(error) => self.answer(t, call, error_word(error), out),
            Awaited::UnderWay(bit) => self.wait_for_message(1 << bit, t, call, out),
        }
    }

    /// WaitIO request: answers the error of a request that is done, and takes its reply, if it has one; if it is in
    /// progress, the task waits for the signal of its reply port, and looks again when it next runs, after that signal
    /// is cleared. HANDLE if no request begins there, IO if it never was begun, LINK if it was replied and its reply is
    /// not queued, PORT if it is in progress and its reply port does not signal the caller (autodoc
    /// exec.library/WaitIO; how a task waits and looks again, and the alerts: project rule).
    fn wait_io<W: Witness>(&mut self, t: TaskId, call: &Call, out: &mut W)
        requires known { HasTask t self.old }
        requires runs { Runs t self.old }
        ensures { Follows W.hearing (does_wait_io t (call_view call.now)) self.old self.new (W.told out.old) (W.told out.new) }
    {
        let request = call.number(0);
        match self.memory.wait_for_request(t, request) {
            Ok(found) => {
                self.lose(t, call.awaited);
                self.look_for(found, t, call, out);
            }
            Err(why) => self.refuse(why, t, call, out),
        }
    }

    /// DoIO request: begins a request with IOF_QUICK set; if that does it at once, its error is answered, else the task
    /// waits for it as by WaitIO. The call of a task that has waited begins nothing: it is WaitIO's. Alerts as
    /// SendIO's, and PORT if the reply port does not signal the caller (autodoc exec.library/DoIO; the alerts: project
    /// rule).
    fn do_io<W: Witness>(&mut self, t: TaskId, call: &Call, out: &mut W)
        requires known { HasTask t self.old }
        requires runs { Runs t self.old }
        ensures { Follows W.hearing (does_do_io t (call_view call.now)) self.old self.new (W.told out.old) (W.told out.new) }
    {
        if self.is_tried_again(t) {
            self.wait_io(t, call, out);
        } else {
            let request = call.number(0);
            match self.memory.do_request(t, request) {
                Ok(found) => self.look_for(found, t, call, out),
                Err(why) => self.refuse(why, t, call, out),
            }
        }
    }

    /// What CheckIO answers for a request.
    fn check(&self, request: u32) -> Result<u32, Refusal>
        ensures alert { alert_of result ≡ request_alert request self.now.memory.heap }
        ensures answer { IfOk result (λ answer. answer ≡ (if is_under_way (request_of request self.now.memory.heap) then 0 else request)) }
    {
        match self.memory.is_under_way(request) {
            Ok(under_way) => Ok(checked(under_way, request)),
            Err(why) => Err(why),
        }
    }

    /// CheckIO request: answers 0 for a request that is in progress, and else the request, and leaves its reply where
    /// it is. HANDLE if no request begins there (autodoc exec.library/CheckIO; the alert: project rule).
    fn check_io<W: Witness>(&mut self, t: TaskId, call: &Call, out: &mut W)
        requires { HasTask t self.old }
        ensures { Follows W.hearing (does_check_io t (call_view call.now)) self.old self.new (W.told out.old) (W.told out.new) }
    {
        let request = call.number(0);
        let tried = self.check(request);
        self.conclude_with(tried, t, call, out);
    }

    /// A call that aborts a request: one that was in progress is replied, and 0 is answered, for any other the word of
    /// -1; or the call is refused by its alert.
    fn aborted<W: Witness>(
        &mut self,
        tried: Result<Option<Action>, Refusal>,
        t: TaskId,
        call: &Call,
        out: &mut W,
    )
        requires { HasTask t self.old }
        ensures { Follows W.hearing (aborts_or_alerted tried t (call_view call.now)) self.old self.new (W.told out.old) (W.told out.new) }
    {
        match tried {
            Ok(found) => match found {
                Some(action) => {
                    self.perform(action);
                    self.answer(t, call, 0, out);
                }
                None => self.answer(t, call, NOT_ABORTED, out),
            },
            Err(why) => self.refuse(why, t, call, out),
        }
    }

    /// AbortIO request: a request that is in progress is replied at once, with the error IOERR_ABORTED (-2), and 0 is
    /// answered; for any other the word of -1. HANDLE if no request begins there (autodoc exec.library/AbortIO; the
    /// alert: project rule).
    fn abort_io<W: Witness>(&mut self, t: TaskId, call: &Call, out: &mut W)
        requires { HasTask t self.old }
        ensures { Follows W.hearing (does_abort_io t (call_view call.now)) self.old self.new (W.told out.old) (W.told out.new) }
    {
        let request = call.number(0);
        let tried = self.memory.abort_request(request);
        self.aborted(tried, t, call, out);
    }

    // ---- what a request holds

    /// IOSecs request: answers the seconds of its time. HANDLE if no request begins there (Devices, timer device:
    /// tr_time; that there is a call for it, and the alert: project rule).
    fn io_secs<W: Witness>(&mut self, t: TaskId, call: &Call, out: &mut W)
        requires { HasTask t self.old }
        ensures { Follows W.hearing (does_io_secs t (call_view call.now)) self.old self.new (W.told out.old) (W.told out.new) }
    {
        let tried = self.memory.secs(call.number(0));
        self.conclude_with(tried, t, call, out);
    }

    /// IOMicros request: answers the microseconds of its time. HANDLE if no request begins there (Devices, timer
    /// device: tr_time; that there is a call for it, and the alert: project rule).
    fn io_micros<W: Witness>(&mut self, t: TaskId, call: &Call, out: &mut W)
        requires { HasTask t self.old }
        ensures { Follows W.hearing (does_io_micros t (call_view call.now)) self.old self.new (W.told out.old) (W.told out.new) }
    {
        let tried = self.memory.micros(call.number(0));
        self.conclude_with(tried, t, call, out);
    }

    /// The error of a request as a word.
    fn error(&self, request: u32) -> Result<u32, Refusal>
        ensures alert { alert_of result ≡ request_alert request self.now.memory.heap }
        ensures answer { IfOk result (λ word. word ≡ cast_unsigned w32 (request_of request self.now.memory.heap).error) }
    {
        match self.memory.error(request) {
            Ok(error) => Ok(error_word(error)),
            Err(why) => Err(why),
        }
    }

    /// IOError request: answers its error as a word: 0, or that of IOERR_OPENFAIL (-1), IOERR_ABORTED (-2) or
    /// IOERR_NOCMD (-3). HANDLE if no request begins there (RKM Devices, Introduction to Amiga System Devices:
    /// io_Error; that there is a call for it, and the alert: project rule).
    fn io_error<W: Witness>(&mut self, t: TaskId, call: &Call, out: &mut W)
        requires { HasTask t self.old }
        ensures { Follows W.hearing (does_io_error t (call_view call.now)) self.old self.new (W.told out.old) (W.told out.new) }
    {
        let tried = self.error(call.number(0));
        self.conclude_with(tried, t, call, out);
    }

    /// IOF_QUICK of a request as a word: 1 if it is set, and else 0.
    fn flags(&self, request: u32) -> Result<u32, Refusal>
        ensures alert { alert_of result ≡ request_alert request self.now.memory.heap }
        ensures answer { IfOk result (λ flags. flags ≡ (if (request_of request self.now.memory.heap).quick then 1 else 0)) }
    {
        match self.memory.quick(request) {
            Ok(quick) => Ok(flag_word(quick)),
            Err(why) => Err(why),
        }
    }

    /// IOFlags request: answers 1 if IOF_QUICK is set, and else 0. HANDLE if no request begins there (RKM Devices,
    /// Introduction to Amiga System Devices: io_Flags; that there is a call for it, and the alert: project rule).
    fn io_flags<W: Witness>(&mut self, t: TaskId, call: &Call, out: &mut W)
        requires { HasTask t self.old }
        ensures { Follows W.hearing (does_io_flags t (call_view call.now)) self.old self.new (W.told out.old) (W.told out.new) }
    {
        let tried = self.flags(call.number(0));
        self.conclude_with(tried, t, call, out);
    }

    /// A call of task t on requests, by its word.
    pub(crate) fn does_requests<W: Witness>(
        &mut self,
        word: RequestWord,
        t: TaskId,
        call: &Call,
        out: &mut W,
    )
        requires known { HasTask t self.old }
        requires runs { Runs t self.old }
        ensures { Follows W.hearing (does_requests word t (call_view call.now)) self.old self.new (W.told out.old) (W.told out.new) }
    {
        match word {
            RequestWord::CreateIORequest => self.create_io_request(t, call, out),
            RequestWord::DeleteIORequest => self.delete_io_request(t, call, out),
            RequestWord::OpenDevice => self.open_device(t, call, out),
            RequestWord::CloseDevice => self.close_device(t, call, out),
            RequestWord::SetIO => self.set_io(t, call, out),
            RequestWord::DoIO => self.do_io(t, call, out),
            RequestWord::SendIO => self.send_io(t, call, out),
            RequestWord::CheckIO => self.check_io(t, call, out),
            RequestWord::WaitIO => self.wait_io(t, call, out),
            RequestWord::AbortIO => self.abort_io(t, call, out),
            RequestWord::IOSecs => self.io_secs(t, call, out),
            RequestWord::IOMicros => self.io_micros(t, call, out),
            RequestWord::IOError => self.io_error(t, call, out),
            RequestWord::IOFlags => self.io_flags(t, call, out),
        }
    }

    // ---- the clock

    /// The clock and system time gain a tick.
    pub(crate) fn gain_tick(&mut self)
        requires { HasTimeFor 1 self.old }
        ensures { self.new ≡ record self.old { memory = on_timer clock_ticked self.old.memory } }
    {
        self.memory.tick();
    }

    /// The first request whose time has come, if there is one, is done, and waits no more; answered with what is to be
    /// done for its reply.
    fn take_due(&mut self) -> Option<(u32, Action)>
        ensures answer { result ≡ finishing self.old.memory.heap (due_next self.old.memory.timer) }
        ensures next { self.new ≡ record self.old { memory = ended_if (due_next self.old.memory.timer) self.old.memory } }
    {
        self.memory.finish_due()
    }

    /// A request that is done says so, and then what is to be done for its reply is done.
    fn announce_due<W: Witness>(&mut self, request: u32, action: Action, out: &mut W)
        ensures follows { Follows W.hearing (finishes_with request action) self.old self.new (W.told out.old) (W.told out.new) }
        ensures kept { self.new.memory ≡ self.old.memory }
    {
        out.hear(&Said::Timer(request));
        self.perform(action);
    }

    /// All requests whose time has come finish, one after another: by the due time when it came, and those of one due
    /// time in the order in which they were begun.
    fn finish_all_due<W: Witness>(&mut self, out: &mut W)
        ensures { Follows W.hearing finishes_all_due self.old self.new (W.told out.old) (W.told out.new) }
    {
        while let Some((request, action)) = self.take_due() {
            self.announce_due(request, action, out);
        }
    }

    /// For VERTB all requests finish whose time has come.
    pub(crate) fn finish_for<W: Witness>(&mut self, source: Source, out: &mut W)
        ensures { Follows W.hearing (finishes_for source) self.old self.new (W.told out.old) (W.told out.new) }
    {
        match source {
            Source::Vertb => self.finish_all_due(out),
            Source::Ports | Source::Exter => {}
        }
    }

    // ---- system time

    /// Answers whether system time was set, and those that wait for it were not looked at since; now they are looked
    /// at.
    fn take_setting(&mut self) -> bool
        ensures answer { result ≡ self.old.memory.timer.is_set }
        ensures next { self.new ≡ record self.old { memory = on_timer looked_at self.old.memory } }
    {
        self.memory.take_setting()
    }

    /// The first request that waits for system time and whose time has come, if there is one, is done, and waits no
    /// more; answered with what is to be done for its reply.
    fn take_until(&mut self) -> Option<(u32, Action)>
        ensures answer { result ≡ finishing self.old.memory.heap (until_next self.old.memory.timer) }
        ensures next { self.new ≡ record self.old { memory = ended_if (until_next self.old.memory.timer) self.old.memory } }
    {
        self.memory.finish_until()
    }

    /// All requests that wait for system time and whose time has come finish, one after another: by their times, and
    /// those of one time in the order in which they were begun.
    fn finish_all_until<W: Witness>(&mut self, out: &mut W)
        ensures { Follows W.hearing finishes_all_until self.old self.new (W.told out.old) (W.told out.new) }
    {
        while let Some((request, action)) = self.take_until() {
            self.announce_due(request, action, out);
        }
    }

    /// What follows a call on requests: if it set system time, all requests finish that wait for system time and whose
    /// time has come. Those that wait for the clock are not looked at.
    pub(crate) fn finish_set<W: Witness>(&mut self, out: &mut W)
        ensures { Follows W.hearing finishes_set self.old self.new (W.told out.old) (W.told out.new) }
    {
        if self.take_setting() {
            self.finish_all_until(out);
        }
    }
}
