//! Ports and messages: how they are made and freed, made public, and how messages are put, replied, taken and waited
//! for. An object is named by the address of its block. The calls of `Heap` have the effects on memory; what a message
//! does to a task is done here.
ghost use Rattle.std.specs.Prelude.{◌≡◌, ◌^◌, ◌<◌, ◌≤◌, negsuc, [], find, true, IfOk, IfSome, IsTrue, OnErr, OnOk, None, Some, option_map, unwrap_or};
ghost use Rattle.std.specs.Int.{cast_signed, w32};
ghost use Rattle.execlist.specs.Disciplines.{by_priority};
ghost use Rattle.scheduler.specs.{Schedule.clears_and_waits, Schedule.frees_signal, Schedule.signals_of, Dispatch.signalled};
ghost use Rattle.signals.specs.Signals.{grant, is_own_signal};
ghost use Rattle.msgport.specs.Port.{new_port};
ghost use Rattle.execmodel.specs.Ports.{add_port_alert, content_of, is_called, is_port, looked, loses, message_alert, port_or_none, port_size, does_ports, does_create_msg_port, does_delete_msg_port, does_add_port, does_rem_port, does_find_port, does_port_signal, does_port_cause, does_port_ignore, does_new_msg, does_free_msg, does_msg_word, does_set_msg_word, does_msg_type, does_put_msg_by, does_get_msg_by, does_wait_port, does_reply_msg_by};
ghost use Rattle.execmodel.specs.{State.MsgPort, Memory.placed, LowMemory.after_asking_for_object, Objects.place_for_object, Tasks.is_priority};
ghost use Rattle.execheap.specs.{Listing.listed, Refusals.alert_of};
ghost use Rattle.execsim.specs.{Callers.HasTask, Callers.Runs, Callers.HasCaller, Actions.given_back_or_alerted, Actions.performed, Actions.performed_or_alerted_by, Agreement.Follows, Views.call_view, Views.caller_view};

use crate::call::{Call, Caller};
use crate::kernel::Kernel;
use crate::tasks::is_priority;
use execheap::Refusal;
use execlist::space::ListSpace;
use exectrace::{Name, Witness};
use msgport::action::{Action, PortAction};
use script::{Alert, PortWord};
use taskq::TaskId;

/// What AllocSignal is asked for by a call that takes any signal: the word of -1.
const ANY_SIGNAL: u32 = 0xffff_ffff;

/// A name, or the empty one if none is given.
pub(crate) fn name_or_empty(name: Option<Name>) -> Name
    ensures { result.bytes ≡ unwrap_or (option_map (λ n. n.bytes) name) [] }
{
    match name {
        Some(name) => name,
        None => Name::new(),
    }
}

impl<S: ListSpace> Kernel<S> {
    // ---- ports made and freed

    /// The signal that the running task would get if it asked for any.
    fn next_signal(&self, t: TaskId) -> Option<u32>
        requires { Runs t self.now }
        ensures value { result ≡ grant (negsuc 0) (signals_of self.now.schedule t) }
        ensures own { IfSome result (λ bit. 16 ≤ bit) }
        ensures signal { IfSome result (λ bit. bit < 32) }
    {
        self.sched.next_signal()
    }

    /// A new port of task t, which signals it by the signal of that number, if there is room for one, at once or after
    /// libraries were asked for memory.
    fn make_port(&mut self, t: TaskId, bit: u32) -> Option<u32>
        requires own { 16 ≤ bit }
        requires signal { bit < 32 }
        ensures address { result ≡ place_for_object is_port port_size (after_asking_for_object is_port port_size self.old.memory) }
        ensures next { self.new ≡ record self.old {
          memory = placed port_size (MsgPort (new_port t bit) []) result (after_asking_for_object is_port port_size self.old.memory);
        } }
    {
        self.memory.new_port(t, bit)
    }

    /// CreateMsgPort: answers the address of a new port, which signals the caller by a newly allocated signal; or 0 if
    /// the caller has no signal left, and then no library is asked for memory, or there is no room for the port
    /// (autodoc exec.library/CreateMsgPort; when libraries are asked: project rule).
    fn create_msg_port<W: Witness>(&mut self, t: TaskId, call: &Call, out: &mut W)
        requires known { HasTask t self.old }
        requires runs { Runs t self.old }
        ensures { Follows W.hearing (does_create_msg_port t (call_view call.now)) self.old self.new (W.told out.old) (W.told out.new) }
    {
        match self.next_signal(t) {
            None => self.answer(t, call, 0, out),
            Some(bit) => match self.make_port(t, bit) {
                None => self.answer(t, call, 0, out),
                Some(port) => {
                    self.allocate_signal(t, ANY_SIGNAL);
                    self.answer(t, call, port, out);
                }
            },
        }
    }

    /// A signal of a task, if there is a task of that number, is not allocated any more.
    fn give_back(&mut self, task: TaskId, n: u32)
        requires { is_own_signal n ≡ true }
        ensures { self.new ≡ record self.old { schedule = frees_signal task n self.old.schedule } }
    {
        if task < self.programs.len() {
            self.deallocate_signal(task, n);
        }
    }

    /// A call that frees a port: its signal is given back to its task, or the call is refused by its alert.
    fn end_freeing<W: Witness>(
        &mut self,
        tried: Result<(TaskId, u32), Refusal>,
        t: TaskId,
        call: &Call,
        out: &mut W,
    )
        requires known { HasTask t self.old }
        requires own { IfOk tried (λ owner. 16 ≤ owner.1) }
        requires signal { IfOk tried (λ owner. owner.1 < 32) }
        ensures { Follows W.hearing (given_back_or_alerted tried t (call_view call.now)) self.old self.new (W.told out.old) (W.told out.new) }
    {
        match tried {
            Ok((task, bit)) => {
                self.give_back(task, bit);
                self.end_call(t, call, out);
            }
            Err(why) => self.refuse(why, t, call, out),
        }
    }

    /// DeleteMsgPort port: frees a port and gives its signal back to its task; 0 does nothing. HANDLE if no port begins
    /// there, PORT if it has messages, is public, or is the reply port of a request in progress (autodoc
    /// exec.library/DeleteMsgPort; the alerts: project rule).
    fn delete_msg_port<W: Witness>(&mut self, t: TaskId, call: &Call, out: &mut W)
        requires { HasTask t self.old }
        ensures { Follows W.hearing (does_delete_msg_port t (call_view call.now)) self.old self.new (W.told out.old) (W.told out.new) }
    {
        let port = call.number(0);
        if port == 0 {
            self.end_call(t, call, out);
        } else {
            let tried = self.memory.delete_port(port);
            self.end_freeing(tried, t, call, out);
        }
    }

    // ---- public ports

    /// Makes a port public under that name, or the empty one, with the priority that the word is, read as a signed one.
    fn make_public(&mut self, port: u32, name: Option<Name>, pri: u32) -> Result<(), Refusal>
        requires inside { IsTrue (is_priority (cast_signed w32 pri)) }
        ensures alert { alert_of result ≡ add_port_alert port (cast_signed w32 pri) self.old.memory }
        ensures next { OnOk result (self.new ≡ record self.old {
          memory = listed port (unwrap_or (option_map (λ n. n.bytes) name) []) (cast_signed w32 pri) self.old.memory;
        }) }
        ensures kept { OnErr result (self.new ≡ self.old) }
    {
        self.memory
            .add_port(port, name_or_empty(name), pri.cast_signed() as i8)
    }

    /// AddPort port name pri: makes a port public. HANDLE if no port begins there, VALUE if the priority, read as a
    /// signed word, is not in -128 to 127, LINK if the port is public (autodoc exec.library/AddPort; the alerts:
    /// project rule).
    fn add_port<W: Witness>(&mut self, t: TaskId, call: &Call, out: &mut W)
        requires { HasTask t self.old }
        ensures { Follows W.hearing (does_add_port t (call_view call.now)) self.old self.new (W.told out.old) (W.told out.new) }
    {
        let port = call.number(0);
        let pri = call.number(2);
        if is_priority(pri) {
            let tried = self.make_public(port, call.name(1), pri);
            self.conclude(tried, t, call, out);
        } else if self.memory.is_port(port) {
            self.alert(Alert::Value, t, call, out);
        } else {
            self.alert(Alert::Handle, t, call, out);
        }
    }

    /// RemPort port: makes a port public no more. HANDLE if no port begins there, LINK if it is not public (autodoc
    /// exec.library/RemPort; the alerts: project rule).
    fn rem_port<W: Witness>(&mut self, t: TaskId, call: &Call, out: &mut W)
        requires { HasTask t self.old }
        ensures { Follows W.hearing (does_rem_port t (call_view call.now)) self.old self.new (W.told out.old) (W.told out.new) }
    {
        let port = call.number(0);
        let tried = self.memory.rem_port(port);
        self.conclude(tried, t, call, out);
    }

    /// The address of the public port of a name, or 0. If no name is given it is the empty one.
    fn public_port(&self, name: Option<Name>) -> u32
        ensures { result ≡ port_or_none (find (is_called (unwrap_or (option_map (λ n. n.bytes) name) [])) self.now.memory.public) }
    {
        match name {
            None => self.memory.find_port(""),
            Some(name) => self.memory.find_port(name.as_str()),
        }
    }

    /// FindPort name: answers the public port of that name, or 0 (autodoc exec.library/FindPort).
    #[tactic(auto, using(crate::proofs::Porting::find_answered))]
    fn find_port<W: Witness>(&mut self, t: TaskId, call: &Call, out: &mut W)
        requires { HasTask t self.old }
        ensures { Follows W.hearing (does_find_port t (call_view call.now)) self.old self.new (W.told out.old) (W.told out.new) }
    {
        let port = self.public_port(call.name(0));
        self.answer(t, call, port, out);
    }

    // ---- the action of a port

    /// PortSignal port: the port signals its task, as a new port does. HANDLE if no port begins there (RKM Libraries,
    /// Exec Messages and Ports: mp_Flags, PA_SIGNAL; that there is a call for it: project rule).
    fn port_signal<W: Witness>(&mut self, t: TaskId, call: &Call, out: &mut W)
        requires { HasTask t self.old }
        ensures { Follows W.hearing (does_port_signal t (call_view call.now)) self.old self.new (W.told out.old) (W.told out.new) }
    {
        let port = call.number(0);
        let tried = self.memory.set_action(port, PortAction::Signal);
        self.conclude(tried, t, call, out);
    }

    /// PortCause port name: the port causes the software interrupt of that name. HANDLE if no port begins there (RKM
    /// Libraries, Exec Messages and Ports: mp_Flags, PA_SOFTINT; that there is a call for it: project rule).
    fn port_cause<W: Witness>(&mut self, t: TaskId, call: &Call, out: &mut W)
        requires { HasTask t self.old }
        ensures { Follows W.hearing (does_port_cause t (call_view call.now)) self.old self.new (W.told out.old) (W.told out.new) }
    {
        let port = call.number(0);
        let i = self.softint_named(&name_or_empty(call.name(1)));
        let tried = self.memory.set_action(port, PortAction::Cause(i));
        self.conclude(tried, t, call, out);
    }

    /// PortIgnore port: the port does nothing when a message arrives. HANDLE if no port begins there (RKM Libraries,
    /// Exec Messages and Ports: mp_Flags, PA_IGNORE; that there is a call for it: project rule).
    fn port_ignore<W: Witness>(&mut self, t: TaskId, call: &Call, out: &mut W)
        requires { HasTask t self.old }
        ensures { Follows W.hearing (does_port_ignore t (call_view call.now)) self.old self.new (W.told out.old) (W.told out.new) }
    {
        let port = call.number(0);
        let tried = self.memory.set_action(port, PortAction::Ignore);
        self.conclude(tried, t, call, out);
    }

    // ---- messages made and freed

    /// NewMsg port word: answers the address of a new message with that reply port, or none for 0, and that word; or 0.
    /// HANDLE if the reply port is not 0 and no port begins there (project rule).
    fn new_msg<W: Witness>(&mut self, t: TaskId, call: &Call, out: &mut W)
        requires { HasTask t self.old }
        ensures { Follows W.hearing (does_new_msg t (call_view call.now)) self.old self.new (W.told out.old) (W.told out.new) }
    {
        let reply = call.number(0);
        let word = call.number(1);
        match self.memory.new_message(reply, word) {
            Ok(message) => self.answer(t, call, message.unwrap_or(0), out),
            Err(why) => self.refuse(why, t, call, out),
        }
    }

    /// FreeMsg message: frees a message. HANDLE if none begins there, LINK if a port has it (project rule).
    fn free_msg<W: Witness>(&mut self, t: TaskId, call: &Call, out: &mut W)
        requires { HasTask t self.old }
        ensures { Follows W.hearing (does_free_msg t (call_view call.now)) self.old self.new (W.told out.old) (W.told out.new) }
    {
        let message = call.number(0);
        let tried = self.memory.free_message(message);
        self.conclude(tried, t, call, out);
    }

    // ---- what a message holds

    /// MsgWord message: answers its word. HANDLE if no message begins there (project rule).
    fn msg_word<W: Witness>(&mut self, t: TaskId, call: &Call, out: &mut W)
        requires { HasTask t self.old }
        ensures { Follows W.hearing (does_msg_word t (call_view call.now)) self.old self.new (W.told out.old) (W.told out.new) }
    {
        let message = call.number(0);
        let tried = self.memory.word(message);
        self.conclude_with(tried, t, call, out);
    }

    /// SetMsgWord message word: gives the message another word. HANDLE if no message begins there (project rule).
    fn set_msg_word<W: Witness>(&mut self, t: TaskId, call: &Call, out: &mut W)
        requires { HasTask t self.old }
        ensures { Follows W.hearing (does_set_msg_word t (call_view call.now)) self.old self.new (W.told out.old) (W.told out.new) }
    {
        let message = call.number(0);
        let word = call.number(1);
        let tried = self.memory.set_word(message, word);
        self.conclude(tried, t, call, out);
    }

    /// The type of a message.
    fn kind(&self, message: u32) -> Result<u32, Refusal>
        ensures alert { alert_of result ≡ message_alert message self.now.memory.heap }
        ensures answer { IfOk result (λ kind. kind ≡ (content_of message self.now.memory.heap).kind) }
    {
        match self.memory.kind(message) {
            Ok(kind) => Ok(u32::from(kind)),
            Err(why) => Err(why),
        }
    }

    /// MsgType message: answers its type, 0 for a new one. HANDLE if no message begins there (RKM Libraries, Exec
    /// Messages and Ports: ln_Type; that a new one has type 0, and the alert: project rule).
    fn msg_type<W: Witness>(&mut self, t: TaskId, call: &Call, out: &mut W)
        requires { HasTask t self.old }
        ensures { Follows W.hearing (does_msg_type t (call_view call.now)) self.old self.new (W.told out.old) (W.told out.new) }
    {
        let message = call.number(0);
        let tried = self.kind(message);
        self.conclude_with(tried, t, call, out);
    }

    // ---- putting and replying

    /// A task, if there is one of that number and it is live, receives the signals.
    fn signal_any(&mut self, task: TaskId, mask: u32)
        ensures { self.new ≡ record self.old { schedule = signalled by_priority task mask self.old.schedule } }
    {
        if task < self.programs.len() {
            self.signal_task(task, mask);
        }
    }

    /// What is to be done for a message that has arrived is done.
    pub(crate) fn perform(&mut self, action: Action)
        ensures { self.new ≡ performed action self.old }
    {
        match action {
            Action::Signal(task, mask) => self.signal_any(task, mask),
            Action::Cause(i) => self.cause(i),
            Action::Nothing => {}
        }
    }

    /// A call that puts a message, of a task or of a body: what is to be done for it is done, or the call is refused by
    /// its alert.
    pub(crate) fn end_putting<W: Witness>(
        &mut self,
        tried: Result<Action, Refusal>,
        caller: &Caller,
        call: &Call,
        out: &mut W,
    )
        requires { HasCaller caller.now self.old }
        ensures { Follows W.hearing (performed_or_alerted_by tried (caller_view caller.now) (call_view call.now)) self.old self.new (W.told out.old) (W.told out.new) }
    {
        match tried {
            Ok(action) => {
                self.perform(action);
                self.end_call_by(caller, call, out);
            }
            Err(why) => self.refuse_by(why, caller, call, out),
        }
    }

    /// PutMsg port message: puts a message at a port, after those that it has. HANDLE if either is none, LINK if a port
    /// has the message (autodoc exec.library/PutMsg; the alerts: project rule).
    pub(crate) fn put_msg<W: Witness>(&mut self, caller: &Caller, call: &Call, out: &mut W)
        requires { HasCaller caller.now self.old }
        ensures { Follows W.hearing (does_put_msg_by (caller_view caller.now) (call_view call.now)) self.old self.new (W.told out.old) (W.told out.new) }
    {
        let port = call.number(0);
        let message = call.number(1);
        let tried = self.memory.put_message(port, message);
        self.end_putting(tried, caller, call, out);
    }

    /// ReplyMsg message: puts a message at its reply port; one without gets the type NT_FREEMSG. HANDLE if no message
    /// begins there, LINK if a port has it, HANDLE if no port begins at its reply port's address (autodoc
    /// exec.library/ReplyMsg; the alerts: project rule).
    pub(crate) fn reply_msg<W: Witness>(&mut self, caller: &Caller, call: &Call, out: &mut W)
        requires { HasCaller caller.now self.old }
        ensures { Follows W.hearing (does_reply_msg_by (caller_view caller.now) (call_view call.now)) self.old self.new (W.told out.old) (W.told out.new) }
    {
        let message = call.number(0);
        let tried = self.memory.reply_message(message);
        self.end_putting(tried, caller, call, out);
    }

    // ---- taking and waiting

    /// GetMsg port: answers the first message, which leaves the port, or 0. HANDLE if no port begins there (autodoc
    /// exec.library/GetMsg; the alert: project rule).
    pub(crate) fn get_msg<W: Witness>(&mut self, caller: &Caller, call: &Call, out: &mut W)
        requires { HasCaller caller.now self.old }
        ensures { Follows W.hearing (does_get_msg_by (caller_view caller.now) (call_view call.now)) self.old self.new (W.told out.old) (W.told out.new) }
    {
        let port = call.number(0);
        let tried = self.memory.take_message(port);
        self.conclude_by(tried, caller, call, out);
    }

    /// The running task clears its signals of the mask, and waits for new ones.
    fn clear_and_wait(&mut self, t: TaskId, mask: u32)
        requires { Runs t self.old }
        ensures { self.new ≡ record self.old { schedule = clears_and_waits t mask self.old.schedule } }
    {
        self.sched.wait_clear(mask);
    }

    /// The call waits for signals of the mask that come from now on.
    pub(crate) fn wait_for_message<W: Witness>(
        &mut self,
        mask: u32,
        t: TaskId,
        call: &Call,
        out: &mut W,
    )
        requires known { HasTask t self.old }
        requires runs { Runs t self.old }
        ensures { Follows W.hearing (looked None mask t (call_view call.now)) self.old self.new (W.told out.old) (W.told out.new) }
    {
        self.clear_and_wait(t, mask);
        self.waiting(t, &call.awaiting(mask), out);
    }

    /// The running task clears its signals of the mask.
    pub(crate) fn lose(&mut self, t: TaskId, mask: u32)
        requires { Runs t self.old }
        ensures next { self.new ≡ record self.old { schedule = loses t mask self.old.schedule } }
        ensures runs { self.new.schedule.running ≡ Some t }
    {
        self.change_signals(t, 0, mask);
    }

    /// The call at a port with that first message, or with none, and with that signal: it answers the message, or
    /// waits.
    fn look<W: Witness>(
        &mut self,
        message: Option<u32>,
        bit: u32,
        t: TaskId,
        call: &Call,
        out: &mut W,
    )
        requires known { HasTask t self.old }
        requires runs { Runs t self.old }
        requires signal { bit < 32 }
        ensures { Follows W.hearing (looked message (2 ^ bit) t (call_view call.now)) self.old self.new (W.told out.old) (W.told out.new) }
    {
        match message {
            Some(message) => self.answer(t, call, message, out),
            None => self.wait_for_message(1 << bit, t, call, out),
        }
    }

    /// WaitPort port: answers the first message of the port, and leaves it there; if there is none, the task waits for
    /// the port's signal, and looks again when it next runs, after that signal is cleared. HANDLE if no port begins
    /// there, PORT if it does not signal the caller (autodoc exec.library/WaitPort; how a task waits and looks again,
    /// and the alerts: project rule).
    fn wait_port<W: Witness>(&mut self, t: TaskId, call: &Call, out: &mut W)
        requires known { HasTask t self.old }
        requires runs { Runs t self.old }
        ensures { Follows W.hearing (does_wait_port t (call_view call.now)) self.old self.new (W.told out.old) (W.told out.new) }
    {
        let port = call.number(0);
        match self.memory.message_to_wait_for(t, port) {
            Ok((message, bit)) => {
                self.lose(t, call.awaited);
                self.look(message, bit, t, call, out);
            }
            Err(why) => self.refuse(why, t, call, out),
        }
    }

    /// A call of task t on ports and messages, by its word.
    #[tactic(auto, unfolding(execmodel::specs::Ports::does_put_msg, execmodel::specs::Ports::does_get_msg, execmodel::specs::Ports::does_reply_msg))]
    pub(crate) fn does_ports<W: Witness>(
        &mut self,
        word: PortWord,
        t: TaskId,
        call: &Call,
        out: &mut W,
    )
        requires known { HasTask t self.old }
        requires runs { Runs t self.old }
        ensures { Follows W.hearing (does_ports word t (call_view call.now)) self.old self.new (W.told out.old) (W.told out.new) }
    {
        let caller = Caller::Task(t);
        match word {
            PortWord::CreateMsgPort => self.create_msg_port(t, call, out),
            PortWord::DeleteMsgPort => self.delete_msg_port(t, call, out),
            PortWord::AddPort => self.add_port(t, call, out),
            PortWord::RemPort => self.rem_port(t, call, out),
            PortWord::FindPort => self.find_port(t, call, out),
            PortWord::PortSignal => self.port_signal(t, call, out),
            PortWord::PortCause => self.port_cause(t, call, out),
            PortWord::PortIgnore => self.port_ignore(t, call, out),
            PortWord::NewMsg => self.new_msg(t, call, out),
            PortWord::FreeMsg => self.free_msg(t, call, out),
            PortWord::MsgWord => self.msg_word(t, call, out),
            PortWord::SetMsgWord => self.set_msg_word(t, call, out),
            PortWord::MsgType => self.msg_type(t, call, out),
            PortWord::PutMsg => self.put_msg(&caller, call, out),
            PortWord::GetMsg => self.get_msg(&caller, call, out),
            PortWord::WaitPort => self.wait_port(t, call, out),
            PortWord::ReplyMsg => self.reply_msg(&caller, call, out),
        }
    }
}
