//! How a call of a task ends: done, answered, waiting, or refused by an alert; and how one ends whoever makes it.
//! Whatever else the call does has been done before.
ghost use Rattle.std.specs.Prelude.{◌≡◌, ◌∷◌, [], map};
ghost use Rattle.exectrace.specs.Short.{short_argument};
ghost use Rattle.exectrace.specs.Trace as trace;
ghost use Rattle.scheduler.specs.Schedule.{task_name};
ghost use Rattle.script.specs.Words.{word_text};
ghost use Rattle.exectrace.specs.{Shown.shown_outcome};
ghost use Rattle.execmodel.specs.Calls.{done, done_by, answered, answered_by, waiting, silent, silent_by, alerted, alerted_by};
ghost use Rattle.execsim.specs.{Agreement.Quietly, Callers.HasTask, Callers.HasCaller, Agreement.Follows, Agreement.line_seen, Endings.answered_or_alerted, Endings.answered_or_alerted_by, Endings.done_or_alerted, Views.call_view, Views.caller_view};
ghost use Rattle.execheap.specs.Refusals.{code_of};

use crate::call::{Call, Caller};
use crate::kernel::Kernel;
use execheap::Refusal;
use execlist::space::ListSpace;
use exectrace::lines::CallOutcome;
use exectrace::{Name, Said, ShortArg, Witness};
use script::{Alert, Word};
use taskq::TaskId;

impl<S: ListSpace> Kernel<S> {
    /// Says that there was a call of task t.
    pub(crate) fn say<W: Witness>(&self, t: TaskId, call: &Call, outcome: CallOutcome, out: &mut W)
        requires { HasTask t self.now }
        ensures { W.hearing.hears (W.told out.old) (W.told out.new) ((line_seen t (call_view call.now) (shown_outcome outcome) self.now) ∷ []) }
    {
        let by = self.name(t);
        out.hear(&Said::Call {
            by,
            word: call.word,
            arguments: call.shown(),
            quoted: &call.quoted,
            ends: outcome,
        });
    }

    /// Says that there was a call of task t that answers nothing, from its parts.
    #[inline(always)]
    pub(crate) fn tell<W: Witness>(
        &self,
        t: TaskId,
        word: Word,
        arguments: &[ShortArg],
        quoted: &Name,
        out: &mut W,
    )
        requires { HasTask t self.now }
        ensures { W.hearing.hears (W.told out.old) (W.told out.new)
            (trace.Call (task_name self.now.schedule t) (word_text word) (map (short_argument quoted.now.bytes) arguments.now) trace.Done ∷ []) }
    {
        let by = self.name(t);
        out.hear(&Said::Call {
            by,
            word,
            arguments,
            quoted,
            ends: CallOutcome::Done,
        });
    }

    /// The call answers nothing, and task t goes on.
    pub(crate) fn end_call<W: Witness>(&mut self, t: TaskId, call: &Call, out: &mut W)
        requires { HasTask t self.old }
        ensures { Follows W.hearing (done t (call_view call.now)) self.old self.new (W.told out.old) (W.told out.new) }
    {
        self.say(t, call, CallOutcome::Done, out);
        self.go_on(t, call.next);
    }

    /// The call answers, into its target if it has one, and task t goes on.
    pub(crate) fn answer<W: Witness>(&mut self, t: TaskId, call: &Call, value: u32, out: &mut W)
        requires { HasTask t self.old }
        ensures { Follows W.hearing (answered t (call_view call.now) value) self.old self.new (W.told out.old) (W.told out.new) }
    {
        self.say(t, call, CallOutcome::Answers(value), out);
        self.store(t, call.target, value);
        self.go_on(t, call.next);
    }

    /// The call waits, and is kept, so that task t tries it again.
    pub(crate) fn waiting<W: Witness>(&mut self, t: TaskId, call: &Call, out: &mut W)
        requires { HasTask t self.old }
        ensures { Follows W.hearing (waiting t (call_view call.now)) self.old self.new (W.told out.old) (W.told out.new) }
    {
        self.say(t, call, CallOutcome::Waits, out);
        self.keep(t, call);
    }

    /// A word that is not a call of Exec answers, and prints nothing.
    pub(crate) fn end_silently(&mut self, t: TaskId, call: &Call, value: u32)
        requires { HasTask t self.old }
        ensures { Quietly (silent t (call_view call.now) value) self.old self.new }
    {
        self.store(t, call.target, value);
        self.go_on(t, call.next);
    }

    /// The call of task t is refused: it changes nothing, and the machine stops for good.
    #[cold]
    pub(crate) fn alert<W: Witness>(&mut self, code: Alert, t: TaskId, call: &Call, out: &mut W)
        requires { HasTask t self.old }
        ensures { Follows W.hearing (alerted code t (call_view call.now)) self.old self.new (W.told out.old) (W.told out.new) }
    {
        let by = self.name(t);
        out.hear(&Said::Alert {
            code,
            by,
            word: call.word,
        });
        self.stop();
    }

    // ---- whoever makes the call

    /// The call of a task or of a body answers nothing.
    pub(crate) fn end_call_by<W: Witness>(&mut self, caller: &Caller, call: &Call, out: &mut W)
        requires { HasCaller caller.now self.old }
        ensures { Follows W.hearing (done_by (caller_view caller.now) (call_view call.now)) self.old self.new (W.told out.old) (W.told out.new) }
    {
        match caller {
            Caller::Task(t) => self.end_call(*t, call, out),
            Caller::Body(name) => self.end_call_in_body(name, call, out),
        }
    }

    /// The call of a task or of a body answers, into its target if it has one.
    pub(crate) fn answer_by<W: Witness>(
        &mut self,
        caller: &Caller,
        call: &Call,
        value: u32,
        out: &mut W,
    )
        requires { HasCaller caller.now self.old }
        ensures { Follows W.hearing (answered_by (caller_view caller.now) (call_view call.now) value) self.old self.new (W.told out.old) (W.told out.new) }
    {
        match caller {
            Caller::Task(t) => self.answer(*t, call, value, out),
            Caller::Body(name) => self.answer_in_body(name, call, value, out),
        }
    }

    /// A word that is not a call of Exec answers, and prints nothing, in a task or in a body.
    pub(crate) fn end_silently_by(&mut self, caller: &Caller, call: &Call, value: u32)
        requires { HasCaller caller.now self.old }
        ensures { Quietly (silent_by (caller_view caller.now) (call_view call.now) value) self.old self.new }
    {
        match caller {
            Caller::Task(t) => self.end_silently(*t, call, value),
            Caller::Body(_) => self.end_silently_in_body(call.target, value),
        }
    }

    /// The call of a task or of a body is refused: it changes nothing, and the machine stops for good.
    #[cold]
    pub(crate) fn alert_by<W: Witness>(
        &mut self,
        code: Alert,
        caller: &Caller,
        call: &Call,
        out: &mut W,
    )
        requires { HasCaller caller.now self.old }
        ensures { Follows W.hearing (alerted_by code (caller_view caller.now) (call_view call.now)) self.old self.new (W.told out.old) (W.told out.new) }
    {
        match caller {
            Caller::Task(t) => self.alert(code, *t, call, out),
            Caller::Body(name) => self.alert_in_body(code, name, call, out),
        }
    }

    /// A refused call stops the machine by the alert of its refusal.
    pub(crate) fn refuse_by<W: Witness>(
        &mut self,
        why: Refusal,
        caller: &Caller,
        call: &Call,
        out: &mut W,
    )
        requires { HasCaller caller.now self.old }
        ensures { Follows W.hearing (alerted_by (code_of why) (caller_view caller.now) (call_view call.now)) self.old self.new (W.told out.old) (W.told out.new) }
    {
        self.alert_by(why.alert(), caller, call, out);
    }

    // ---- a call on an object: done, or refused

    /// A refused call stops the machine by the alert of its refusal.
    pub(crate) fn refuse<W: Witness>(&mut self, why: Refusal, t: TaskId, call: &Call, out: &mut W)
        requires { HasTask t self.old }
        ensures { Follows W.hearing (alerted (code_of why) t (call_view call.now)) self.old self.new (W.told out.old) (W.told out.new) }
    {
        self.alert(why.alert(), t, call, out);
    }

    /// A call that answers nothing: it is done, or refused by its alert.
    pub(crate) fn conclude<W: Witness>(
        &mut self,
        tried: Result<(), Refusal>,
        t: TaskId,
        call: &Call,
        out: &mut W,
    )
        requires { HasTask t self.old }
        ensures { Follows W.hearing (done_or_alerted tried t (call_view call.now)) self.old self.new (W.told out.old) (W.told out.new) }
    {
        match tried {
            Ok(()) => self.end_call(t, call, out),
            Err(why) => self.refuse(why, t, call, out),
        }
    }

    /// A call that answers: it does, or is refused by its alert.
    pub(crate) fn conclude_with<W: Witness>(
        &mut self,
        tried: Result<u32, Refusal>,
        t: TaskId,
        call: &Call,
        out: &mut W,
    )
        requires { HasTask t self.old }
        ensures { Follows W.hearing (answered_or_alerted tried t (call_view call.now)) self.old self.new (W.told out.old) (W.told out.new) }
    {
        match tried {
            Ok(value) => self.answer(t, call, value, out),
            Err(why) => self.refuse(why, t, call, out),
        }
    }

    /// A call that answers, of a task or of a body: it does, or is refused by its alert.
    pub(crate) fn conclude_by<W: Witness>(
        &mut self,
        tried: Result<u32, Refusal>,
        caller: &Caller,
        call: &Call,
        out: &mut W,
    )
        requires { HasCaller caller.now self.old }
        ensures { Follows W.hearing (answered_or_alerted_by tried (caller_view caller.now) (call_view call.now)) self.old self.new (W.told out.old) (W.told out.new) }
    {
        match tried {
            Ok(value) => self.answer_by(caller, call, value, out),
            Err(why) => self.refuse_by(why, caller, call, out),
        }
    }
}
