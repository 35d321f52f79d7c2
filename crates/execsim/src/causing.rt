//! The word Cause: a software interrupt is caused by its name.
ghost use Rattle.std.specs.Prelude.{◌≡◌, [], ◌∷◌, option_copied, slice_get, take, true, option_map, unwrap_or};
ghost use Rattle.exectrace.specs.Trace.{Quoted};
ghost use Rattle.execmodel.specs.{Calls.ByTask, Calls.name_argument, Pending.softint_number, Causing.does_cause_by, Causing.does_interrupts};
ghost use Rattle.execsim.specs.{Callers.HasTask, Callers.HasCaller, Agreement.Follows, Views.call_view, Views.caller_view};

use crate::body_calls::is_cause;
use crate::call::{Call, Caller};
use crate::kernel::Kernel;
use execlist::space::ListSpace;
use exectrace::{Name, ShortArg, Witness};
use script::{InterruptWord, Word};
use softint::caused::IntId;
use taskq::TaskId;

/// The name that is the first argument of a call, if one is.
fn first_name(call: &Call) -> Option<&Name>
    ensures { option_map (λ n. n.bytes) (option_copied result) ≡ name_argument 0 (call_view call.now) }
{
    match call.shown().get(0) {
        Some(ShortArg::Quoted) => Some(&call.quoted),
        _ => None,
    }
}

/// The first argument of a call, if it has any.
#[inline(always)]
fn first_argument(call: &Call) -> Option<&ShortArg>
    ensures { option_copied result ≡ slice_get (take call.now.count call.now.arguments) 0 }
{
    call.arguments[..call.count].get(0)
}

/// Whether a call has one argument, and that is a name.
#[inline(always)]
fn quotes_alone(call: &Call) -> bool
    ensures { result ≡ true → (call_view call.now).arguments ≡ Quoted call.now.quoted.bytes ∷ [] }
{
    if call.count != 1 {
        return false;
    }
    match first_argument(call) {
        Some(ShortArg::Quoted) => true,
        _ => false,
    }
}

impl<S: ListSpace> Kernel<S> {
    /// The number of the software interrupt of the name that is the first argument of a call.
    #[inline(always)]
    fn softint_of_call(&self, call: &Call) -> IntId
        ensures { result ≡ softint_number (unwrap_or (name_argument 0 (call_view call.now)) []) self.now.bodies.softints }
    {
        match first_name(call) {
            Some(name) => self.softint_named(name),
            None => self.softint_named(&Name::new()),
        }
    }

    /// Cause name: the software interrupt of that name is to run, after those of its priority; one that is caused
    /// already stays where it is (autodoc exec.library/Cause).
    pub(crate) fn cause_named<W: Witness>(&mut self, caller: &Caller, call: &Call, out: &mut W)
        requires { HasCaller caller.now self.old }
        ensures { Follows W.hearing (does_cause_by (caller_view caller.now) (call_view call.now)) self.old self.new (W.told out.old) (W.told out.new) }
    {
        let i = self.softint_of_call(call);
        self.cause(i);
        self.end_call_by(caller, call, out);
    }

    /// Cause name, of task t, as `cause_named` does it. The line of a call with a name alone is built here.
    #[inline(always)]
    fn cause_by_task<W: Witness>(&mut self, t: TaskId, call: &Call, out: &mut W)
        requires { HasTask t self.old }
        ensures { Follows W.hearing (does_cause_by (ByTask t) (call_view call.now)) self.old self.new (W.told out.old) (W.told out.new) }
    {
        if !is_cause(call.word) {
            self.cause_named(&Caller::Task(t), call, out);
            return;
        }
        if !quotes_alone(call) {
            self.cause_named(&Caller::Task(t), call, out);
            return;
        }
        let own = &call.quoted;
        let i = self.softint_named(own);
        self.cause(i);
        let word = Word::Interrupts(InterruptWord::Cause);
        self.tell(t, word, &[ShortArg::Quoted], own, out);
        self.go_on(t, call.next);
    }

    /// A call of task t on interrupts, by its word.
    #[tactic(auto, unfolding(execmodel::specs::Causing::does_cause))]
    pub(crate) fn does_interrupts<W: Witness>(
        &mut self,
        word: InterruptWord,
        t: TaskId,
        call: &Call,
        out: &mut W,
    )
        requires { HasTask t self.old }
        ensures { Follows W.hearing (does_interrupts word t (call_view call.now)) self.old self.new (W.told out.old) (W.told out.new) }
    {
        match word {
            InterruptWord::Cause => self.cause_by_task(t, call, out),
        }
    }
}
