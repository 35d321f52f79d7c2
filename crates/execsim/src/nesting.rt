//! Forbid and Disable of the running task.
ghost use Rattle.std.specs.Prelude.{◌≡◌, is_some};
ghost use Rattle.forbid.specs.Nesting.{after_forbid, after_permit, after_disable, after_enable};
ghost use Rattle.scheduler.specs.Schedule.{nesting_of, nested};
ghost use Rattle.execmodel.specs.Nesting.{done_or_nest, does_forbid, does_permit, does_disable, does_enable, does_nesting};
ghost use Rattle.execsim.specs.{Callers.HasTask, Callers.Runs, Agreement.Follows, Views.call_view};

use crate::call::Call;
use crate::kernel::Kernel;
use execlist::space::ListSpace;
use exectrace::Witness;
use script::{Alert, NestingWord};
use taskq::TaskId;

impl<S: ListSpace> Kernel<S> {
    /// Counts one more Forbid of the running task, and answers whether its count has room for it.
    fn count_forbid(&mut self, t: TaskId) -> bool
        requires { Runs t self.old }
        ensures answer { result ≡ is_some (after_forbid (nesting_of self.old.schedule t)) }
        ensures next { self.new ≡ record self.old { schedule = nested t (after_forbid (nesting_of self.old.schedule t)) self.old.schedule } }
    {
        self.sched.forbid().is_ok()
    }

    /// Takes back one Forbid of the running task, and answers whether there was one.
    fn count_permit(&mut self, t: TaskId) -> bool
        requires { Runs t self.old }
        ensures answer { result ≡ is_some (after_permit (nesting_of self.old.schedule t)) }
        ensures next { self.new ≡ record self.old { schedule = nested t (after_permit (nesting_of self.old.schedule t)) self.old.schedule } }
    {
        self.sched.permit().is_ok()
    }

    /// Counts one more Disable of the running task, and answers whether its count has room for it.
    fn count_disable(&mut self, t: TaskId) -> bool
        requires { Runs t self.old }
        ensures answer { result ≡ is_some (after_disable (nesting_of self.old.schedule t)) }
        ensures next { self.new ≡ record self.old { schedule = nested t (after_disable (nesting_of self.old.schedule t)) self.old.schedule } }
    {
        self.sched.disable().is_ok()
    }

    /// Takes back one Disable of the running task, and answers whether there was one.
    fn count_enable(&mut self, t: TaskId) -> bool
        requires { Runs t self.old }
        ensures answer { result ≡ is_some (after_enable (nesting_of self.old.schedule t)) }
        ensures next { self.new ≡ record self.old { schedule = nested t (after_enable (nesting_of self.old.schedule t)) self.old.schedule } }
    {
        self.sched.enable().is_ok()
    }

    /// A call that has counted is done; one that could not is refused.
    fn counted<W: Witness>(&mut self, fits: bool, t: TaskId, call: &Call, out: &mut W)
        requires { HasTask t self.old }
        ensures { Follows W.hearing (done_or_nest fits t (call_view call.now)) self.old self.new (W.told out.old) (W.told out.new) }
    {
        if fits {
            self.end_call(t, call, out);
        } else {
            self.alert(Alert::Nest, t, call, out);
        }
    }

    /// Forbid (autodoc exec.library/Forbid).
    fn forbid<W: Witness>(&mut self, t: TaskId, call: &Call, out: &mut W)
        requires known { HasTask t self.old }
        requires runs { Runs t self.old }
        ensures { Follows W.hearing (does_forbid t (call_view call.now)) self.old self.new (W.told out.old) (W.told out.new) }
    {
        let fits = self.count_forbid(t);
        self.counted(fits, t, call, out);
    }

    /// Permit (autodoc exec.library/Permit).
    fn permit<W: Witness>(&mut self, t: TaskId, call: &Call, out: &mut W)
        requires known { HasTask t self.old }
        requires runs { Runs t self.old }
        ensures { Follows W.hearing (does_permit t (call_view call.now)) self.old self.new (W.told out.old) (W.told out.new) }
    {
        let fits = self.count_permit(t);
        self.counted(fits, t, call, out);
    }

    /// Disable (autodoc exec.library/Disable).
    fn disable<W: Witness>(&mut self, t: TaskId, call: &Call, out: &mut W)
        requires known { HasTask t self.old }
        requires runs { Runs t self.old }
        ensures { Follows W.hearing (does_disable t (call_view call.now)) self.old self.new (W.told out.old) (W.told out.new) }
    {
        let fits = self.count_disable(t);
        self.counted(fits, t, call, out);
    }

    /// Enable (autodoc exec.library/Enable).
    fn enable<W: Witness>(&mut self, t: TaskId, call: &Call, out: &mut W)
        requires known { HasTask t self.old }
        requires runs { Runs t self.old }
        ensures { Follows W.hearing (does_enable t (call_view call.now)) self.old self.new (W.told out.old) (W.told out.new) }
    {
        let fits = self.count_enable(t);
        self.counted(fits, t, call, out);
    }

    /// A call of task t on its nesting, by its word.
    pub(crate) fn does_nesting<W: Witness>(
        &mut self,
        word: NestingWord,
        t: TaskId,
        call: &Call,
        out: &mut W,
    )
        requires known { HasTask t self.old }
        requires runs { Runs t self.old }
        ensures { Follows W.hearing (does_nesting word t (call_view call.now)) self.old self.new (W.told out.old) (W.told out.new) }
    {
        match word {
            NestingWord::Forbid => self.forbid(t, call, out),
            NestingWord::Permit => self.permit(t, call, out),
            NestingWord::Disable => self.disable(t, call, out),
            NestingWord::Enable => self.enable(t, call, out),
        }
    }
}
