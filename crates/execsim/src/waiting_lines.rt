//! How the tasks are between two events, as text: who runs, and the call of each task that waits.
ghost use Rattle.exectrace.specs.Sink.{Puts};
ghost use Rattle.execsim.specs.{Callers.HasTask, WaitingLines.runs_text, WaitingLines.standing_text, WaitingLines.wait_text, WaitingLines.waits_text};
ghost use Rattle.scheduler.specs.Schedule.{task_count};

use crate::kernel::Kernel;
use execlist::space::ListSpace;
use exectrace::Sink;
use exectrace::lines::CallOutcome;
use exectrace::printing::put_idle;
use exectrace::sinks::put;
use taskq::{TaskId, TaskState};

impl<S: ListSpace> Kernel<S> {
    /// Puts who runs.
    fn put_runner<W: Sink>(&self, out: &mut W)
        ensures { Puts (W.tape out.old) (W.tape out.new) (runs_text self.now.schedule.running self.now.schedule) }
    {
        match self.running() {
            None => put_idle(out),
            Some(t) => {
                put(self.name(t).as_str().as_bytes(), out);
                put(b" runs\n", out);
            }
        }
    }

    /// Puts the line of the call that task t waits in, if it waits.
    fn put_wait<W: Sink>(&self, t: TaskId, out: &mut W)
        requires { HasTask t self.now }
        ensures { Puts (W.tape out.old) (W.tape out.new) (wait_text t self.now.schedule self.now.scripts) }
    {
        if let TaskState::Waiting(_) = self.sched.state(t) {
            if let Some(call) = self.program(t).kept() {
                self.say(t, call, CallOutcome::Waits, out);
            }
        }
    }

    /// Puts the line of the call of each task that waits.
    fn put_waits<W: Sink>(&self, out: &mut W)
        ensures { Puts (W.tape out.old) (W.tape out.new) (waits_text (task_count self.now.schedule) self.now.schedule self.now.scripts) }
    {
        for t in 0..self.programs.len() {
            self.put_wait(t, out);
        }
    }

    /// Puts who runs, and the line of the call of each task that waits.
    pub(crate) fn put_standing<W: Sink>(&self, out: &mut W)
        ensures { Puts (W.tape out.old) (W.tape out.new) (standing_text self.now.schedule self.now.scripts) }
    {
        self.put_runner(out);
        self.put_waits(out);
    }
}
