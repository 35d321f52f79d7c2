//! A machine whose bodies grow while it runs: a command is fed to a task, at the end of its body, and a caller sees
//! when a task comes to the end of its body. The laws `execmodel::feeding` say that what comes of it is what comes of
//! the machine whose bodies are whole from the start.
ghost use Rattle.std.specs.Prelude.{◌≡◌, OnErr, OnOk};
ghost use Rattle.script.specs.Commands.{command_view};
ghost use Rattle.execmodel.specs.{Calls.next_call, Feeding.at_end, Feeding.fed, Feeding.fed_to, Feeding.if_no_call, Feeding.without_call, State.State};
ghost use Rattle.execsim.specs.{Agreement.Agrees, Agreement.Moves, Callers.HasTask, Readers.end_seen};

use super::Machine;
use crate::kernel::Kernel;
use execlist::space::ListSpace;
use script::Command;
use std::alloc::AllocError;
use taskq::TaskId;

impl<S: ListSpace> Machine<S> {
    /// Feeds a command to a task, by its number from 0 in the order of the file: it becomes the last one of the task's
    /// body. Nothing changes if there is no such task. A task that is at the end of its body then goes on with it. The
    /// command jumps nowhere, and has no variable, as `read_fed` of `taskscript` reads it, so it is the same in each
    /// body.
    ///
    /// # Errors
    ///
    /// Memory is refused. The machine stays as it is.
    ///
    /// Source: project rule.
    pub fn feed(&mut self, t: TaskId, command: Command) -> Result<(), AllocError>
        ensures fed { OnOk result (self.new ≡ record self.old { seen = record self.old.seen { scripts = fed_to t (command_view command) self.old.seen.scripts } }) }
        ensures moves { OnOk result (Moves (fed t (command_view command)) self.old.seen self.new.seen) }
        ensures kept { OnErr result (self.new ≡ self.old) }
    {
        self.is_settled = false;
        self.kernel.feed(t, command)
    }

    /// Answers the task that the next step finds at the end of its body: it runs, no software interrupt runs first, it
    /// waits in no call, and none of its commands is left. That step ends the task, unless it is fed before. None if
    /// the next step finds no task so.
    ///
    /// Source: project rule.
    pub fn at_end(&self) -> Option<TaskId>
        ensures { (s : State) → Agrees self.now.seen s → result ≡ at_end s }
    {
        self.kernel.at_end()
    }
}

impl<S: ListSpace> Kernel<S> {
    /// The body of task t has one more command at its end.
    fn feed_task(&mut self, t: TaskId, command: Command) -> Result<(), AllocError>
        requires { HasTask t self.old }
        ensures fed { OnOk result (self.new ≡ record self.old { scripts = fed_to t (command_view command) self.old.scripts }) }
        ensures kept { OnErr result (self.new ≡ self.old) }
    {
        self.programs[t].feed(command)
    }

    /// The same, if there is such a task.
    fn feed(&mut self, t: TaskId, command: Command) -> Result<(), AllocError>
        ensures fed { OnOk result (self.new ≡ record self.old { scripts = fed_to t (command_view command) self.old.scripts }) }
        ensures kept { OnErr result (self.new ≡ self.old) }
    {
        if t < self.programs.len() {
            self.feed_task(t, command)
        } else {
            Ok(())
        }
    }

    /// Task t, if it has no call to make.
    fn if_at_end(&self, t: TaskId) -> Option<TaskId>
        requires { HasTask t self.now }
        ensures { result ≡ if_no_call (next_call t self.now.scripts) t }
    {
        let program = self.program(t);
        match program.kept() {
            Some(_) => None,
            None => match program.command() {
                Some(_) => None,
                None => Some(t),
            },
        }
    }

    /// The running task, if it has no call to make.
    fn running_at_end(&self) -> Option<TaskId>
        ensures { result ≡ without_call self.now.schedule.running self.now.scripts }
    {
        match self.running() {
            None => None,
            Some(t) => self.if_at_end(t),
        }
    }

    /// The task that the next step finds at the end of its body.
    fn at_end(&self) -> Option<TaskId>
        ensures { result ≡ end_seen self.now }
    {
        if self.stopped || self.softint_runs_next() {
            None
        } else {
            self.running_at_end()
        }
    }
}
