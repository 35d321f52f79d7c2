//! Steps and settling: all interleaving comes from the list of events.
ghost use Rattle.std.specs.Prelude.{◌≡◌, ◌<◌, ◌≤◌, false, is_some, length, sum_by, Some, None, IfSome, IsTrue, if◌then◌else◌, true};
ghost use Rattle.execlist.specs.Disciplines.{by_priority};
ghost use Rattle.script.specs.Events.{event_ticks};
ghost use Rattle.scheduler.specs.{Schedule.IsToOneOf, Dispatch.switch_of, Dispatch.rescheduled, Dispatch.added};
ghost use Rattle.softint.specs.Sources.{highest};
ghost use Rattle.execmodel.specs.Step.{announced, switches, settle, does, ends, acts, step_action, step, steps, request, tick, ticks, starts, all_added, event, events, task_step};
ghost use Rattle.execmodel.specs.{State.andthen, State.on_schedule, State.program_of, State.unless_stopped, Calls.next_call, Interrupts.interrupts};
ghost use Rattle.execsim.specs.{Callers.HasTask, Callers.Runs, Actions.running_task_step, Agreement.Follows, Agreement.FollowsWhileGood, Agreement.Moves, Reached.IsInOrder, Resting.IsSettled, Time.HasTimeFor, Time.IsInTime, Time.IsKnown, Views.call_view};

use crate::call::Call;
use crate::kernel::Kernel;
use execlist::space::ListSpace;
use exectrace::{Said, ShortArg, Witness};
use scheduler::Switch;
use script::{Event, TaskWord, Word};
use softint::source::Source;
use taskq::TaskId;

impl<S: ListSpace> Kernel<S> {
    // ---- settle

    /// The switch to another task, or to being idle, if one is due.
    fn switch<W: Witness>(&mut self, out: &mut W)
        ensures { Follows W.hearing switches self.old self.new (W.told out.old) (W.told out.new) }
    {
        let choice = self.reschedule();
        self.announce(choice, out);
    }

    #[inline(always)]
    fn reschedule(&mut self) -> Option<Switch>
        ensures answer { result ≡ switch_of by_priority self.old.schedule }
        ensures next { self.new ≡ record self.old { schedule = rescheduled by_priority self.old.schedule } }
        ensures known { IsToOneOf result (length self.new.scripts.programs) }
    {
        self.sched.reschedule()
    }

    /// Prints the line of a switch, if one was made.
    fn announce<W: Witness>(&self, choice: Option<Switch>, out: &mut W)
        requires { IsToOneOf choice (length self.now.scripts.programs) }
        ensures { Follows W.hearing (announced choice) self.now self.now (W.told out.old) (W.told out.new) }
    {
        match choice {
            None => {}
            Some(Switch::Idle) => out.hear(&Said::Idle),
            Some(Switch::To(t)) => {
                let who = self.name(t);
                out.hear(&Said::Switch(who));
            }
        }
    }

    /// The switch, unless an alert has stopped the machine.
    fn switch_unless_stopped<W: Witness>(&mut self, out: &mut W)
        ensures { Follows W.hearing (unless_stopped switches) self.old self.new (W.told out.old) (W.told out.new) }
    {
        if !self.stopped {
            self.switch(out);
        }
    }

    #[inline(always)]
    fn serve_and_switch<W: Witness>(&mut self, out: &mut W)
        ensures { Follows W.hearing (andthen interrupts (unless_stopped switches)) self.old self.new (W.told out.old) (W.told out.new) }
    {
        self.interrupt(out);
        self.switch_unless_stopped(out);
    }

    /// What follows each action; a stopped machine stays as it is.
    #[inline(always)]
    pub(crate) fn settle<W: Witness>(&mut self, out: &mut W)
        ensures { Follows W.hearing settle self.old self.new (W.told out.old) (W.told out.new) }
    {
        if !self.stopped {
            self.serve_and_switch(out);
        }
    }

    /// What follows each step, as `settle`. The answer is whether nothing was due, so that the machine is settled.
    #[inline(always)]
    fn settle_after_step<W: Witness>(&mut self, out: &mut W) -> bool
        ensures follows { Follows W.hearing settle self.old self.new (W.told out.old) (W.told out.new) }
        ensures settled { IsTrue result → IsSettled self.new }
    {
        if self.stopped {
            return false;
        }
        if self.any_latched() {
            self.settle(out);
            return false;
        }
        self.switch_if_due(out)
    }

    /// The switch of a machine that goes on and in which no source asks. The answer is whether none was due.
    #[inline(always)]
    fn switch_if_due<W: Witness>(&mut self, out: &mut W) -> bool
        requires going { self.old.stopped ≡ false }
        requires unasked { is_some (highest self.old.pending.latches) ≡ false }
        ensures follows { Follows W.hearing settle self.old self.new (W.told out.old) (W.told out.new) }
        ensures settled { IsTrue result → IsSettled self.new }
    {
        let choice = self.reschedule();
        self.announce(choice, out);
        match choice {
            None => true,
            Some(_) => false,
        }
    }

    // ---- step

    /// A call of task t, by the group of its word. If it sets system time, those that wait for that are looked at after
    /// the call's own line.
    #[tactic(auto, unfolding(execmodel::specs::Step::does))]
    fn does<W: Witness>(&mut self, t: TaskId, call: &Call, out: &mut W)
        requires known { HasTask t self.old }
        requires runs { Runs t self.old }
        requires agree { IsInOrder self.old }
        ensures { Follows W.hearing (does t (call_view call.now)) self.old self.new (W.told out.old) (W.told out.new) }
    {
        match call.word {
            Word::Plain(word) => self.does_plain(word, t, call, out),
            Word::Signals(word) => self.does_signals(word, t, call, out),
            Word::Nesting(word) => self.does_nesting(word, t, call, out),
            Word::Tasks(word) => self.does_tasks(word, t, call, out),
            Word::Lists(word) => self.does_lists(word, t, call, out),
            Word::Memory(word) => self.does_memory(word, t, call, out),
            Word::Ports(word) => self.does_ports(word, t, call, out),
            Word::Semaphores(word) => self.does_semaphores(word, t, call, out),
            Word::Interrupts(word) => self.does_interrupts(word, t, call, out),
            Word::Libraries(word) => self.does_libraries(word, t, call, out),
            Word::Requests(word) => {
                self.does_requests(word, t, call, out);
                self.finish_set(out);
            }
        }
    }

    /// A task whose commands are used up ends, as by RemTask 0.
    #[inline(never)]
    fn end<W: Witness>(&mut self, t: TaskId, out: &mut W)
        requires known { HasTask t self.old }
        requires runs { Runs t self.old }
        ensures { Follows W.hearing (ends t) self.old self.new (W.told out.old) (W.told out.new) }
    {
        let name = self.name(t);
        let word = Word::Tasks(TaskWord::RemTask);
        self.tell(t, word, &[ShortArg::Value(0)], name, out);
        self.leave(t);
    }

    /// Task t, which runs, makes this call, which is its next one.
    #[inline(always)]
    fn do_call<W: Witness>(&mut self, t: TaskId, call: &Call, out: &mut W)
        requires known { HasTask t self.old }
        requires runs { Runs t self.old }
        requires agree { IsInOrder self.old }
        requires next { next_call t self.old.scripts ≡ Some (call_view call.now) }
        ensures { Follows W.hearing (task_step (Some t)) self.old self.new (W.told out.old) (W.told out.new) }
    {
        self.does(t, call, out);
    }

    /// Task t, which runs and has no call left to make, ends.
    #[inline(always)]
    fn end_task<W: Witness>(&mut self, t: TaskId, out: &mut W)
        requires known { HasTask t self.old }
        requires runs { Runs t self.old }
        requires next { next_call t self.old.scripts ≡ None }
        ensures { Follows W.hearing (task_step (Some t)) self.old self.new (W.told out.old) (W.told out.new) }
    {
        self.end(t, out);
    }

    /// Task t, which runs, tries the call again that it waits in, or makes that of its next command, or ends.
    #[inline(never)]
    fn next_call<W: Witness>(&mut self, t: TaskId, out: &mut W)
        requires known { HasTask t self.old }
        requires runs { Runs t self.old }
        requires agree { IsInOrder self.old }
        ensures { Follows W.hearing (task_step (Some t)) self.old self.new (W.told out.old) (W.told out.new) }
    {
        let program = self.program(t);
        match program.kept() {
            Some(kept) => {
                let call = *kept;
                self.do_call(t, &call, out);
            }
            None => match program.command() {
                Some(command) => {
                    let mut call = Call {
                        word: command.word,
                        target: command.target,
                        arguments: [ShortArg::Value(0); 4],
                        count: command.count as usize,
                        quoted: command.name,
                        next: program.next(),
                        awaited: 0,
                    };
                    let count = command.count as usize;
                    self.evaluate_all(t, &command.arguments, count, &mut call.arguments);
                    self.do_call(t, &call, out);
                }
                None => self.end_task(t, out),
            },
        }
    }

    /// The running task does one command; if none runs, the step is used up.
    fn run_task<W: Witness>(&mut self, out: &mut W)
        requires { IsInOrder self.old }
        ensures { Follows W.hearing running_task_step self.old self.new (W.told out.old) (W.told out.new) }
    {
        match self.running() {
            None => {}
            Some(t) => self.next_call(t, out),
        }
    }

    /// A software interrupt that may run does so, or else the running task does one command.
    fn run_one<W: Witness>(&mut self, out: &mut W)
        requires { IsInOrder self.old }
        ensures { Follows W.hearing step_action self.old self.new (W.told out.old) (W.told out.new) }
    {
        match self.take_softint() {
            Some(i) => self.run_softint(i, out),
            None => self.run_task(out),
        }
    }

    pub(crate) fn running(&self) -> Option<TaskId>
        ensures value { result ≡ self.now.schedule.running }
        ensures known { IfSome result (λ t. HasTask t self.now) }
    {
        self.sched.running()
    }

    /// What a step does before the machine settles; a stopped machine does nothing.
    fn act<W: Witness>(&mut self, out: &mut W)
        requires { IsInOrder self.old }
        ensures { Follows W.hearing acts self.old self.new (W.told out.old) (W.told out.new) }
    {
        if !self.stopped {
            self.run_one(out);
        }
    }

    /// One step. The answer is whether nothing was due after it, so that the machine is settled.
    pub(crate) fn step<W: Witness>(&mut self, out: &mut W) -> bool
        requires { IsInOrder self.old }
        ensures follows { Follows W.hearing step self.old self.new (W.told out.old) (W.told out.new) }
        ensures settled { IsTrue result → IsSettled self.new }
    {
        self.act(out);
        self.settle_after_step(out)
    }

    /// One step, and those after it that ask nothing of Exec; at most that many, of which there is one. The answer is
    /// how many.
    fn some_steps<W: Witness>(&mut self, most: u32, out: &mut W) -> u32
        requires one { 0 < most }
        requires agree { IsInOrder self.old }
        ensures some { 0 < result }
        ensures within { result ≤ most }
        ensures follows { Follows W.hearing (steps result) self.old self.new (W.told out.old) (W.told out.new) }
    {
        if self.step(out) {
            self.plain_steps(most - 1, out) + 1
        } else {
            1
        }
    }

    /// Some steps, as long as the sink is good; after a failed write nothing more is simulated, and all of them are
    /// done.
    fn some_steps_while_good<W: Witness>(&mut self, most: u32, out: &mut W) -> u32
        requires one { 0 < most }
        requires agree { W.hearing.good (W.told out.old) ≡ true → IsInOrder self.old }
        ensures some { 0 < result }
        ensures within { result ≤ most }
        ensures follows { FollowsWhileGood W.hearing (steps result) self.old self.new (W.told out.old) (W.told out.new) }
    {
        if out.is_good() {
            self.some_steps(most, out)
        } else {
            most
        }
    }

    /// That many steps.
    fn steps<W: Witness>(&mut self, n: u32, out: &mut W)
        requires { W.hearing.good (W.told out.old) ≡ true → IsKnown self.old }
        ensures { FollowsWhileGood W.hearing (steps n) self.old self.new (W.told out.old) (W.told out.new) }
    {
        let mut done = 0;
        while done < n {
            done += self.some_steps_while_good(n - done, out);
        }
    }

    // ---- run

    /// An interrupt is requested, and the machine settles; a stopped machine does nothing.
    fn request<W: Witness>(&mut self, source: Source, out: &mut W)
        ensures { Follows W.hearing (request source) self.old self.new (W.told out.old) (W.told out.new) }
    {
        if !self.stopped {
            self.latch(source);
            self.settle(out);
        }
    }

    /// An interrupt is requested, as long as the sink is good.
    fn request_while_good<W: Witness>(&mut self, source: Source, out: &mut W)
        ensures { FollowsWhileGood W.hearing (request source) self.old self.new (W.told out.old) (W.told out.new) }
    {
        if out.is_good() {
            self.request(source, out);
        }
    }

    /// One tick of the vertical blank: the clock gains it, and VERTB is requested; a stopped machine does nothing.
    fn tick<W: Witness>(&mut self, out: &mut W)
        requires { HasTimeFor 1 self.old }
        ensures { Follows W.hearing tick self.old self.new (W.told out.old) (W.told out.new) }
    {
        if !self.stopped {
            self.gain_tick();
            self.request(Source::Vertb, out);
        }
    }

    /// One tick, as long as the sink is good.
    fn tick_while_good<W: Witness>(&mut self, out: &mut W)
        requires { W.hearing.good (W.told out.old) ≡ true → HasTimeFor 1 self.old }
        ensures { FollowsWhileGood W.hearing tick self.old self.new (W.told out.old) (W.told out.new) }
    {
        if out.is_good() {
            self.tick(out);
        }
    }

    /// That many ticks.
    fn ticks<W: Witness>(&mut self, n: u32, out: &mut W)
        requires { W.hearing.good (W.told out.old) ≡ true → IsInTime n self.old }
        ensures { FollowsWhileGood W.hearing (ticks n) self.old self.new (W.told out.old) (W.told out.new) }
    {
        for _tick in 0..n {
            self.tick_while_good(out);
        }
    }

    /// The tasks that start with the machine are added in the order of the file.
    fn add_all(&mut self)
        ensures { Moves (on_schedule (all_added self.old.scripts (length self.old.scripts.programs))) self.old self.new }
    {
        for t in 0..self.programs.len() {
            self.start_task(t);
        }
    }

    /// Task t is added, if it starts with the machine.
    fn start_task(&mut self, t: TaskId)
        requires { HasTask t self.old }
        ensures { self.new ≡ record self.old {
          schedule =
              (if (program_of self.old.scripts t).starts then added by_priority t self.old.schedule else self.old.schedule);
        } }
    {
        if self.programs[t].starts() {
            self.add(t);
        }
    }

    /// The start of the machine.
    pub(crate) fn start<W: Witness>(&mut self, out: &mut W)
        ensures { Follows W.hearing starts self.old self.new (W.told out.old) (W.told out.new) }
    {
        self.add_all();
        self.settle(out);
    }

    /// One event.
    #[tactic(auto, unfolding(execmodel::specs::Step::event))]
    pub(crate) fn event<W: Witness>(&mut self, one: Event, out: &mut W)
        requires { W.hearing.good (W.told out.old) ≡ true → IsInTime (event_ticks one) self.old }
        ensures { FollowsWhileGood W.hearing (event one) self.old self.new (W.told out.old) (W.told out.new) }
    {
        match one {
            Event::Run(n) => self.steps(n, out),
            Event::Tick(n) => self.ticks(n, out),
            Event::Irq(source) => self.request_while_good(source, out),
        }
    }

    /// One event after another.
    pub(crate) fn events<W: Witness>(&mut self, list: &[Event], out: &mut W)
        requires { W.hearing.good (W.told out.old) ≡ true → IsInTime (sum_by event_ticks list.now) self.old }
        ensures { FollowsWhileGood W.hearing (events list.now) self.old self.new (W.told out.old) (W.told out.new) }
    {
        for one in list {
            self.event(*one, out);
        }
    }
}
