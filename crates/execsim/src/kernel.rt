//! The machine without its failure to write. The methods here touch its fields, and have one equation each.
ghost use Rattle.std.specs.Prelude.{◌≡◌, ◌↔◌, ◌≤◌, ℕ, List, length, true, false, None, slice_index_or, slice_set, map, replicate, take, option_map};
ghost use Rattle.exectrace.specs.Short.{short_argument};
ghost use Rattle.scheduler.specs.Schedule.{task_name, task_count};
ghost use Rattle.execmodel.specs.{State.booted, State.program_of, State.shared_variables, Calls.content, Calls.evaluated, Calls.stored, Calls.goes_on, Calls.keeps, Signals.is_task};
ghost use Rattle.script.specs.{Commands.argument_view, Machines.IsMachine};
ghost use Rattle.execsim.specs.{Agreement.Agrees, Callers.HasTask, Resetting.HasRoomFor, Time.HasTimeFor, Views.IsFor, Views.call_view};

use crate::bodies::Bodies;
use crate::call::Call;
use crate::progress::Program;
use crate::reset::{reset_heap, reset_programs, reset_sched};
use execheap::Heap;
use execlist::space::ListSpace;
use exectrace::{Name, ShortArg};
use scheduler::Sched;
use script::{Argument, MachineFile, Variable};
use softint::ints::Ints;
use std::marker::Model;
use taskq::{TaskId, TaskInit};

/// How many variables all bodies share.
const SHARED_VARIABLES: usize = 64;

/// The tasks, what they execute, the memory with its objects, what interrupts execute, which of them are pending, and
/// whether an alert has stopped the machine.
#[derive(Drop)]
pub struct Kernel<S: ListSpace> {
    pub(crate) sched: Sched<S>,
    // Room for the names and priorities of the tasks, for `reset`.
    pub(crate) inits: Vec<TaskInit>,
    pub(crate) programs: Vec<Program>,
    pub(crate) shared: [u32; SHARED_VARIABLES],
    pub(crate) memory: Heap<S>,
    pub(crate) bodies: Bodies,
    pub(crate) ints: Ints<S>,
    pub(crate) stopped: bool,
}

impl<S: ListSpace> Model for Kernel<S> {
    ghost use Rattle.std.specs.Prelude.{◌≡◌, ◌≤◌, length};
    ghost use Rattle.execsim.specs.{Agreement.Seen, Views.IsFor};

    ghost Value = { Seen };

    ghost view = { λ k. record {
      schedule = k.sched;
      scripts = record { programs = k.programs.items; shared = k.shared };
      memory = k.memory;
      bodies = k.bodies;
      pending = record { caused = k.ints.caused; latches = k.ints.latches };
      stopped = k.stopped;
    } };

    ghost invariant = { λ k. (length k.programs.items ≡ length k.sched.queue.states) × (length k.inits.items ≡ length k.programs.items) × (length k.programs.items ≤ 4096) × IsFor k.bodies k.ints };
}

impl<S: ListSpace> Kernel<S> {
    /// The machine of these tasks, this memory and these interrupts, with every shared variable 0.
    pub(crate) fn new(
        sched: Sched<S>,
        inits: Vec<TaskInit>,
        programs: Vec<Program>,
        memory: Heap<S>,
        bodies: Bodies,
        ints: Ints<S>,
    ) -> Self
        requires each { length programs.items ≡ task_count sched }
        requires room { length inits.items ≡ length programs.items }
        requires few { length programs.items ≤ 4096 }
        requires interrupts { IsFor bodies ints }
        ensures { result ≡ record {
          schedule = sched;
          scripts = record { programs = programs.items; shared = replicate shared_variables 0 };
          memory = memory;
          bodies = bodies;
          pending = record { caused = ints.caused; latches = ints.latches };
          stopped = false;
        } }
    {
        Kernel {
            sched,
            inits,
            programs,
            shared: [0; SHARED_VARIABLES],
            memory,
            bodies,
            ints,
            stopped: false,
        }
    }

    /// Makes the machine that of a file before its start, if it is as large, and answers whether it is.
    pub(crate) fn reset(&mut self, file: &MachineFile) -> bool
        ensures answer { (result ≡ true) ↔ HasRoomFor file.now self.old }
        ensures agrees { result ≡ true → Agrees self.new (booted file.now) }
        ensures time { result ≡ true → HasTimeFor 1000000 self.new }
        ensures machine { IsMachine file.now }
    {
        let tasks = file.tasks();
        if !reset_programs(&mut self.programs, tasks)
            || !reset_heap(&mut self.memory, file)
            || !self.bodies.reset(file.softints(), file.servers())
        {
            return false;
        }
        reset_sched(&mut self.sched, &mut self.inits, tasks, file.quantum());
        self.ints.reset();
        self.shared = [0; SHARED_VARIABLES];
        self.stopped = false;
        true
    }

    /// The program of task t.
    #[inline(always)]
    pub(crate) fn program(&self, t: TaskId) -> &Program
        requires { HasTask t self.now }
        ensures { result.now ≡ program_of self.now.scripts t }
    {
        &self.programs[t]
    }

    /// The name of task t.
    pub(crate) fn name(&self, t: TaskId) -> &Name
        requires { HasTask t self.now }
        ensures { result.now.bytes ≡ task_name self.now.schedule t }
    {
        self.sched.name(t)
    }

    /// What a variable holds for task t; 0 if there is no such variable.
    #[inline(always)]
    pub(crate) fn content(&self, t: TaskId, variable: Variable) -> u32
        requires { HasTask t self.now }
        ensures { result ≡ content t self.now.scripts variable }
    {
        match variable {
            Variable::Private(k) => self.programs[t].variable(k as usize),
            Variable::Shared(k) => self.shared_content(k as usize),
        }
    }

    /// What a shared variable holds; 0 if there is no such variable.
    #[inline(always)]
    pub(crate) fn shared_content(&self, k: usize) -> u32
        ensures { result ≡ slice_index_or self.now.scripts.shared k 0 }
    {
        self.shared.get(k).copied().unwrap_or(0)
    }

    /// The value of an argument for task t.
    #[inline(always)]
    pub(crate) fn evaluate(&self, t: TaskId, argument: Argument) -> ShortArg
        requires { HasTask t self.now }
        ensures { (name : List ℕ) → short_argument name result ≡ evaluated t self.now.scripts (argument_view name argument) }
    {
        match argument {
            Argument::Number(n) => ShortArg::Value(n),
            Argument::Variable(variable) => ShortArg::Value(self.content(t, variable)),
            Argument::Quoted => ShortArg::Quoted,
            Argument::Place(place) => ShortArg::Value(place),
        }
    }

    /// Puts the values of that many arguments of a command for task t where they are to be; what is past them is
    /// unused.
    #[inline(always)]
    pub(crate) fn evaluate_all(
        &self,
        t: TaskId,
        arguments: &[Argument; 4],
        count: usize,
        values: &mut [ShortArg; 4],
    )
        requires known { HasTask t self.now }
        requires few { count ≤ 4 }
        ensures { (name : List ℕ) → map (short_argument name) (take count values.new)
            ≡ map (λ a. evaluated t self.now.scripts (argument_view name a)) (take count arguments.now) }
    {
        for k in 0..count {
            values[k] = self.evaluate(t, arguments[k]);
        }
    }

    /// Gives a variable of task t, or none, a value.
    #[inline(always)]
    pub(crate) fn store(&mut self, t: TaskId, target: Option<Variable>, value: u32)
        requires { HasTask t self.old }
        ensures { self.new ≡ record self.old { scripts = stored t target value self.old.scripts } }
    {
        match target {
            None => {}
            Some(Variable::Private(k)) => self.programs[t].store(k as usize, value),
            Some(Variable::Shared(k)) => self.store_shared(k as usize, value),
        }
    }

    /// Gives a shared variable a value; nothing changes if there is no such variable.
    #[inline(always)]
    pub(crate) fn store_shared(&mut self, k: usize, value: u32)
        ensures { self.new ≡ record self.old { scripts = record self.old.scripts { shared = slice_set self.old.scripts.shared k value } } }
    {
        if k < SHARED_VARIABLES {
            self.shared[k] = value;
        }
    }

    /// Task t goes on at the command of that place.
    #[inline(always)]
    pub(crate) fn go_on(&mut self, t: TaskId, next: usize)
        requires { HasTask t self.old }
        ensures { self.new ≡ record self.old { scripts = goes_on t next self.old.scripts } }
    {
        self.programs[t].go_on(next);
    }

    /// Task t will try this call again.
    pub(crate) fn keep(&mut self, t: TaskId, call: &Call)
        requires { HasTask t self.old }
        ensures { self.new ≡ record self.old { scripts = keeps t (call_view call.now) self.old.scripts } }
    {
        self.programs[t].keep(call);
    }

    /// The machine stops for good.
    pub(crate) fn stop(&mut self)
        ensures { self.new ≡ record self.old { stopped = true } }
    {
        self.stopped = true;
    }

    /// Whether an alert has stopped the machine.
    pub(crate) fn is_stopped(&self) -> bool
        ensures { result ≡ self.now.stopped }
    {
        self.stopped
    }

    /// Whether there is a task of that number; the first one is 1.
    pub(crate) fn is_task(&self, number: u32) -> bool
        ensures { result ≡ is_task number self.now.scripts }
    {
        0 < number && number as usize <= self.programs.len()
    }
}
