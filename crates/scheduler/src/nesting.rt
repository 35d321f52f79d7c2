//! Forbid and Disable of the running task, and what they allow (autodocs exec.library/Forbid and exec.library/Disable).
ghost use Rattle.std.specs.Prelude.{◌≡◌, ◌<◌, IsSome, IfSome};
ghost use Rattle.std.specs.Borrow.{sem};
ghost use Rattle.forbid.specs.Nesting.{may_switch, may_interrupt, after_forbid, after_permit, after_disable, after_enable};
ghost use Rattle.scheduler.specs.{Schedule.task_count, Schedule.nesting_of, Schedule.is_switching_allowed, Schedule.is_interrupting_allowed, Schedule.nested, Schedule.nest_answer, Lending.lends_nesting};

use crate::Sched;
use execlist::space::ListSpace;
use forbid::{Nest, NestFault};
use taskq::TaskId;

impl<S: ListSpace> Sched<S> {
    /// Counts one more Forbid of the running task: no other task runs until as many calls of `permit`.
    ///
    /// It is `TooDeep` and changes nothing if the count is 127 (project rule).
    /// Source: autodoc exec.library/Forbid.
    pub fn forbid(&mut self) -> Result<(), NestFault>
        requires { IsSome self.old.running }
        ensures answer { IfSome self.old.running
            (λ t. result ≡ nest_answer NestFault.TooDeep (after_forbid (nesting_of self.old t))) }
        ensures next { IfSome self.old.running
            (λ t. self.new ≡ nested t (after_forbid (nesting_of self.old t)) self.old) }
        ensures tasks { task_count self.new ≡ task_count self.old }
    {
        let t = self.runner();
        self.settled = false;
        self.nests[t].forbid()
    }

    /// Takes back one Forbid of the running task; no switch is made.
    ///
    /// It is `NotNested` and changes nothing if the count is -1 (project rule).
    /// Source: autodoc exec.library/Permit.
    pub fn permit(&mut self) -> Result<(), NestFault>
        requires { IsSome self.old.running }
        ensures answer { IfSome self.old.running
            (λ t. result ≡ nest_answer NestFault.NotNested (after_permit (nesting_of self.old t))) }
        ensures next { IfSome self.old.running
            (λ t. self.new ≡ nested t (after_permit (nesting_of self.old t)) self.old) }
        ensures tasks { task_count self.new ≡ task_count self.old }
    {
        let t = self.runner();
        self.settled = false;
        self.nests[t].permit()
    }

    /// Counts one more Disable of the running task: until as many calls of `enable` no other task runs and no
    /// interrupt is served.
    ///
    /// It is `TooDeep` and changes nothing if the count is 127 (project rule).
    /// Source: autodoc exec.library/Disable.
    pub fn disable(&mut self) -> Result<(), NestFault>
        requires { IsSome self.old.running }
        ensures answer { IfSome self.old.running
            (λ t. result ≡ nest_answer NestFault.TooDeep (after_disable (nesting_of self.old t))) }
        ensures next { IfSome self.old.running
            (λ t. self.new ≡ nested t (after_disable (nesting_of self.old t)) self.old) }
        ensures tasks { task_count self.new ≡ task_count self.old }
    {
        let t = self.runner();
        self.settled = false;
        self.nests[t].disable()
    }

    /// Takes back one Disable of the running task; no switch is made.
    ///
    /// It is `NotNested` and changes nothing if the count is -1 (project rule).
    /// Source: autodoc exec.library/Enable.
    pub fn enable(&mut self) -> Result<(), NestFault>
        requires { IsSome self.old.running }
        ensures answer { IfSome self.old.running
            (λ t. result ≡ nest_answer NestFault.NotNested (after_enable (nesting_of self.old t))) }
        ensures next { IfSome self.old.running
            (λ t. self.new ≡ nested t (after_enable (nesting_of self.old t)) self.old) }
        ensures tasks { task_count self.new ≡ task_count self.old }
    {
        let t = self.runner();
        self.settled = false;
        self.nests[t].enable()
    }

    /// Lends the nesting of the running task: what is left in it when the loan ends is what the task has.
    ///
    /// Source: RKM Libraries, Exec Tasks, on forbidding and disabling.
    pub fn nest(&mut self) -> &mut Nest
        requires { IsSome self.old.running }
        ensures value { IfSome self.old.running (λ t. result.now ≡ nesting_of self.old t) }
        ensures* writes_back { sem 𝓛 (lends_nesting S.row S.ListSpace self.entry result) }
    {
        let t = self.runner();
        self.settled = false;
        &mut self.nests[t]
    }

    /// Answers whether another task may be given the processor: no task runs, or the running one has called
    /// neither Forbid nor Disable without its counterpart.
    ///
    /// Source: autodocs exec.library/Forbid and exec.library/Disable.
    pub fn may_switch(&self) -> bool
        ensures { result ≡ is_switching_allowed self.now.running self.now }
    {
        match self.running {
            None => true,
            Some(r) => self.allows_switch(r),
        }
    }

    // Whether running task `r` lets another one have the processor.
    pub(crate) fn allows_switch(&self, r: TaskId) -> bool
        requires { r < task_count self.now }
        ensures { result ≡ may_switch (nesting_of self.now r) }
    {
        self.nests[r].may_switch()
    }

    /// Answers whether an interrupt may be served: no task runs, or the running one has not called Disable
    /// without Enable.
    ///
    /// Source: autodoc exec.library/Disable.
    pub fn may_interrupt(&self) -> bool
        ensures { result ≡ is_interrupting_allowed self.now.running self.now }
    {
        match self.running {
            None => true,
            Some(r) => self.allows_interrupt(r),
        }
    }

    // Whether running task `r` lets an interrupt be served.
    fn allows_interrupt(&self, r: TaskId) -> bool
        requires { r < task_count self.now }
        ensures { result ≡ may_interrupt (nesting_of self.now r) }
    {
        self.nests[r].may_interrupt()
    }
}
