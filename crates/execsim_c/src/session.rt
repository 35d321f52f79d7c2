//! A machine that is kept between calls: it has started, and it keeps the lines that no caller has taken.
ghost use Rattle.std.specs.Prelude.{◌≡◌, ◌≤◌, ◌+◌, ℕ, false, length, IfOk, IfSome, MatchResult, OnErr, OnOk, Some, sum_by};
ghost use Rattle.exectrace.specs.declared.sinks.SinkState.{SinkState};
ghost use Rattle.script.specs.{Commands.command_view, Events.event_ticks};
ghost use Rattle.execmodel.specs.{Feeding.fed_to, Feeding.with_new, Step.events};
ghost use Rattle.execsim.specs.{Adding.new_task, Adding.seen_with_new, Agreement.Moves, Time.HasTimeFor, declared.machine.adding.AddFault.AddFault};
ghost use Rattle.execsim_c.specs.Stepping.{Does, Starts};

use execlist::link::LinkSpace;
use execsim::{AddFault, Machine};
use exectrace::{Sink, WriteFault, WriteSink};
use script::{Command, Event, MachineFile, Name};
use std::alloc::{AllocError, Global};
use taskq::TaskId;

/// How many ticks a machine bears at least.
const TICKS: u64 = 1_000_000;

/// A machine that has started and has not failed.
#[derive(Drop)]
pub struct Session {
    pub(crate) machine: Machine<LinkSpace>,
    /// The lines that it has printed and that no caller has taken.
    pub(crate) lines: Vec<u8>,
    /// How many ticks may still come.
    ticks_left: u64,
    ghost whole: { machine.failed ≡ false },
    ghost time: { HasTimeFor ticks_left machine.seen },
}

/// The ticks of an event.
fn ticks_in(event: Event) -> u64
    ensures { result ≡ event_ticks event }
{
    match event {
        Event::Run(_) | Event::Irq(_) => 0,
        Event::Tick(count) => u64::from(count),
    }
}

/// How many of these ticks are left after some events; none if they ask for more.
fn ticks_after(list: &[Event], ticks: u64) -> Option<u64>
    ensures { IfSome result (λ left. left + sum_by event_ticks list.now ≡ ticks) }
{
    let mut left = ticks;
    for event in list {
        let count = ticks_in(*event);
        if left < count {
            return None;
        }
        left -= count;
    }
    Some(left)
}

/// Does one event after another.
fn run_events<W: Sink>(
    machine: &mut Machine<LinkSpace>,
    list: &[Event],
    out: &mut W,
) -> Result<(), WriteFault>
    requires whole { machine.old.failed ≡ false }
    requires good { (W.tape out.old).state ≡ SinkState.Good }
    requires time { HasTimeFor (sum_by event_ticks list.now) machine.old.seen }
    ensures does { OnOk result (Does (events list.now) machine.old.seen machine.new.seen (W.tape out.old).taken (W.tape out.new).taken) }
    ensures whole { OnOk result (machine.new.failed ≡ false) }
    ensures time { OnOk result ((ticks : ℕ) → HasTimeFor (sum_by event_ticks list.now + ticks) machine.old.seen → HasTimeFor ticks machine.new.seen) }
{
    for event in list {
        machine.event(*event, out)?;
    }
    Ok(())
}

impl Session {
    /// Makes the machine of a file and starts it.
    ///
    /// # Errors
    ///
    /// Memory was refused.
    pub(crate) fn start(alloc: Global, file: &MachineFile) -> Result<Session, AllocError>
        ensures { IfOk result (λ session. Starts file.now session.machine.seen session.lines.items) }
    {
        let mut machine = Machine::boot(alloc, file)?;
        let mut out = WriteSink::new(Vec::new(alloc));
        match machine.start(&mut out) {
            Ok(_) => Ok(Session {
                machine,
                lines: out.into_inner(),
                ticks_left: TICKS,
            }),
            Err(_) => Err(AllocError),
        }
    }

    /// How many ticks are left after some events; none if they ask for more.
    pub(crate) fn ticks_after(&self, list: &[Event]) -> Option<u64>
        ensures { IfSome result (λ left. left + sum_by event_ticks list.now ≡ self.now.ticks_left) }
    {
        ticks_after(list, self.ticks_left)
    }

    /// Does events. `left` is the number of ticks that are left after them.
    ///
    /// # Errors
    ///
    /// Memory was refused for their lines.
    pub(crate) fn after(self, list: &[Event], left: u64) -> Result<Session, AllocError>
        requires { left + sum_by event_ticks list.now ≡ self.ticks_left }
        ensures { IfOk result (λ next. Does (events list.now) self.machine.seen next.machine.seen (Some self.lines.items) (Some next.lines.items)) }
    {
        let Session {
            mut machine,
            lines,
            ticks_left: _,
        } = self;
        let mut out = WriteSink::new(lines);
        match run_events(&mut machine, list, &mut out) {
            Ok(()) => Ok(Session {
                machine,
                lines: out.into_inner(),
                ticks_left: left,
            }),
            Err(_) => Err(AllocError),
        }
    }

    /// Feeds a command to a task, at the end of its body.
    ///
    /// # Errors
    ///
    /// Memory was refused. The machine is as it was.
    pub(crate) fn feed(&mut self, task: TaskId, command: Command) -> Result<(), AllocError>
        ensures fed { OnOk result (self.new ≡ record self.old { machine = record self.old.machine { seen = record self.old.machine.seen { scripts = fed_to task (command_view command) self.old.machine.seen.scripts } } }) }
        ensures kept { OnErr result (self.new ≡ self.old) }
    {
        self.machine.feed(task, command)
    }

    /// Adds a task after the others, which was never added, with an empty body, and answers its number.
    ///
    /// # Errors
    ///
    /// There are 4,096 tasks, or memory was refused. The machine is as it was.
    pub(crate) fn add_task(
        &mut self,
        alloc: Global,
        name: Name,
        pri: i8,
    ) -> Result<TaskId, AddFault>
        ensures number { IfOk result (λ t. t ≡ length self.old.machine.seen.scripts.programs) }
        ensures added { OnOk result (self.new ≡ record self.old { machine = record self.old.machine { seen = seen_with_new (new_task name.bytes pri) self.old.machine.seen } }) }
        ensures moves { OnOk result (Moves (with_new (new_task name.bytes pri)) self.old.machine.seen self.new.machine.seen) }
        ensures full { MatchResult result (λ t. Unit {0}) (λ fault. fault ≡ AddFault.Full → 4096 ≤ length self.old.machine.seen.scripts.programs) }
        ensures kept { OnErr result (self.new ≡ self.old) }
    {
        self.machine.add_task(alloc, name, pri)
    }

    /// Whether an alert has stopped the machine.
    pub(crate) fn is_stopped(&self) -> bool
        ensures { result ≡ self.now.machine.seen.stopped }
    {
        self.machine.view().stopped
    }
}
