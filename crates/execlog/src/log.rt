//! A run with an entry for each step, tick and request. Steps that print nothing are done together if they are not
//! shown.
ghost use Rattle.std.specs.Prelude.{◌≡◌, ◌+◌, ◌*◌, ◌∷◌, ◌<◌, ◌≤◌, ◌^◌, ℕ, [], false, replicate, sum_by, None, IfOk, OnOk};
ghost use Rattle.exectrace.specs.declared.sinks.SinkState.{SinkState};
ghost use Rattle.script.specs.{Events.event_ticks, File.MachineData};
ghost use Rattle.execmodel.specs.{State.booted, Step.starts};
ghost use Rattle.execsim.specs.{Agreement.Agrees, Time.HasTimeFor};
ghost use Rattle.execlog.specs.{declared.moment.Moment.Moment, Log.Entry, Log.ShowsLog, Log.entry_after, Log.log_of, Log.turns, Log.unit_of, Log.units, Runs.Extends, Runs.Logs, Runs.LogsRun, Runs.Wrote};

use crate::buffer::Buffer;
use crate::form::{Before, Form};
use crate::moment::{Actor, Moment, actor_of};
use crate::page::Page;
use execlist::space::ListSpace;
use execsim::Machine;
use exectrace::Sink;
use exectrace::sinks::{put, written};
use script::Event;
use std::alloc::{AllocError, Global};
use thiserror::Error;

/// Why a log did not come to its end.
#[derive(Clone, Copy, Debug, Error)]
pub enum LogFault {
    /// Memory was refused.
    #[error("no memory")]
    Memory,
    /// The sink did not take all rows.
    #[error("write failed")]
    Write,
}

/// What is kept from one entry to the next.
#[derive(Drop)]
struct Log<'a, F> {
    form: &'a F,
    /// The number of the next entry.
    number: u64,
    /// What the form has noted before the entry.
    before: Before,
    /// What the machine has printed since the last entry.
    text: Buffer,
    /// The rows that are not put yet.
    page: Page,
}

impl<'a, F: Form> Log<'a, F> {
    /// Adds the entry of what the machine has printed, with what the clock shows after it.
    #[inline(always)]
    fn enter<W: Sink>(
        &mut self,
        clock: u64,
        actor: Option<Actor>,
        out: &mut W,
    ) -> Result<(), AllocError>
        requires { self.old.number < 2 ^ 63 }
        ensures shows { OnOk result (Wrote (Extends (record { tape = W.tape out.old; page = self.old.page }) (record { tape = W.tape out.new; page = self.new.page })) (F.shows self.old.form.now (record {
          moment = record { number = self.old.number; clock = clock; actor = actor };
          text = self.old.text.bytes;
        }))) }
        ensures form { self.new.form ≡ self.old.form }
        ensures number { self.new.number ≡ self.old.number + 1 }
        ensures text { self.new.text ≡ self.old.text }
    {
        let moment = Moment {
            number: self.number,
            clock,
            actor,
        };
        self.number += 1;
        self.form.push_entry(
            &self.before,
            &moment,
            self.text.bytes.as_slice(),
            &mut self.page,
        )?;
        self.page.flush_if_full(out);
        Ok(())
    }
}

/// Starts a machine, and adds the entry of the start.
fn begin<S: ListSpace, F: Form, W: Sink>(
    machine: &mut Machine<S>,
    log: &mut Log<'_, F>,
    out: &mut W,
) -> Result<(), AllocError>
    requires going { machine.old.failed ≡ false }
    requires good { log.old.text.state ≡ SinkState.Good }
    requires blank { log.old.text.bytes ≡ [] }
    requires number { log.old.number ≡ 0 }
    ensures agrees { OnOk result ((m : MachineData) → Agrees machine.old.seen (booted m) → Agrees machine.new.seen (starts (booted m)).state) }
    ensures rows { OnOk result ((m : MachineData) → Agrees machine.old.seen (booted m) → Wrote (Extends (record { tape = W.tape out.old; page = log.old.page }) (record { tape = W.tape out.new; page = log.new.page })) (F.shows log.old.form.now (entry_after 0 None (starts (booted m))))) }
    ensures going { OnOk result (machine.new.failed ≡ false) }
    ensures good { OnOk result (log.new.text.state ≡ SinkState.Good) }
    ensures number { OnOk result (log.new.number ≡ 1) }
    ensures form { log.new.form ≡ log.old.form }
    ensures time { OnOk result ((ticks : ℕ) → HasTimeFor ticks machine.old.seen → HasTimeFor ticks machine.new.seen) }
{
    match machine.start(&mut log.text) {
        Ok(_) => {
            let clock = machine.view().clock;
            log.enter(clock, None, out)
        }
        Err(_) => Err(AllocError),
    }
}

/// Does one tick or request, or one step, and adds its entry.
fn advance<S: ListSpace, F: Form, W: Sink>(
    machine: &mut Machine<S>,
    one: Event,
    log: &mut Log<'_, F>,
    out: &mut W,
) -> Result<(), AllocError>
    requires going { machine.old.failed ≡ false }
    requires good { log.old.text.state ≡ SinkState.Good }
    requires number { log.old.number < 2 ^ 63 }
    requires time { HasTimeFor (event_ticks one) machine.old.seen }
    ensures logs { OnOk result (Logs (F.shows log.old.form.now) (one ∷ []) log.old.number machine.old.seen machine.new.seen (record { tape = W.tape out.old; page = log.old.page }) (record { tape = W.tape out.new; page = log.new.page })) }
    ensures going { OnOk result (machine.new.failed ≡ false) }
    ensures good { OnOk result (log.new.text.state ≡ SinkState.Good) }
    ensures number { OnOk result (log.new.number ≡ log.old.number + 1) }
    ensures form { log.new.form ≡ log.old.form }
    ensures time { OnOk result ((ticks : ℕ) → HasTimeFor (event_ticks one + ticks) machine.old.seen → HasTimeFor ticks machine.new.seen) }
{
    let actor = actor_of(machine, one);
    log.form.note(machine, log.number, actor, &mut log.before);
    log.text.clear();
    match machine.event(one, &mut log.text) {
        Ok(_) => {
            let clock = machine.view().clock;
            log.enter(clock, actor, out)
        }
        Err(_) => Err(AllocError),
    }
}

/// Does one step, tick or request that many times.
fn advance_many<S: ListSpace, F: Form, W: Sink>(
    machine: &mut Machine<S>,
    one: Event,
    many: u32,
    log: &mut Log<'_, F>,
    out: &mut W,
) -> Result<(), AllocError>
    requires going { machine.old.failed ≡ false }
    requires good { log.old.text.state ≡ SinkState.Good }
    requires number { log.old.number + many < 2 ^ 63 }
    requires time { HasTimeFor (many * event_ticks one) machine.old.seen }
    ensures logs { OnOk result (Logs (F.shows log.old.form.now) (replicate many one) log.old.number machine.old.seen machine.new.seen (record { tape = W.tape out.old; page = log.old.page }) (record { tape = W.tape out.new; page = log.new.page })) }
    ensures going { OnOk result (machine.new.failed ≡ false) }
    ensures good { OnOk result (log.new.text.state ≡ SinkState.Good) }
    ensures number { OnOk result (log.new.number ≡ log.old.number + many) }
    ensures form { log.new.form ≡ log.old.form }
    ensures time { OnOk result ((ticks : ℕ) → HasTimeFor (many * event_ticks one + ticks) machine.old.seen → HasTimeFor ticks machine.new.seen) }
{
    for _turn in 0..many {
        advance(machine, one, log, out)?;
    }
    Ok(())
}

/// How many steps that print nothing may come after a step with no entries of their own, at most that many: none if
/// they are shown.
fn most_silent<F: Form>(form: &F, more: u32) -> u32
    ensures within { result ≤ more }
    ensures hidden { 0 < result → (moment : Moment) → F.shows form.now (record { moment = moment; text = [] }) [] }
{
    if form.shows_silent() { 0 } else { more }
}

/// Does a step, and those after it that print nothing and are not shown, at most that many; adds the entry, and answers
/// how many these were.
fn advance_step<S: ListSpace, F: Form, W: Sink>(
    machine: &mut Machine<S>,
    more: u32,
    log: &mut Log<'_, F>,
    out: &mut W,
) -> Result<u32, AllocError>
    requires going { machine.old.failed ≡ false }
    requires good { log.old.text.state ≡ SinkState.Good }
    requires number { log.old.number + more + 1 < 2 ^ 63 }
    ensures within { IfOk result (λ silent. silent ≤ more) }
    ensures logs { IfOk result (λ silent. Logs (F.shows log.old.form.now) (replicate (silent + 1) (Event.Run 1)) log.old.number machine.old.seen machine.new.seen (record { tape = W.tape out.old; page = log.old.page }) (record { tape = W.tape out.new; page = log.new.page })) }
    ensures going { OnOk result (machine.new.failed ≡ false) }
    ensures good { OnOk result (log.new.text.state ≡ SinkState.Good) }
    ensures number { IfOk result (λ silent. log.new.number ≡ log.old.number + (silent + 1)) }
    ensures form { log.new.form ≡ log.old.form }
    ensures time { OnOk result ((ticks : ℕ) → HasTimeFor ticks machine.old.seen → HasTimeFor ticks machine.new.seen) }
{
    let actor = actor_of(machine, Event::Run(1));
    log.form.note(machine, log.number, actor, &mut log.before);
    log.text.clear();
    let most = most_silent(log.form, more);
    match machine.advance(most, &mut log.text) {
        Ok(silent) => {
            let clock = machine.view().clock;
            log.enter(clock, actor, out)?;
            log.number += u64::from(silent);
            Ok(silent)
        }
        Err(_) => Err(AllocError),
    }
}

/// Does that many steps.
fn advance_steps<S: ListSpace, F: Form, W: Sink>(
    machine: &mut Machine<S>,
    many: u32,
    log: &mut Log<'_, F>,
    out: &mut W,
) -> Result<(), AllocError>
    requires going { machine.old.failed ≡ false }
    requires good { log.old.text.state ≡ SinkState.Good }
    requires number { log.old.number + many < 2 ^ 63 }
    ensures logs { OnOk result (Logs (F.shows log.old.form.now) (replicate many (Event.Run 1)) log.old.number machine.old.seen machine.new.seen (record { tape = W.tape out.old; page = log.old.page }) (record { tape = W.tape out.new; page = log.new.page })) }
    ensures going { OnOk result (machine.new.failed ≡ false) }
    ensures good { OnOk result (log.new.text.state ≡ SinkState.Good) }
    ensures number { OnOk result (log.new.number ≡ log.old.number + many) }
    ensures form { log.new.form ≡ log.old.form }
    ensures time { OnOk result ((ticks : ℕ) → HasTimeFor ticks machine.old.seen → HasTimeFor ticks machine.new.seen) }
{
    let mut done = 0;
    while done < many {
        let silent = advance_step(machine, many - done - 1, log, out)?;
        done += silent + 1;
    }
    Ok(())
}

/// Does one event, and adds its entries.
fn advance_event<S: ListSpace, F: Form, W: Sink>(
    machine: &mut Machine<S>,
    one: Event,
    log: &mut Log<'_, F>,
    out: &mut W,
) -> Result<(), AllocError>
    requires going { machine.old.failed ≡ false }
    requires good { log.old.text.state ≡ SinkState.Good }
    requires number { log.old.number + turns one < 2 ^ 63 }
    requires time { HasTimeFor (event_ticks one) machine.old.seen }
    ensures logs { OnOk result (Logs (F.shows log.old.form.now) (unit_of one) log.old.number machine.old.seen machine.new.seen (record { tape = W.tape out.old; page = log.old.page }) (record { tape = W.tape out.new; page = log.new.page })) }
    ensures going { OnOk result (machine.new.failed ≡ false) }
    ensures good { OnOk result (log.new.text.state ≡ SinkState.Good) }
    ensures number { OnOk result (log.new.number ≡ log.old.number + turns one) }
    ensures form { log.new.form ≡ log.old.form }
    ensures time { OnOk result ((ticks : ℕ) → HasTimeFor (event_ticks one + ticks) machine.old.seen → HasTimeFor ticks machine.new.seen) }
{
    match one {
        Event::Run(n) => advance_steps(machine, n, log, out),
        Event::Tick(n) => advance_many(machine, Event::Tick(1), n, log, out),
        Event::Irq(_) => advance_many(machine, one, 1, log, out),
    }
}

/// Does some events, and adds their entries.
fn advance_all<S: ListSpace, F: Form, W: Sink>(
    machine: &mut Machine<S>,
    list: &[Event],
    log: &mut Log<'_, F>,
    out: &mut W,
) -> Result<(), AllocError>
    requires going { machine.old.failed ≡ false }
    requires good { log.old.text.state ≡ SinkState.Good }
    requires number { log.old.number + sum_by turns list.now < 2 ^ 63 }
    requires time { HasTimeFor (sum_by event_ticks list.now) machine.old.seen }
    ensures { OnOk result (Logs (F.shows log.old.form.now) (units list.now) log.old.number machine.old.seen machine.new.seen (record { tape = W.tape out.old; page = log.old.page }) (record { tape = W.tape out.new; page = log.new.page })) }
{
    for one in list {
        advance_event(machine, *one, log, out)?;
    }
    Ok(())
}

/// Starts a machine and does some events, and adds their entries.
fn log_all<S: ListSpace, F: Form, W: Sink>(
    machine: &mut Machine<S>,
    list: &[Event],
    log: &mut Log<'_, F>,
    out: &mut W,
) -> Result<(), AllocError>
    requires going { machine.old.failed ≡ false }
    requires good { log.old.text.state ≡ SinkState.Good }
    requires blank { log.old.text.bytes ≡ [] }
    requires number { log.old.number ≡ 0 }
    requires few { sum_by turns list.now < 2 ^ 62 }
    requires time { HasTimeFor (sum_by event_ticks list.now) machine.old.seen }
    ensures { OnOk result ((m : MachineData) → Agrees machine.old.seen (booted m) → Wrote (Extends (record { tape = W.tape out.old; page = log.old.page }) (record { tape = W.tape out.new; page = log.new.page })) (ShowsLog (F.shows log.old.form.now) (log_of m list.now))) }
{
    begin(machine, log, out)?;
    advance_all(machine, list, log, out)
}

/// Runs a machine that was not started yet over a list of events, and writes the log of the run to `out`, which is
/// good: an entry for the start, and one for each step, tick and request of an interrupt, each as the form shows it.
///
/// # Errors
///
/// `Write` if the sink did not take all rows: it has taken a prefix of them. `Memory` if memory was refused for the
/// rows of an entry.
///
/// Source: project rule.
pub fn write_log<S: ListSpace, F: Form, W: Sink>(
    alloc: Global,
    machine: &mut Machine<S>,
    events: &[Event],
    form: &F,
    out: &mut W,
) -> Result<(), LogFault>
    requires going { machine.old.failed ≡ false }
    requires good { (W.tape out.old).state ≡ SinkState.Good }
    requires few { sum_by turns events.now < 2 ^ 62 }
    requires time { HasTimeFor (sum_by event_ticks events.now) machine.old.seen }
    ensures { (m : MachineData) → Agrees machine.old.seen (booted m) → LogsRun (ShowsLog (F.shows form.now) (log_of m events.now)) (W.tape out.old) (W.tape out.new) result }
{
    let mut log = Log {
        form,
        number: 0,
        before: Before::new(),
        text: Buffer::new(alloc),
        page: Page::new(alloc),
    };
    match log_all(machine, events, &mut log, out) {
        Err(_) => Err(LogFault::Memory),
        Ok(()) => {
            put(log.page.as_slice(), out);
            match written(out) {
                Ok(()) => Ok(()),
                Err(_) => Err(LogFault::Write),
            }
        }
    }
}
