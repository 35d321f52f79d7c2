//! A run, one step and one tick at a time: after each of them a watcher sees the machine.
ghost use Rattle.std.specs.Prelude.{◌≡◌, ◌+◌, ◌*◌, ℕ, false, sum_by, OnOk};
ghost use Rattle.script.specs.Events.{event_ticks};
ghost use Rattle.execsim.specs.Time.{HasTimeFor};

use crate::fault::PictureFault;
use execlist::link::LinkSpace;
use execsim::{Flow, Machine};
use exectrace::WriteSink;
use script::{Event, Events, MachineFile, Source};
use std::alloc::Global;
use std::{mem, str};
use taskq::TaskId;

/// The machine of a picture.
pub(crate) type Shown = Machine<LinkSpace>;

/// What has been done last.
#[derive(Clone, Copy)]
pub(crate) enum PointKind {
    /// The start.
    Start,
    /// A step.
    Step,
    /// A tick.
    Tick,
    /// A request of an interrupt.
    Request(Source),
}

/// A task at a command.
#[derive(Clone, Copy)]
pub(crate) struct Actor {
    /// The number of the task, from 0 in the order of the file.
    pub task: TaskId,
    /// The place of the command in its code, from 0.
    pub place: usize,
}

/// A point of a run: the machine has started, or has done a step, a tick or a request.
#[derive(Clone, Copy)]
pub(crate) struct Point {
    /// Its number; the start has 0.
    pub number: u64,
    /// What has been done last.
    pub kind: PointKind,
    /// The place in the event text of what has been done last: the number of the event, from 0; the start has that of
    /// the first.
    pub event: usize,
    /// What the clock shows, in microseconds.
    pub clock: u64,
    /// The task whose command has been done last, if it was one.
    pub actor: Option<Actor>,
}

/// What sees a machine at each point of its run.
pub(crate) trait Watch {
    /// Sees the machine at a point, with the lines that were printed since the point before.
    fn see(&mut self, machine: &Shown, point: &Point, text: &str) -> Result<(), PictureFault>;
}

/// How a run that was shown has ended.
#[derive(Clone, Copy)]
pub(crate) struct Ending {
    /// The number of the last point.
    pub last: u64,
    /// Whether an alert has stopped the machine.
    pub stopped: bool,
}

/// How far a run has come.
#[derive(Drop)]
struct Reel {
    /// The number of the last point.
    number: u64,
    /// The last number that is to be seen.
    to: u64,
    /// Whether an alert has stopped the machine.
    stopped: bool,
    /// The lines that were printed since the point before.
    text: Vec<u8>,
}

impl Reel {
    /// Whether nothing more is to be seen.
    fn is_over(&self) -> bool {
        self.stopped || self.number >= self.to
    }
}

/// The task that a step is a command of, at that command.
fn actor_of(machine: &Shown, one: Event) -> Option<Actor> {
    if !matches!(one, Event::Run(_)) {
        return None;
    }
    let task = machine.next_actor()?;
    let place = machine.task(task)?.place;
    Some(Actor { task, place })
}

/// What an event does once.
fn kind_of(one: Event) -> PointKind {
    match one {
        Event::Run(_) => PointKind::Step,
        Event::Tick(_) => PointKind::Tick,
        Event::Irq(source) => PointKind::Request(source),
    }
}

/// Shows a machine to a watcher.
fn show<V: Watch>(
    machine: &Shown,
    reel: &Reel,
    kind: PointKind,
    event: usize,
    actor: Option<Actor>,
    watch: &mut V,
) -> Result<(), PictureFault> {
    let point = Point {
        number: reel.number,
        kind,
        event,
        clock: machine.view().clock,
        actor,
    };
    let text = str::from_utf8(&reel.text).unwrap_or("");
    watch.see(machine, &point, text)
}

/// Starts a machine, and keeps what it prints.
fn start(alloc: Global, machine: &mut Shown, reel: &mut Reel) -> Result<(), PictureFault>
    requires { machine.old.failed ≡ false }
    ensures going { OnOk result (machine.new.failed ≡ false) }
    ensures time { OnOk result ((ticks : ℕ) → HasTimeFor ticks machine.old.seen → HasTimeFor ticks machine.new.seen) }
{
    let mut sink = WriteSink::new(Vec::new(alloc));
    match machine.start(&mut sink) {
        Ok(flow) => {
            reel.stopped = flow == Flow::Alerted;
            reel.text = sink.into_inner();
            Ok(())
        }
        Err(_) => Err(PictureFault::Memory),
    }
}

/// Does one step, tick or request, and keeps what it prints.
fn advance(
    alloc: Global,
    machine: &mut Shown,
    one: Event,
    reel: &mut Reel,
) -> Result<(), PictureFault>
    requires going { machine.old.failed ≡ false }
    requires time { HasTimeFor (event_ticks one) machine.old.seen }
    ensures going { OnOk result (machine.new.failed ≡ false) }
    ensures time { OnOk result ((ticks : ℕ) → HasTimeFor (event_ticks one + ticks) machine.old.seen → HasTimeFor ticks machine.new.seen) }
{
    let mut bytes = mem::replace(&mut reel.text, Vec::new(alloc));
    bytes.clear();
    let mut sink = WriteSink::new(bytes);
    match machine.event(one, &mut sink) {
        Ok(flow) => {
            reel.stopped = flow == Flow::Alerted;
            reel.number = reel.number.saturating_add(1);
            reel.text = sink.into_inner();
            Ok(())
        }
        Err(_) => Err(PictureFault::Memory),
    }
}

/// Does one step, tick or request, and shows the machine, unless nothing more is to be seen.
fn turn_once<V: Watch>(
    alloc: Global,
    machine: &mut Shown,
    one: Event,
    event: usize,
    reel: &mut Reel,
    watch: &mut V,
) -> Result<(), PictureFault>
    requires going { machine.old.failed ≡ false }
    requires time { HasTimeFor (event_ticks one) machine.old.seen }
    ensures going { OnOk result (machine.new.failed ≡ false) }
    ensures time { OnOk result ((ticks : ℕ) → HasTimeFor (event_ticks one + ticks) machine.old.seen → HasTimeFor ticks machine.new.seen) }
{
    if reel.is_over() {
        return Ok(());
    }
    let actor = actor_of(machine, one);
    advance(alloc, machine, one, reel)?;
    show(machine, reel, kind_of(one), event, actor, watch)
}

/// Does one step, tick or request that many times, or until nothing more is to be seen.
fn turn_many<V: Watch>(
    alloc: Global,
    machine: &mut Shown,
    one: Event,
    many: u32,
    event: usize,
    reel: &mut Reel,
    watch: &mut V,
) -> Result<(), PictureFault>
    requires going { machine.old.failed ≡ false }
    requires time { HasTimeFor (many * event_ticks one) machine.old.seen }
    ensures going { OnOk result (machine.new.failed ≡ false) }
    ensures time { OnOk result ((ticks : ℕ) → HasTimeFor (many * event_ticks one + ticks) machine.old.seen → HasTimeFor ticks machine.new.seen) }
{
    for _turn in 0..many {
        turn_once(alloc, machine, one, event, reel, watch)?;
    }
    Ok(())
}

/// Does one event, one step and one tick at a time.
fn turn_event<V: Watch>(
    alloc: Global,
    machine: &mut Shown,
    one: Event,
    event: usize,
    reel: &mut Reel,
    watch: &mut V,
) -> Result<(), PictureFault>
    requires going { machine.old.failed ≡ false }
    requires time { HasTimeFor (event_ticks one) machine.old.seen }
    ensures going { OnOk result (machine.new.failed ≡ false) }
    ensures time { OnOk result ((ticks : ℕ) → HasTimeFor (event_ticks one + ticks) machine.old.seen → HasTimeFor ticks machine.new.seen) }
{
    match one {
        Event::Run(n) => turn_many(alloc, machine, Event::Run(1), n, event, reel, watch),
        Event::Tick(n) => turn_many(alloc, machine, Event::Tick(1), n, event, reel, watch),
        Event::Irq(_) => turn_many(alloc, machine, one, 1, event, reel, watch),
    }
}

/// Does events, one step and one tick at a time.
fn turn_all<V: Watch>(
    alloc: Global,
    machine: &mut Shown,
    list: &[Event],
    reel: &mut Reel,
    watch: &mut V,
) -> Result<(), PictureFault>
    requires going { machine.old.failed ≡ false }
    requires time { HasTimeFor (sum_by event_ticks list.now) machine.old.seen }
{
    let mut event = 0usize;
    for one in list {
        turn_event(alloc, machine, *one, event, reel, watch)?;
        event = event.saturating_add(1);
    }
    Ok(())
}

/// Starts a machine, does events one step and one tick at a time, and shows the machine to a watcher after each.
/// Answers how it ended.
fn film_on<V: Watch>(
    alloc: Global,
    machine: &mut Shown,
    list: &[Event],
    to: u64,
    watch: &mut V,
) -> Result<Ending, PictureFault>
    requires going { machine.old.failed ≡ false }
    requires time { HasTimeFor (sum_by event_ticks list.now) machine.old.seen }
{
    let mut reel = Reel {
        number: 0,
        to,
        stopped: false,
        text: Vec::new(alloc),
    };
    start(alloc, machine, &mut reel)?;
    show(machine, &reel, PointKind::Start, 0, None, watch)?;
    turn_all(alloc, machine, list, &mut reel, watch)?;
    Ok(Ending {
        last: reel.number,
        stopped: reel.stopped,
    })
}

/// Boots the machine of a file, and shows it to a watcher after its start and after each step, tick and request of the
/// events, up to number `to` or to an alert. Answers how it ended.
///
/// # Errors
///
/// `Memory`, and those of the watcher.
pub(crate) fn film<V: Watch>(
    alloc: Global,
    file: &MachineFile,
    events: &Events,
    to: u64,
    watch: &mut V,
) -> Result<Ending, PictureFault> {
    let mut machine: Shown = match Machine::boot(alloc, file) {
        Ok(machine) => machine,
        Err(_) => return Err(PictureFault::Memory),
    };
    film_on(alloc, &mut machine, events.list(), to, watch)
}
