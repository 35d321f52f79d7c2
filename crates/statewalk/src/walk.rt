//! A walk over the states of a machine. The machine is kept, and put back to its first state as often as one likes.
ghost use Rattle.std.specs.Prelude.{◌≡◌, ◌+◌, ◌++◌, ◌∷◌, ℕ, List, [], false, true, Ok, IfOk, OnOk};
ghost use Rattle.exectrace.specs.declared.sinks.SinkState.{SinkState};
ghost use Rattle.script.specs.Events.{event_ticks};
ghost use Rattle.script.specs.declared.event.Event.{Event};
ghost use Rattle.execmodel.specs.{State.booted, Step.event, Step.starts};
ghost use Rattle.execsim.specs.{Agreement.Agrees, Headline.Acts, Time.HasTimeFor, declared.machine.Flow.Flow};
ghost use Rattle.closure.specs.Closed.{EndsAt};
ghost use Rattle.statekeys.specs.{Runs.IsBareMachine, Stands.IsWhere, Stands.is_ended};

use crate::lines::take_last_line;
use crate::room::Room;
use closure::{Fault, Walker};
use execlist::link::LinkSpace;
use execsim::{Flow, Machine};
use exectrace::Sink;
use script::{Event, MachineFile};
use statekeys::{is_bare_machine, write_key};
use std::alloc::{AllocError, Global};
use std::marker::Model;

/// How many ticks may come before one begins anew.
const MOST_TICKS: u32 = 1_000_000;

/// A walk over the states of the machine of a file, whose words leave memory alone.
#[derive(Drop)]
pub struct Walk<'a> {
    alloc: Global,
    file: &'a MachineFile,
    machine: Machine<LinkSpace>,
    room: Room,
    // Whether the machine was started, and has done every event since.
    is_going: bool,
    // How many ticks may still come.
    left: u32,
}

impl<'a> Model for Walk<'a> {
    ghost use Rattle.std.specs.Prelude.{◌≡◌, false, true};
    ghost use Rattle.execsim.specs.Time.{HasTimeFor};
    ghost use Rattle.statekeys.specs.Runs.{IsBareMachine};
    ghost use Rattle.statewalk.specs.Walking.{Walking};

    ghost Value = { Walking };

    ghost view = { λ w. record { file = w.file.now; shown = w.machine } };

    ghost invariant = { λ w. IsBareMachine w.file.now
        × (w.is_going ≡ true → (w.machine.failed ≡ false) × HasTimeFor w.left w.machine.seen) };
}

/// The ticks of an event.
fn ticks_in(event: Event) -> u32
    ensures { result ≡ event_ticks event }
{
    match event {
        Event::Run(_) | Event::Irq(_) => 0,
        Event::Tick(n) => n,
    }
}

/// Whether an alert has stopped a machine.
fn is_stopped(flow: Flow) -> bool
    ensures { result ≡ is_ended flow }
{
    match flow {
        Flow::Going => false,
        Flow::Alerted => true,
    }
}

/// Puts a machine back to its first state. One that was made of another file is made anew.
fn put_back(
    alloc: Global,
    machine: &mut Machine<LinkSpace>,
    file: &MachineFile,
) -> Result<(), AllocError>
    ensures whole { OnOk result (machine.new.failed ≡ false) }
    ensures agrees { OnOk result (Agrees machine.new.seen (booted file.now)) }
    ensures time { OnOk result (HasTimeFor 1000000 machine.new.seen) }
{
    if machine.reset(file) {
        return Ok(());
    }
    *machine = Machine::boot(alloc, file)?;
    Ok(())
}

/// Starts a machine.
fn start_on<W: Sink>(machine: &mut Machine<LinkSpace>, out: &mut W) -> Result<(), Fault>
    requires whole { machine.old.failed ≡ false }
    requires good { (W.tape out.old).state ≡ SinkState.Good }
    ensures acts { OnOk result (Acts starts machine.old machine.new (W.tape out.old) (W.tape out.new) (Ok Flow.Going)) }
    ensures time { OnOk result ((ticks : ℕ) → HasTimeFor ticks machine.old.seen → HasTimeFor ticks machine.new.seen) }
{
    match machine.start(out) {
        Ok(Flow::Going) => Ok(()),
        // No command is done at the start, so there is no alert.
        Ok(Flow::Alerted) => Err(Fault::NoKey),
        Err(_) => Err(Fault::OutOfMemory),
    }
}

/// Starts a machine that is in its first state.
fn start(
    machine: &mut Machine<LinkSpace>,
    _file: &MachineFile,
    room: &mut Room,
) -> Result<(), Fault>
    requires bare { IsBareMachine _file.now }
    requires whole { machine.old.failed ≡ false }
    requires agrees { Agrees machine.old.seen (booted _file.now) }
    requires time { HasTimeFor 1000000 machine.old.seen }
    requires good { room.old.state ≡ SinkState.Good }
    ensures there { OnOk result (IsWhere _file.now machine.new []) }
    ensures time { OnOk result (HasTimeFor 1000000 machine.new.seen) }
{
    start_on(machine, room)?;
    Ok(())
}

/// Does an event.
fn event_on<W: Sink>(
    machine: &mut Machine<LinkSpace>,
    one: Event,
    out: &mut W,
) -> Result<Flow, Fault>
    requires whole { machine.old.failed ≡ false }
    requires time { HasTimeFor (event_ticks one) machine.old.seen }
    requires good { (W.tape out.old).state ≡ SinkState.Good }
    ensures acts { IfOk result (λ flow. Acts (event one) machine.old machine.new (W.tape out.old) (W.tape out.new) (Ok flow)) }
    ensures time { OnOk result ((ticks : ℕ) → HasTimeFor (event_ticks one + ticks) machine.old.seen → HasTimeFor ticks machine.new.seen) }
{
    match machine.event(one, out) {
        Ok(flow) => Ok(flow),
        Err(_) => Err(Fault::OutOfMemory),
    }
}

/// Does an event from where a machine is, leaves in `line` the last line that it writes, and answers whether it ended
/// in an alert.
fn go_on(
    machine: &mut Machine<LinkSpace>,
    _file: &MachineFile,
    one: Event,
    room: &mut Room,
    line: &mut Vec<u8>,
) -> Result<bool, Fault>
    requires whole { machine.old.failed ≡ false }
    requires time { HasTimeFor (event_ticks one) machine.old.seen }
    requires good { room.old.state ≡ SinkState.Good }
    requires empty { room.old.bytes.items ≡ [] }
    ensures goes { IfOk result (λ ended. ended ≡ false → (list : List Event) → IsWhere _file.now machine.old list
        → IsWhere _file.now machine.new (list ++ one ∷ [])) }
    ensures ends { IfOk result (λ ended. ended ≡ true → (list : List Event) → IsWhere _file.now machine.old list
        → EndsAt _file.now list one line.new.items) }
    ensures whole { OnOk result (machine.new.failed ≡ false) }
    ensures time { OnOk result ((ticks : ℕ) → HasTimeFor (event_ticks one + ticks) machine.old.seen → HasTimeFor ticks machine.new.seen) }
{
    let flow = event_on(machine, one, room)?;
    take_last_line(&room.bytes, line)?;
    Ok(is_stopped(flow))
}

impl<'a> Walk<'a> {
    /// A walk over the states of the machine of a file.
    ///
    /// # Errors
    ///
    /// Memory was refused; `NoKey` if a word of the file asks for memory or touches what lies in it.
    ///
    /// Source: project rule.
    pub fn new(alloc: Global, file: &'a MachineFile) -> Result<Walk<'a>, Fault>
        ensures { IfOk result (λ walk. walk.file ≡ file.now) }
    {
        if !is_bare_machine(file) {
            return Err(Fault::NoKey);
        }
        Ok(Walk {
            alloc,
            file,
            machine: Machine::boot(alloc, file)?,
            room: Room::new(alloc),
            is_going: false,
            left: 0,
        })
    }
}

impl<'a> Walker for Walk<'a> {
    ghost use Rattle.statekeys.specs.{Stands.IsWhere, Views.key_seen};
    ghost use Rattle.statekeys.proofs.Standing.{one_key_of};

    ghost machine_of = { λ w. w.file };

    ghost stands = { λ w list. IsWhere w.file w.shown list };

    ghost key = { λ w. key_seen w.shown.seen };

    ghost keys_tell = { λ one other list others same e at there.
        one_key_of one.file other.file one.shown other.shown list others same e at there };

    fn begin(&mut self) -> Result<(), Fault> {
        self.is_going = false;
        put_back(self.alloc, &mut self.machine, self.file)?;
        self.room.clear();
        start(&mut self.machine, self.file, &mut self.room)?;
        self.left = MOST_TICKS;
        self.is_going = true;
        Ok(())
    }

    fn go(&mut self, one: Event, text: &mut Vec<u8>) -> Result<bool, Fault> {
        let ticks = ticks_in(one);
        if ticks > self.left {
            return Err(Fault::TooLong);
        }
        if !self.is_going {
            return Err(Fault::TooLong);
        }
        self.is_going = false;
        self.room.clear();
        let ended = go_on(&mut self.machine, self.file, one, &mut self.room, text)?;
        self.left -= ticks;
        self.is_going = true;
        Ok(ended)
    }

    fn tell(&self, text: &mut Vec<u8>) -> Result<(), Fault> {
        write_key(self.alloc, &self.machine, text)
    }
}
