//! One way, run from the first state of its machine, of which what is seen is kept. The machine is kept from way to
//! way, and reset before each.
ghost use Rattle.std.specs.Prelude.{◌≡◌, ◌≤◌, ◌++◌, [], false, IfOk, OnOk, sum_by};
ghost use Rattle.exectrace.specs.declared.sinks.SinkState.{SinkState};
ghost use Rattle.script.specs.Events.{event_ticks};
ghost use Rattle.execmodel.specs.{State.booted, Step.run};
ghost use Rattle.execsim.specs.{Agreement.Agrees, Headline.flow_of, WaitingLines.standing_text, Time.HasTimeFor};
ghost use Rattle.wayrun.specs.Seen.{ending, seen_of, stops};

use crate::look::Look;
use crate::room::Room;
use crate::see::See;
use execlist::link::LinkSpace;
use execsim::{Flow, Machine};
use exectrace::Witness;
use script::{Event, MachineFile};
use std::alloc::{AllocError, Global};

/// Adds how a run ends: if no alert has stopped it, who runs, and the call of each task that waits.
fn write_ending(machine: &Machine<LinkSpace>, flow: Flow, room: &mut Room) -> Result<(), AllocError>
    requires { room.old.state ≡ SinkState.Good }
    ensures { OnOk result (room.new.bytes.items ≡ room.old.bytes.items ++ ending (stops flow) machine.now.seen.schedule machine.now.seen.scripts) }
{
    match flow {
        Flow::Alerted => Ok(()),
        Flow::Going => match machine.write_standing(room) {
            Ok(()) => Ok(()),
            Err(_) => Err(AllocError),
        },
    }
}

/// Runs a way on a machine that was not started, that of the file.
fn run_on(
    machine: &mut Machine<LinkSpace>,
    _file: &MachineFile,
    way: &[Event],
    look: &mut Look,
) -> Result<Flow, AllocError>
    requires good { look.old.room.state ≡ SinkState.Good }
    requires empty { look.old.room.bytes.items ≡ [] }
    requires time { sum_by event_ticks way.now ≤ 1000000 }
    requires going { machine.old.failed ≡ false }
    requires agrees { Agrees machine.old.seen (booted _file.now) }
    requires enough { HasTimeFor 1000000 machine.old.seen }
    ensures kept { OnOk result (look.new.room.bytes.items ≡ seen_of look.old.see _file.now way.now) }
    ensures flow { IfOk result (λ flow. flow ≡ flow_of (run _file.now way.now).state.stopped) }
{
    let flow = machine.play(way, look);
    if !look.is_good() {
        return Err(AllocError);
    }
    write_ending(machine, flow, &mut look.room)?;
    Ok(flow)
}

/// What ways are run on, one after another: a machine, and the listener that keeps what is seen.
#[derive(Drop)]
pub struct Bench {
    machine: Machine<LinkSpace>,
    look: Look,
}

impl Bench {
    /// What the ways of a machine file are run on.
    ///
    /// # Errors
    ///
    /// Memory was refused.
    ///
    /// Source: project rule.
    pub fn new(alloc: Global, file: &MachineFile) -> Result<Bench, AllocError> {
        Ok(Bench {
            machine: Machine::boot(alloc, file)?,
            look: Look::new(alloc),
        })
    }
}

/// Puts a machine back to its first state: that of the file, before its start. One that was made of another file is
/// made anew.
fn made_again(
    alloc: Global,
    machine: &mut Machine<LinkSpace>,
    file: &MachineFile,
) -> Result<(), AllocError>
    ensures going { OnOk result (machine.new.failed ≡ false) }
    ensures agrees { OnOk result (Agrees machine.new.seen (booted file.now)) }
    ensures enough { OnOk result (HasTimeFor 1000000 machine.new.seen) }
{
    if machine.reset(file) {
        return Ok(());
    }
    *machine = Machine::boot(alloc, file)?;
    Ok(())
}

/// Runs a way from the first state of its machine, and leaves in `kept` what is seen of it.
///
/// # Errors
///
/// Memory was refused.
///
/// Source: project rule.
pub fn run_way(
    alloc: Global,
    bench: &mut Bench,
    file: &MachineFile,
    way: &[Event],
    see: See,
    kept: &mut Vec<u8>,
) -> Result<Flow, AllocError>
    requires { sum_by event_ticks way.now ≤ 1000000 }
    ensures kept { OnOk result (kept.new.items ≡ seen_of see file.now way.now) }
    ensures flow { IfOk result (λ flow. flow ≡ flow_of (run file.now way.now).state.stopped) }
{
    made_again(alloc, &mut bench.machine, file)?;
    bench.look.begin(see);
    let flow = run_on(&mut bench.machine, file, way, &mut bench.look)?;
    kept.clear();
    kept.extend_from_slice(bench.look.room.bytes.as_slice())?;
    Ok(flow)
}
