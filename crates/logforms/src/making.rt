//! A machine that is run over events.
ghost use Rattle.std.specs.Prelude.{◌≡◌, ◌≤◌, false, sum_by};
ghost use Rattle.exectrace.specs.declared.sinks.SinkState.{SinkState};
ghost use Rattle.script.specs.Events.{event_ticks};
ghost use Rattle.execmodel.specs.State.{booted};
ghost use Rattle.execmodel.specs.Step.{run as run_of};
ghost use Rattle.execsim.specs.{Agreement.Agrees, Time.HasTimeFor};
ghost use Rattle.execlog.specs.Log.{turns};

use crate::public_ports::PublicPorts;
use execlist::link::LinkSpace;
use execlog::{Form, LogFault, write_log};
use execsim::Machine;
use exectrace::Sink;
use script::{Event, MachineFile};
use std::alloc::Global;

/// Runs a machine that was not started yet over events, and writes its log in a form.
///
/// # Errors
///
/// Those of `write_log`.
///
/// Source: project rule.
pub fn run_events<F: Form, W: Sink>(
    alloc: Global,
    machine: &mut Machine<LinkSpace>,
    events: &[Event],
    form: &F,
    sink: &mut W,
) -> Result<(), LogFault>
    requires going { machine.old.failed ≡ false }
    requires left { HasTimeFor 1000000 machine.old.seen }
    requires good { (W.tape sink.old).state ≡ SinkState.Good }
    requires few { sum_by turns events.now ≤ 4000000 }
    requires time { sum_by event_ticks events.now ≤ 1000000 }
{
    write_log(alloc, machine, events, form, sink)
}

/// Runs a machine that was not started yet, that of the file, over events, and answers whether an alert has stopped it.
/// `public` hears the run.
///
/// Source: project rule.
pub fn stops_over(
    machine: &mut Machine<LinkSpace>,
    _file: &MachineFile,
    events: &[Event],
    public: &mut PublicPorts,
) -> bool
    requires going { machine.old.failed ≡ false }
    requires agrees { Agrees machine.old.seen (booted _file.now) }
    requires left { HasTimeFor 1000000 machine.old.seen }
    requires time { sum_by event_ticks events.now ≤ 1000000 }
    ensures { result ≡ (run_of _file.now events.now).state.stopped }
{
    let _flow = machine.play(events, public);
    machine.view().stopped
}
