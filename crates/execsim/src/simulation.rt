//! The whole way: from the bytes of a machine file and of an event text to the bytes of a trace.
ghost use Rattle.std.specs.Prelude.{◌≡◌};
ghost use Rattle.exectrace.specs.declared.sinks.SinkState.{SinkState};
ghost use Rattle.taskscript.specs.{File.file_of, Events.script_of};
ghost use Rattle.execsim.specs.Headline.{Simulates, ended};

use crate::machine::{Flow, Machine};
use execlist::link::LinkSpace;
use execlist::space::ListSpace;
use exectrace::{Sink, WriteFault};
use std::alloc::Global;
use taskscript::{EventFault, FileFault, read_events, read_machine};
use thiserror::Error;

/// How a run ended.
#[derive(Clone, Copy, PartialEq, Eq)]
pub enum End {
    /// All its events were done.
    Ran,
    /// An alert stopped it.
    Alerted,
}

/// Why there is no whole trace. The faults are judged in this order, and nothing is written before the first three are
/// past.
#[derive(Clone, Copy, Debug, PartialEq, Eq, Error)]
pub enum SimFault {
    /// The machine file is refused, or memory is refused to read it.
    #[error("machine: {0}")]
    File(FileFault),
    /// The event text is refused, or memory is refused to read it.
    #[error("events: {0}")]
    Events(EventFault),
    /// Memory is refused for the machine.
    #[error("no memory")]
    Memory,
    /// A write failed: what was written is a part of the trace.
    #[error("write failed")]
    Write,
}

/// The answer of a run, by that of its machine.
fn ended(answer: Result<Flow, WriteFault>) -> Result<End, SimFault>
    ensures { result ≡ ended answer }
{
    match answer {
        Ok(Flow::Going) => Ok(End::Ran),
        Ok(Flow::Alerted) => Ok(End::Alerted),
        Err(_) => Err(SimFault::Write),
    }
}

/// Runs the machine of a machine file over the events of an event text, and writes the trace of the run to `out`, which
/// is good.
///
/// Both texts are any bytes. They are read, and the machine is made, before the first byte is written.
///
/// # Errors
///
/// `File` and `Events` are the first fault of the texts, and nothing is written; `Memory` means that memory is refused
/// for the machine, and nothing is written; `Write` means that the sink failed, after a part of the trace.
pub fn simulate<W: Sink>(
    alloc: Global,
    file: &[u8],
    events: &[u8],
    out: &mut W,
) -> Result<End, SimFault>
    requires { (W.tape out.old).state ≡ SinkState.Good }
    ensures { Simulates (file_of file.now) (script_of events.now) (W.tape out.old) (W.tape out.new) result }
{
    simulate_on::<LinkSpace, W>(alloc, file, events, out)
}

/// Runs a machine as `simulate` does, over list spaces of the type S: the trace is the same whatever the space.
///
/// # Errors
///
/// Those of `simulate`.
pub fn simulate_on<S: ListSpace, W: Sink>(
    alloc: Global,
    file: &[u8],
    events: &[u8],
    out: &mut W,
) -> Result<End, SimFault>
    requires { (W.tape out.old).state ≡ SinkState.Good }
    ensures { Simulates (file_of file.now) (script_of events.now) (W.tape out.old) (W.tape out.new) result }
{
    let file = match read_machine(alloc, file) {
        Ok(file) => file,
        Err(fault) => return Err(SimFault::File(fault)),
    };
    let events = match read_events(alloc, events) {
        Ok(events) => events,
        Err(fault) => return Err(SimFault::Events(fault)),
    };
    let mut machine: Machine<S> = match Machine::boot(alloc, &file) {
        Ok(machine) => machine,
        Err(_) => return Err(SimFault::Memory),
    };
    ended(machine.run(events.list(), out))
}
