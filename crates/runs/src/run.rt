//! The whole run of two texts, kept in memory.
ghost use Rattle.std.specs.Prelude.{MatchResult};
ghost use Rattle.taskscript.specs.{File.file_of, Events.script_of};
ghost use Rattle.runs.specs.Runs.{IsRun, IsFault};

use execlist::space::ListSpace;
use execsim::{End, SimFault, simulate_on};
use exectrace::WriteSink;
use std::alloc::Global;

/// What a run wrote, and how it ended.
#[derive(Drop)]
pub struct Run {
    /// The bytes of its whole trace.
    pub trace: Vec<u8>,
    pub end: End,
}

/// Runs the machine of a machine file over the events of an event text, on list spaces of the type S, and keeps the
/// whole trace.
///
/// # Errors
///
/// The fault of `simulate`. `Write` comes if memory is refused for the trace.
pub fn run_of<S: ListSpace>(alloc: Global, machine: &[u8], events: &[u8]) -> Result<Run, SimFault>
    ensures { MatchResult result (λ run. IsRun (file_of machine.now) (script_of events.now) run.trace.items run.end) (λ fault. IsFault (file_of machine.now) (script_of events.now) fault) }
{
    let mut out = WriteSink::new(Vec::new(alloc));
    match simulate_on::<S, WriteSink<Vec<u8>>>(alloc, machine, events, &mut out) {
        Ok(end) => Ok(Run {
            trace: out.into_inner(),
            end,
        }),
        Err(fault) => Err(fault),
    }
}
