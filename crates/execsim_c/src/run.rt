//! The whole run of two texts, kept in memory.
ghost use Rattle.std.specs.Prelude.{MatchResult};
ghost use Rattle.taskscript.specs.{File.file_of, Events.script_of};
ghost use Rattle.execsim_c.specs.Buffers.{IsRun, IsFault};

use execsim::{End, SimFault, simulate};
use exectrace::WriteSink;
use std::alloc::Global;

/// What a run wrote, and how it ended.
#[derive(Drop)]
pub(crate) struct Run {
    /// The bytes of its whole trace.
    pub(crate) trace: Vec<u8>,
    pub(crate) end: End,
}

/// Runs the machine of a machine file over the events of an event text, and keeps the whole trace.
pub(crate) fn run_of(alloc: Global, machine: &[u8], events: &[u8]) -> Result<Run, SimFault>
    ensures { MatchResult result (λ run. IsRun (file_of machine.now) (script_of events.now) run.trace.items run.end) (λ fault. IsFault (file_of machine.now) (script_of events.now) fault) }
{
    let mut out = WriteSink::new(Vec::new(alloc));
    match simulate(alloc, machine, events, &mut out) {
        Ok(end) => Ok(Run {
            trace: out.into_inner(),
            end,
        }),
        Err(fault) => Err(fault),
    }
}
