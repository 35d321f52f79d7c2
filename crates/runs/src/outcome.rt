//! What the program comes to over two texts.
ghost use Rattle.std.specs.Prelude.{◌≡◌, IfOk};
ghost use Rattle.taskscript.specs.{File.file_of, Events.script_of};
ghost use Rattle.runs.specs.Outcomes.{IsOutcome};

use crate::run::run_of;
use execlist::space::ListSpace;
use execrun::{Ending, Fault};
use std::alloc::{AllocError, Global};

/// The program's status, and what it writes: the trace, or the line of a fault.
#[derive(Drop)]
pub struct Outcome {
    pub status: u8,
    pub written: Vec<u8>,
}

/// What the program comes to over a machine file and an event text, on list spaces of the type S.
///
/// # Errors
///
/// If memory is refused for the line of a fault.
pub fn outcome_of<S: ListSpace>(
    alloc: Global,
    machine: &[u8],
    events: &[u8],
) -> Result<Outcome, AllocError>
    ensures { IfOk result (λ outcome. IsOutcome (file_of machine.now) (script_of events.now) outcome.status outcome.written.items) }
{
    match run_of::<S>(alloc, machine, events) {
        Ok(run) => Ok(Outcome {
            status: Ending::from(Ok(run.end)).status().code(),
            written: run.trace,
        }),
        Err(fault) => {
            let fault = Fault::from(fault);
            let line = format!(in alloc; "{fault}\n")?;
            Ok(Outcome {
                status: Ending::Failed(fault).status().code(),
                written: line.into_bytes(),
            })
        }
    }
}
