//! What a C program calls, by the header `execsim.h`: two texts in, the trace of their run out, or its log and its
//! states (`logging`), its picture (`drawing`), what is found in them (`checking`), or a search (`exploring`); and a
//! machine that is kept between calls (`stepping`), whose tasks and blocks are read between any two events (`reading`,
//! `objects`), whose bodies grow between them (`feeding`), and to which tasks are added (`adding`).
#![tactic(auto)]

mod absent;
mod adding;
mod checking;
mod drawing;
mod exploring;
mod feeding;
mod handle;
mod laws;
mod logging;
mod names;
mod objects;
mod put;
mod raw_box;
mod reading;
mod refusal;
mod run;
mod session;
mod shown;
mod status;
mod stepping;

ghost use Rattle.std.specs.Prelude.{◌≡◌, ◌≤◌};
ghost use Rattle.taskscript.specs.{File.file_of, Events.script_of};
ghost use Rattle.execsim.specs.declared.simulation.End.{End};
ghost use Rattle.execsim_c.specs.Buffers.{Holds, Exceeds, RefusesEvents, RefusesFile};

use crate::put::put;
use crate::refusal::refuse;
use crate::run::run_of;
use crate::status::{TOO_LONG, status_of};
use std::alloc::Global;

/// Runs a machine file over an event text, and puts the trace at the front of `out`, and its length in bytes in
/// `length`.
///
/// 0 if the machine ran over all its events, and 3 if an alert ended the run. 5 if the trace is longer than `out`,
/// which is left alone then; `length` says how long. Otherwise `out` begins with the words of the fault, as the program
/// prints them, as far as there is room, and they are `length` bytes: 1 if the machine file is refused, 2 if the event
/// text is, and 4 if memory was refused.
///
/// Source: project rule.
#[unsafe(no_mangle)]
pub extern "C" fn execsim_run(
    alloc: Global,
    machine: &[u8],
    events: &[u8],
    out: &mut [u8],
    length: &mut u64,
) -> u32
    ensures ran { result ≡ 0 → Holds (file_of machine.now) (script_of events.now) out.new length.new End.Ran }
    ensures alerted { result ≡ 3 → Holds (file_of machine.now) (script_of events.now) out.new length.new End.Alerted }
    ensures longer { result ≡ 5 → Exceeds (file_of machine.now) (script_of events.now) out.new length.new }
    ensures left { result ≡ 5 → out.new ≡ out.old }
    ensures refused_file { result ≡ 1 → RefusesFile (file_of machine.now) }
    ensures refused_events { result ≡ 2 → RefusesEvents (script_of events.now) }
    ensures status { result ≤ 5 }
{
    match run_of(alloc, machine, events) {
        Ok(run) => {
            let trace = run.trace.as_slice();
            *length = trace.len() as u64;
            if trace.len() <= out.len() {
                put(trace, out);
                status_of(run.end)
            } else {
                TOO_LONG
            }
        }
        Err(fault) => refuse(fault, out, length),
    }
}
