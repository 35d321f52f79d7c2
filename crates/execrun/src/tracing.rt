//! How the trace of a run is written to a writer.
ghost use Rattle.std.specs.Prelude.{◌≡◌};
ghost use Rattle.execrun.specs.Running.{WritesTrace, answer_of};

use crate::fault::Fault;
use crate::lent::Lent;
use execsim::{End, SimFault, simulate};
use exectrace::{PageSink, PagedWrite, WriteSink};
use std::alloc::Global;
use std::io::Write;

/// The program's answer, by that of the simulator, and by whether all could be flushed after it.
fn answer<'a>(ended: Result<End, SimFault>, flushed: bool) -> Result<End, Fault<'a>>
    ensures { result ≡ answer_of ended flushed }
{
    match ended {
        Err(fault) => Err(Fault::from(fault)),
        Ok(end) => {
            if flushed {
                Ok(end)
            } else {
                Err(Fault::WriteFailed)
            }
        }
    }
}

/// How the trace of a run is written to writers of a type.
pub(crate) trait Tracing<W: Write> {
    /// Simulates the machine of one text under the events of another, and writes the trace to its last byte.
    ///
    /// # Errors
    ///
    /// The simulator's fault, and otherwise `WriteFailed` if what was written cannot be flushed. What was written
    /// before a fault is flushed too.
    fn write_trace<'a>(
        alloc: Global,
        machine: &[u8],
        events: &[u8],
        out: &mut W,
    ) -> Result<End, Fault<'a>>
        ensures { WritesTrace machine.now events.now (W.contents out.old) (W.contents out.new) result };
}

/// Each line by a call of the writer.
pub(crate) struct ByLine;

impl<W: Write> Tracing<W> for ByLine {
    fn write_trace<'a>(
        alloc: Global,
        machine: &[u8],
        events: &[u8],
        out: &mut W,
    ) -> Result<End, Fault<'a>> {
        let mut sink = WriteSink::new(Lent { out: &mut *out });
        let ended = simulate(alloc, machine, events, &mut sink);
        let mut lent = sink.into_inner();
        let flushed = lent.flush().is_ok();
        // No effect at run time. The proof reads what `out` holds from this use of the loan.
        let Lent { out: loan } = lent;
        let _ = &*loan;
        answer(ended, flushed)
    }
}

/// Each line into the cells of the writer, where it has room.
pub(crate) struct ByPage;

impl<W: PagedWrite> Tracing<W> for ByPage {
    fn write_trace<'a>(
        alloc: Global,
        machine: &[u8],
        events: &[u8],
        out: &mut W,
    ) -> Result<End, Fault<'a>> {
        let mut sink = PageSink::new(Lent { out: &mut *out });
        let ended = simulate(alloc, machine, events, &mut sink);
        let mut lent = sink.into_inner();
        let flushed = lent.flush().is_ok();
        // No effect at run time. The proof reads what `out` holds from this use of the loan.
        let Lent { out: loan } = lent;
        let _ = &*loan;
        answer(ended, flushed)
    }
}
