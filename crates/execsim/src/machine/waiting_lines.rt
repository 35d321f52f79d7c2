//! What a machine writes of how its tasks are.
ghost use Rattle.std.specs.Prelude.{◌≡◌};
ghost use Rattle.exectrace.specs.{Sink.Writes, declared.sinks.SinkState.SinkState};
ghost use Rattle.execsim.specs.WaitingLines.{standing_text};

use super::Machine;
use execlist::space::ListSpace;
use exectrace::sinks::written;
use exectrace::{Sink, WriteFault};

impl<S: ListSpace> Machine<S> {
    /// Writes how the tasks are: `NAME runs` or `idle`, and for each task that waits, in the order of the file, the
    /// line of the call that it waits in. Nothing of the machine changes.
    ///
    /// # Errors
    ///
    /// A write failed: a prefix of the lines was taken.
    ///
    /// Source: project rule.
    pub fn write_standing<W: Sink>(&self, out: &mut W) -> Result<(), WriteFault>
        requires { (W.tape out.old).state ≡ SinkState.Good }
        ensures { Writes (W.tape out.old) (W.tape out.new) (standing_text self.now.seen.schedule self.now.seen.scripts) result }
    {
        self.kernel.put_standing(out);
        written(out)
    }
}
