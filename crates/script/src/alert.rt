//! Why a call is refused.
ghost use Rattle.std.specs.Prelude.{◌≡◌};
ghost use Rattle.script.specs.Alerts.{alert_text};

/// Why a call is refused; the machine stops then.
#[derive(Clone, Copy, Debug, PartialEq, Eq)]
pub enum Alert {
    /// No object of the kind begins at the address, or no task has the number; for SetTaskPri and RemTask, no live
    /// task.
    Handle,
    /// A request is in progress where it must not be, was never begun, or is not open.
    Io,
    /// A library is to be closed that is not open.
    Lib,
    /// A node, message, request or port is in a list or queue, or public, where it must not be, or is not where it must
    /// be; or a list that is to be freed is not empty.
    Link,
    /// A mask names signals that a script may not name, which are 0 to 11; or FreeSignal names neither one of 16 to 31
    /// nor -1.
    Mask,
    /// No block that AllocMem gave begins there, or the size does not round up to the size of the block.
    Mem,
    /// A Permit or Enable has nothing to take back, or a Forbid or Disable would take the count past 127.
    Nest,
    /// A port to be deleted has messages, is public, or is the reply port of a request in progress; or a port to wait
    /// at does not signal the caller.
    Port,
    /// A semaphore is to be freed that a task owns, is to be released by a task that does not own it, or is obtained
    /// too often.
    Sem,
    /// An argument has a value that the call does not take.
    Value,
}

impl Alert {
    /// The code, as it is in the trace.
    ///
    /// Source: project rule.
    #[inline(always)]
    pub fn text(self) -> &'static str
        ensures { result.now ≡ alert_text self }
    {
        match self {
            Alert::Handle => "HANDLE",
            Alert::Io => "IO",
            Alert::Lib => "LIB",
            Alert::Link => "LINK",
            Alert::Mask => "MASK",
            Alert::Mem => "MEM",
            Alert::Nest => "NEST",
            Alert::Port => "PORT",
            Alert::Sem => "SEM",
            Alert::Value => "VALUE",
        }
    }
}
