//! Why a call on an object is refused.
ghost use Rattle.std.specs.Prelude.{◌≡◌};
ghost use Rattle.execheap.specs.Refusals.{code_of, as_refusal};

use script::Alert;
use sigsem::fault::SemFault;
use thiserror::Error;

/// Why a call on an object is refused. A refused call changes nothing.
#[derive(Clone, Copy, Debug, Error)]
pub enum Refusal {
    /// No live object of the kind begins at an address.
    #[error("no object of the kind begins there")]
    Handle,
    /// A node, a message, a port or the reply of a request is linked where it must not be, or is not linked
    /// where it must be; or a list that is to be freed holds nodes.
    #[error("linked where it must not be, or the other way")]
    Link,
    /// A port that is to be freed holds messages, is public or is the reply port of a request in progress; or a port to
    /// wait at does not signal the caller.
    #[error("a port in use, or not the caller's to wait at")]
    Port,
    /// A semaphore that is to be freed is owned, one that is to be released is not the caller's, or one is obtained too
    /// often.
    #[error("a semaphore owned, not owned by the caller, or obtained too often")]
    Sem,
    /// A library that is to be closed is not open.
    #[error("a library that is not open")]
    Lib,
    /// A request is in progress where it must not be, or is not begun or not open where it must be.
    #[error("a request in progress, not begun or not open")]
    Io,
}

impl Refusal {
    /// The alert by which the call is refused.
    pub fn alert(self) -> Alert
        ensures { result ≡ code_of self }
    {
        match self {
            Refusal::Handle => Alert::Handle,
            Refusal::Link => Alert::Link,
            Refusal::Port => Alert::Port,
            Refusal::Sem => Alert::Sem,
            Refusal::Lib => Alert::Lib,
            Refusal::Io => Alert::Io,
        }
    }
}

/// What a call on a semaphore answers by address: any fault of the semaphores is the refusal Sem.
pub(crate) fn as_refusal<A>(answer: Result<A, SemFault>) -> Result<A, Refusal>
    ensures { result ≡ as_refusal answer }
{
    match answer {
        Ok(answer) => Ok(answer),
        Err(_) => Err(Refusal::Sem),
    }
}
