//! Words of signal semaphores (RKM Libraries, Exec Semaphores).
ghost use Rattle.std.specs.Prelude.{◌≡◌};
ghost use Rattle.script.specs.{Rows.row_view, SemaphoreWords.semaphore_row};

use crate::word::Word;
use crate::word::row::{Kind, Row};

/// A call on signal semaphores.
#[derive(Clone, Copy, Debug, PartialEq, Eq)]
pub enum SemaphoreWord {
    /// Makes a semaphore that no task owns (autodoc exec.library/InitSemaphore; that it takes the memory: project
    /// rule).
    NewSem,
    /// Frees a semaphore that no task owns (project rule).
    FreeSem,
    /// Asks for a semaphore; the task waits if another one owns it (autodoc exec.library/ObtainSemaphore).
    ObtainSemaphore,
    /// Asks for a semaphore without waiting (autodoc exec.library/AttemptSemaphore).
    AttemptSemaphore,
    /// Releases a semaphore once (autodoc exec.library/ReleaseSemaphore).
    ReleaseSemaphore,
}

/// The words of this group.
pub(super) const ALL: [Word; 5] = [
    Word::Semaphores(SemaphoreWord::NewSem),
    Word::Semaphores(SemaphoreWord::FreeSem),
    Word::Semaphores(SemaphoreWord::ObtainSemaphore),
    Word::Semaphores(SemaphoreWord::AttemptSemaphore),
    Word::Semaphores(SemaphoreWord::ReleaseSemaphore),
];

impl SemaphoreWord {
    /// The row of the word.
    #[inline(always)]
    pub(super) fn row(self) -> Row
        ensures { row_view result ≡ semaphore_row self }
    {
        match self {
            SemaphoreWord::NewSem => Row::answering("NewSem", &[]),
            SemaphoreWord::FreeSem => Row::without_answer("FreeSem", &[Kind::Value]),
            SemaphoreWord::ObtainSemaphore => {
                Row::without_answer("ObtainSemaphore", &[Kind::Value])
            }
            SemaphoreWord::AttemptSemaphore => Row::answering("AttemptSemaphore", &[Kind::Value]),
            SemaphoreWord::ReleaseSemaphore => {
                Row::without_answer("ReleaseSemaphore", &[Kind::Value])
            }
        }
    }
}
