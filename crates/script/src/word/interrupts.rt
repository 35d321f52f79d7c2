//! Words of interrupts (RKM Libraries, Exec Interrupts).
ghost use Rattle.std.specs.Prelude.{◌≡◌};
ghost use Rattle.script.specs.{InterruptWords.interrupt_row, Rows.row_view};

use crate::word::Word;
use crate::word::row::{Kind, Row};

/// A call on interrupts.
#[derive(Clone, Copy, Debug, PartialEq, Eq)]
pub enum InterruptWord {
    /// Causes a software interrupt, by its name (autodoc exec.library/Cause).
    Cause,
}

/// The words of this group.
pub(super) const ALL: [Word; 1] = [Word::Interrupts(InterruptWord::Cause)];

impl InterruptWord {
    /// The row of the word.
    #[inline(always)]
    pub(super) fn row(self) -> Row
        ensures { row_view result ≡ interrupt_row self }
    {
        match self {
            InterruptWord::Cause => Row::without_answer("Cause", &[Kind::Softint]),
        }
    }
}
