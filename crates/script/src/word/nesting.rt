//! Words of Forbid and Disable (RKM Libraries, Exec Tasks: forbidding task switching).
ghost use Rattle.std.specs.Prelude.{◌≡◌};
ghost use Rattle.script.specs.{NestingWords.nesting_row, Rows.row_view};

use crate::word::Word;
use crate::word::row::Row;

/// A call on the nesting of the running task.
#[derive(Clone, Copy, Debug, PartialEq, Eq)]
pub enum NestingWord {
    /// Keeps other tasks from running (autodoc exec.library/Forbid).
    Forbid,
    /// Takes back one Forbid (autodoc exec.library/Permit).
    Permit,
    /// Keeps interrupts and other tasks from running (autodoc exec.library/Disable).
    Disable,
    /// Takes back one Disable (autodoc exec.library/Enable).
    Enable,
}

/// The words of this group.
pub(super) const ALL: [Word; 4] = [
    Word::Nesting(NestingWord::Forbid),
    Word::Nesting(NestingWord::Permit),
    Word::Nesting(NestingWord::Disable),
    Word::Nesting(NestingWord::Enable),
];

impl NestingWord {
    /// The row of the word.
    #[inline(always)]
    pub(super) fn row(self) -> Row
        ensures { row_view result ≡ nesting_row self }
    {
        match self {
            NestingWord::Forbid => Row::without_answer("Forbid", &[]),
            NestingWord::Permit => Row::without_answer("Permit", &[]),
            NestingWord::Disable => Row::without_answer("Disable", &[]),
            NestingWord::Enable => Row::without_answer("Enable", &[]),
        }
    }
}
