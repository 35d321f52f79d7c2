//! Words of memory (RKM Libraries, Exec Memory Allocation).
ghost use Rattle.std.specs.Prelude.{◌≡◌};
ghost use Rattle.script.specs.{MemoryWords.memory_row, Rows.row_view};

use crate::word::Word;
use crate::word::row::{Kind, Row};

/// A call on memory.
#[derive(Clone, Copy, Debug, PartialEq, Eq)]
pub enum MemoryWord {
    /// Allocates memory (autodoc exec.library/AllocMem).
    AllocMem,
    /// Frees memory (autodoc exec.library/FreeMem).
    FreeMem,
    /// Asks how much memory there is (autodoc exec.library/AvailMem).
    AvailMem,
}

/// The words of this group.
pub(super) const ALL: [Word; 3] = [
    Word::Memory(MemoryWord::AllocMem),
    Word::Memory(MemoryWord::FreeMem),
    Word::Memory(MemoryWord::AvailMem),
];

impl MemoryWord {
    /// The row of the word.
    #[inline(always)]
    pub(super) fn row(self) -> Row
        ensures { row_view result ≡ memory_row self }
    {
        match self {
            MemoryWord::AllocMem => Row::answering("AllocMem", &[Kind::Value, Kind::Value]),
            MemoryWord::FreeMem => Row::without_answer("FreeMem", &[Kind::Value, Kind::Value]),
            MemoryWord::AvailMem => Row::answering("AvailMem", &[Kind::Value]),
        }
    }
}
