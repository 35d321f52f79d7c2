//! Words of libraries (RKM Libraries, Exec Libraries).
ghost use Rattle.std.specs.Prelude.{◌≡◌};
ghost use Rattle.script.specs.{LibraryWords.library_row, Rows.row_view};

use crate::word::Word;
use crate::word::row::{Kind, Row};

/// A call on libraries.
#[derive(Clone, Copy, Debug, PartialEq, Eq)]
pub enum LibraryWord {
    /// Opens a library of a name and at least a version, and loads it first if it is absent (autodoc
    /// exec.library/OpenLibrary).
    OpenLibrary,
    /// Closes a library once (autodoc exec.library/CloseLibrary).
    CloseLibrary,
    /// Expunges a library, or has it expunged when it is closed for the last time (autodoc exec.library/RemLibrary).
    RemLibrary,
    /// Asks how often a library is open (RKM Libraries, Exec Libraries: lib_OpenCnt).
    LibOpenCnt,
}

/// The words of this group.
pub(super) const ALL: [Word; 4] = [
    Word::Libraries(LibraryWord::OpenLibrary),
    Word::Libraries(LibraryWord::CloseLibrary),
    Word::Libraries(LibraryWord::RemLibrary),
    Word::Libraries(LibraryWord::LibOpenCnt),
];

impl LibraryWord {
    /// The row of the word.
    #[inline(always)]
    pub(super) fn row(self) -> Row
        ensures { row_view result ≡ library_row self }
    {
        match self {
            LibraryWord::OpenLibrary => Row::answering("OpenLibrary", &[Kind::Name, Kind::Value]),
            LibraryWord::CloseLibrary => Row::without_answer("CloseLibrary", &[Kind::Value]),
            LibraryWord::RemLibrary => Row::without_answer("RemLibrary", &[Kind::Value]),
            LibraryWord::LibOpenCnt => Row::answering("LibOpenCnt", &[Kind::Value]),
        }
    }
}
