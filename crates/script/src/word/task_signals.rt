//! Words of signals (RKM Libraries, Exec Signals).
ghost use Rattle.std.specs.Prelude.{◌≡◌};
ghost use Rattle.script.specs.{SignalWords.signal_row, Rows.row_view};

use crate::word::Word;
use crate::word::row::{Kind, Row};

/// A call on signals.
#[derive(Clone, Copy, Debug, PartialEq, Eq)]
pub enum SignalWord {
    /// Allocates a signal (autodoc exec.library/AllocSignal).
    AllocSignal,
    /// Frees a signal (autodoc exec.library/FreeSignal).
    FreeSignal,
    /// Sets signals of the caller (autodoc exec.library/SetSignal).
    SetSignal,
    /// Sends signals to a task (autodoc exec.library/Signal).
    Signal,
    /// Waits for signals (autodoc exec.library/Wait).
    Wait,
}

/// The words of this group.
pub(super) const ALL: [Word; 5] = [
    Word::Signals(SignalWord::AllocSignal),
    Word::Signals(SignalWord::FreeSignal),
    Word::Signals(SignalWord::SetSignal),
    Word::Signals(SignalWord::Signal),
    Word::Signals(SignalWord::Wait),
];

impl SignalWord {
    /// The row of the word.
    #[inline(always)]
    pub(super) fn row(self) -> Row
        ensures { row_view result ≡ signal_row self }
    {
        match self {
            SignalWord::AllocSignal => Row::answering("AllocSignal", &[Kind::Value]),
            SignalWord::FreeSignal => Row::without_answer("FreeSignal", &[Kind::Value]),
            SignalWord::SetSignal => Row::answering("SetSignal", &[Kind::Value, Kind::Value]),
            SignalWord::Signal => Row::without_answer("Signal", &[Kind::Value, Kind::Value]),
            SignalWord::Wait => Row::answering("Wait", &[Kind::Value]),
        }
    }
}
