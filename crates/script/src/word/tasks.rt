//! Words of tasks (RKM Libraries, Exec Tasks).
ghost use Rattle.std.specs.Prelude.{◌≡◌};
ghost use Rattle.script.specs.{TaskWords.task_row, Rows.row_view};

use crate::word::Word;
use crate::word::row::{Kind, Row};

/// A call that begins, ends or finds a task, or sets its priority.
#[derive(Clone, Copy, Debug, PartialEq, Eq)]
pub enum TaskWord {
    /// Gives a task another priority (autodoc exec.library/SetTaskPri).
    SetTaskPri,
    /// Starts a task that never was added (autodoc exec.library/AddTask).
    AddTask,
    /// Ends a task (autodoc exec.library/RemTask).
    RemTask,
    /// Finds a task by its name, or the caller (autodoc exec.library/FindTask).
    FindTask,
}

/// The words of this group.
pub(super) const ALL: [Word; 4] = [
    Word::Tasks(TaskWord::SetTaskPri),
    Word::Tasks(TaskWord::AddTask),
    Word::Tasks(TaskWord::RemTask),
    Word::Tasks(TaskWord::FindTask),
];

impl TaskWord {
    /// The row of the word.
    #[inline(always)]
    pub(super) fn row(self) -> Row
        ensures { row_view result ≡ task_row self }
    {
        match self {
            TaskWord::SetTaskPri => Row::answering("SetTaskPri", &[Kind::Value, Kind::Value]),
            TaskWord::AddTask => Row::answering("AddTask", &[Kind::Value]),
            TaskWord::RemTask => Row::without_answer("RemTask", &[Kind::Value]),
            TaskWord::FindTask => Row::answering("FindTask", &[Kind::NameOrNone]),
        }
    }
}
