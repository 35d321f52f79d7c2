//! Words of lists and nodes (RKM Libraries, Exec Lists and Queues).
ghost use Rattle.std.specs.Prelude.{◌≡◌};
ghost use Rattle.script.specs.{ListWords.list_row, Rows.row_view};

use crate::word::Word;
use crate::word::row::{Kind, Row};

/// A call on lists and nodes.
#[derive(Clone, Copy, Debug, PartialEq, Eq)]
pub enum ListWord {
    /// Makes an empty list (amiga.lib/NewList; that it takes the memory for the list: project rule).
    NewList,
    /// Frees an empty list (project rule).
    FreeList,
    /// Makes a node with a priority and a name, or with no name (project rule).
    NewNode,
    /// Frees a node that is in no list (project rule).
    FreeNode,
    /// Puts a node first in a list (autodoc exec.library/AddHead).
    AddHead,
    /// Puts a node last in a list (autodoc exec.library/AddTail).
    AddTail,
    /// Puts a node into a list by its priority (autodoc exec.library/Enqueue).
    Enqueue,
    /// Puts a node into a list after another one (autodoc exec.library/Insert).
    Insert,
    /// Takes a node out of the list that it is in (autodoc exec.library/Remove).
    Remove,
    /// Takes out the first node of a list (autodoc exec.library/RemHead).
    RemHead,
    /// Takes out the last node of a list (autodoc exec.library/RemTail).
    RemTail,
    /// Asks for the first node of a list (RKM Libraries, Exec Lists and Queues: scanning a list).
    First,
    /// Asks for the last node of a list (RKM Libraries, Exec Lists and Queues: scanning a list).
    Last,
    /// Asks for the node after a node (RKM Libraries, Exec Lists and Queues: scanning a list).
    Succ,
    /// Asks for the node before a node (RKM Libraries, Exec Lists and Queues: scanning a list).
    Pred,
    /// Finds a node by its name, from the start of a list or after a node (autodoc exec.library/FindName).
    FindName,
}

/// The words of this group.
pub(super) const ALL: [Word; 16] = [
    Word::Lists(ListWord::NewList),
    Word::Lists(ListWord::FreeList),
    Word::Lists(ListWord::NewNode),
    Word::Lists(ListWord::FreeNode),
    Word::Lists(ListWord::AddHead),
    Word::Lists(ListWord::AddTail),
    Word::Lists(ListWord::Enqueue),
    Word::Lists(ListWord::Insert),
    Word::Lists(ListWord::Remove),
    Word::Lists(ListWord::RemHead),
    Word::Lists(ListWord::RemTail),
    Word::Lists(ListWord::First),
    Word::Lists(ListWord::Last),
    Word::Lists(ListWord::Succ),
    Word::Lists(ListWord::Pred),
    Word::Lists(ListWord::FindName),
];

impl ListWord {
    /// The row of the word.
    #[inline(always)]
    pub(super) fn row(self) -> Row
        ensures { row_view result ≡ list_row self }
    {
        match self {
            ListWord::NewList => Row::answering("NewList", &[]),
            ListWord::FreeList => Row::without_answer("FreeList", &[Kind::Value]),
            ListWord::NewNode => Row::answering("NewNode", &[Kind::Value, Kind::NameOrNone]),
            ListWord::FreeNode => Row::without_answer("FreeNode", &[Kind::Value]),
            ListWord::AddHead => Row::without_answer("AddHead", &[Kind::Value, Kind::Value]),
            ListWord::AddTail => Row::without_answer("AddTail", &[Kind::Value, Kind::Value]),
            ListWord::Enqueue => Row::without_answer("Enqueue", &[Kind::Value, Kind::Value]),
            ListWord::Insert => Row::without_answer(
                "Insert",
                &[Kind::Value, Kind::Value, Kind::Value],
            ),
            ListWord::Remove => Row::without_answer("Remove", &[Kind::Value]),
            ListWord::RemHead => Row::answering("RemHead", &[Kind::Value]),
            ListWord::RemTail => Row::answering("RemTail", &[Kind::Value]),
            ListWord::First => Row::answering("First", &[Kind::Value]),
            ListWord::Last => Row::answering("Last", &[Kind::Value]),
            ListWord::Succ => Row::answering("Succ", &[Kind::Value]),
            ListWord::Pred => Row::answering("Pred", &[Kind::Value]),
            ListWord::FindName => Row::answering("FindName", &[Kind::Value, Kind::Name]),
        }
    }
}
