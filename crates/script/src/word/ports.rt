//! Words of message ports and messages (RKM Libraries, Exec Messages and Ports).
ghost use Rattle.std.specs.Prelude.{◌≡◌};
ghost use Rattle.script.specs.{PortWords.port_row, Rows.row_view};

use crate::word::Word;
use crate::word::row::{Kind, Row};

/// A call on message ports and messages.
#[derive(Clone, Copy, Debug, PartialEq, Eq)]
pub enum PortWord {
    /// Makes a port that signals the caller and is not public (autodoc exec.library/CreateMsgPort).
    CreateMsgPort,
    /// Ends a port that holds no message and is not public (autodoc exec.library/DeleteMsgPort).
    DeleteMsgPort,
    /// Makes a port public under a name, with a priority (autodoc exec.library/AddPort).
    AddPort,
    /// Takes a port out of the public ones (autodoc exec.library/RemPort).
    RemPort,
    /// Finds a public port by its name (autodoc exec.library/FindPort).
    FindPort,
    /// Sets the port's action to PA_SIGNAL (project rule; RKM Libraries, Exec Messages and Ports: mp_Flags).
    PortSignal,
    /// Sets the port's action to PA_SOFTINT, which causes a software interrupt (project rule; RKM Libraries, Exec
    /// Messages and Ports: mp_Flags).
    PortCause,
    /// Sets the port's action to PA_IGNORE (project rule; RKM Libraries, Exec Messages and Ports: mp_Flags).
    PortIgnore,
    /// Makes a message with a reply port, or with none, and with a word (project rule).
    NewMsg,
    /// Frees a message that is in no port (project rule).
    FreeMsg,
    /// Asks for the word that a message carries (project rule).
    MsgWord,
    /// Sets the word that a message carries (project rule).
    SetMsgWord,
    /// Asks for the type of a message (exec/nodes.h, ln_Type).
    MsgType,
    /// Puts a message at the end of a port (autodoc exec.library/PutMsg).
    PutMsg,
    /// Takes the first message out of a port (autodoc exec.library/GetMsg).
    GetMsg,
    /// Asks for the first message of a port, which stays there; waits if there is none (autodoc exec.library/WaitPort).
    WaitPort,
    /// Puts a message to its reply port (autodoc exec.library/ReplyMsg).
    ReplyMsg,
}

/// The words of this group.
pub(super) const ALL: [Word; 17] = [
    Word::Ports(PortWord::CreateMsgPort),
    Word::Ports(PortWord::DeleteMsgPort),
    Word::Ports(PortWord::AddPort),
    Word::Ports(PortWord::RemPort),
    Word::Ports(PortWord::FindPort),
    Word::Ports(PortWord::PortSignal),
    Word::Ports(PortWord::PortCause),
    Word::Ports(PortWord::PortIgnore),
    Word::Ports(PortWord::NewMsg),
    Word::Ports(PortWord::FreeMsg),
    Word::Ports(PortWord::MsgWord),
    Word::Ports(PortWord::SetMsgWord),
    Word::Ports(PortWord::MsgType),
    Word::Ports(PortWord::PutMsg),
    Word::Ports(PortWord::GetMsg),
    Word::Ports(PortWord::WaitPort),
    Word::Ports(PortWord::ReplyMsg),
];

impl PortWord {
    /// The row of the word.
    #[inline(always)]
    pub(super) fn row(self) -> Row
        ensures { row_view result ≡ port_row self }
    {
        match self {
            PortWord::CreateMsgPort => Row::answering("CreateMsgPort", &[]),
            PortWord::DeleteMsgPort => Row::without_answer("DeleteMsgPort", &[Kind::Value]),
            PortWord::AddPort => Row::without_answer(
                "AddPort",
                &[Kind::Value, Kind::Name, Kind::Value],
            ),
            PortWord::RemPort => Row::without_answer("RemPort", &[Kind::Value]),
            PortWord::FindPort => Row::answering("FindPort", &[Kind::Name]),
            PortWord::PortSignal => Row::without_answer("PortSignal", &[Kind::Value]),
            PortWord::PortCause => Row::without_answer("PortCause", &[Kind::Value, Kind::Softint]),
            PortWord::PortIgnore => Row::without_answer("PortIgnore", &[Kind::Value]),
            PortWord::NewMsg => Row::answering("NewMsg", &[Kind::Value, Kind::Value]),
            PortWord::FreeMsg => Row::without_answer("FreeMsg", &[Kind::Value]),
            PortWord::MsgWord => Row::answering("MsgWord", &[Kind::Value]),
            PortWord::SetMsgWord => Row::without_answer("SetMsgWord", &[Kind::Value, Kind::Value]),
            PortWord::MsgType => Row::answering("MsgType", &[Kind::Value]),
            PortWord::PutMsg => Row::without_answer("PutMsg", &[Kind::Value, Kind::Value]),
            PortWord::GetMsg => Row::answering("GetMsg", &[Kind::Value]),
            PortWord::WaitPort => Row::answering("WaitPort", &[Kind::Value]),
            PortWord::ReplyMsg => Row::without_answer("ReplyMsg", &[Kind::Value]),
        }
    }
}
