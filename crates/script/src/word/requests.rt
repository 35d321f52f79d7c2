//! Words of requests of timer.device (RKM Devices, Introduction to Amiga System Devices; Devices, timer device).
ghost use Rattle.std.specs.Prelude.{◌≡◌};
ghost use Rattle.script.specs.{RequestWords.request_row, Rows.row_view};

use crate::word::Word;
use crate::word::row::{Kind, Row};

/// A call on requests.
#[derive(Clone, Copy, Debug, PartialEq, Eq)]
pub enum RequestWord {
    /// Makes a request with a reply port (autodoc exec.library/CreateIORequest).
    CreateIORequest,
    /// Frees a request (autodoc exec.library/DeleteIORequest).
    DeleteIORequest,
    /// Opens a request for a unit of a device (autodoc exec.library/OpenDevice).
    OpenDevice,
    /// Closes a request, which is not open any more (autodoc exec.library/CloseDevice).
    CloseDevice,
    /// Gives a request a command and a time (RKM Devices, Introduction to Amiga System Devices: io_Command; Devices,
    /// timer device: tr_time).
    SetIO,
    /// Begins a request, and waits until it is done (autodoc exec.library/DoIO).
    DoIO,
    /// Begins a request (autodoc exec.library/SendIO).
    SendIO,
    /// Asks whether a request is in progress (autodoc exec.library/CheckIO).
    CheckIO,
    /// Waits until a request is done, and takes its reply (autodoc exec.library/WaitIO).
    WaitIO,
    /// Has a request that is in progress replied at once (autodoc exec.library/AbortIO).
    AbortIO,
    /// Asks for the seconds of the time of a request (Devices, timer device: tr_time).
    IOSecs,
    /// Asks for the microseconds of the time of a request (Devices, timer device: tr_time).
    IOMicros,
    /// Asks for the error of a request (RKM Devices, Introduction to Amiga System Devices: io_Error).
    IOError,
    /// Asks whether IOF_QUICK of a request is set (RKM Devices, Introduction to Amiga System Devices: io_Flags).
    IOFlags,
}

/// The words of this group.
pub(super) const ALL: [Word; 14] = [
    Word::Requests(RequestWord::CreateIORequest),
    Word::Requests(RequestWord::DeleteIORequest),
    Word::Requests(RequestWord::OpenDevice),
    Word::Requests(RequestWord::CloseDevice),
    Word::Requests(RequestWord::SetIO),
    Word::Requests(RequestWord::DoIO),
    Word::Requests(RequestWord::SendIO),
    Word::Requests(RequestWord::CheckIO),
    Word::Requests(RequestWord::WaitIO),
    Word::Requests(RequestWord::AbortIO),
    Word::Requests(RequestWord::IOSecs),
    Word::Requests(RequestWord::IOMicros),
    Word::Requests(RequestWord::IOError),
    Word::Requests(RequestWord::IOFlags),
];

impl RequestWord {
    /// The row of the word.
    #[inline(always)]
    pub(super) fn row(self) -> Row
        ensures { row_view result ≡ request_row self }
    {
        match self {
            RequestWord::CreateIORequest => Row::answering("CreateIORequest", &[Kind::Value]),
            RequestWord::DeleteIORequest => Row::without_answer("DeleteIORequest", &[Kind::Value]),
            RequestWord::OpenDevice => Row::answering(
                "OpenDevice",
                &[Kind::Name, Kind::Value, Kind::Value],
            ),
            RequestWord::CloseDevice => Row::without_answer("CloseDevice", &[Kind::Value]),
            RequestWord::SetIO => Row::without_answer(
                "SetIO",
                &[Kind::Value, Kind::Value, Kind::Value, Kind::Value],
            ),
            RequestWord::DoIO => Row::answering("DoIO", &[Kind::Value]),
            RequestWord::SendIO => Row::without_answer("SendIO", &[Kind::Value]),
            RequestWord::CheckIO => Row::answering("CheckIO", &[Kind::Value]),
            RequestWord::WaitIO => Row::answering("WaitIO", &[Kind::Value]),
            RequestWord::AbortIO => Row::answering("AbortIO", &[Kind::Value]),
            RequestWord::IOSecs => Row::answering("IOSecs", &[Kind::Value]),
            RequestWord::IOMicros => Row::answering("IOMicros", &[Kind::Value]),
            RequestWord::IOError => Row::answering("IOError", &[Kind::Value]),
            RequestWord::IOFlags => Row::answering("IOFlags", &[Kind::Value]),
        }
    }
}
