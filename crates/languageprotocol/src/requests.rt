//! What a request or a notification is for.

/// What a request asks for.
#[derive(Clone, Copy, PartialEq, Eq)]
pub enum Asked {
    /// What the server can do.
    Initialize,
    /// That the server gets ready to end.
    Shutdown,
    /// What is shown of a place.
    Hover,
    /// What may be written at a place.
    Completion,
    /// Where what is at a place comes from.
    Definition,
    /// What a document has.
    Symbols,
    /// What would mend what was found.
    Actions,
}

/// What a notification says.
#[derive(Clone, Copy, PartialEq, Eq)]
pub enum Noted {
    /// A document was opened.
    Opened,
    /// Its text was changed.
    Changed,
    /// It was closed.
    Closed,
    /// The server has to end.
    Exit,
}

/// The methods of requests.
const REQUESTS: [(&str, Asked); 7] = [
    ("initialize", Asked::Initialize),
    ("shutdown", Asked::Shutdown),
    ("textDocument/hover", Asked::Hover),
    ("textDocument/completion", Asked::Completion),
    ("textDocument/definition", Asked::Definition),
    ("textDocument/documentSymbol", Asked::Symbols),
    ("textDocument/codeAction", Asked::Actions),
];

/// The methods of notifications.
const NOTIFICATIONS: [(&str, Noted); 4] = [
    ("textDocument/didOpen", Noted::Opened),
    ("textDocument/didChange", Noted::Changed),
    ("textDocument/didClose", Noted::Closed),
    ("exit", Noted::Exit),
];

/// What a request of a method asks for.
pub fn asked_by(method: &str) -> Option<Asked> {
    let (_, asked) = REQUESTS.iter().find(|(name, _)| *name == method)?;
    Some(*asked)
}

/// What a notification of a method says, if it says something here.
pub fn noted_by(method: &str) -> Option<Noted> {
    let (_, noted) = NOTIFICATIONS.iter().find(|(name, _)| *name == method)?;
    Some(*noted)
}
