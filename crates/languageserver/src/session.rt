//! What a server knows: the documents that are open, and how far the talk with the editor is. It takes one message
//! after another, and keeps what it has to say.

use crate::documents::Documents;
use crate::finding::{Outside, found_in};
use crate::made::Made;
use crate::publishing::published;
use crate::query::Query;
use crate::uri::{is_events, machine_beside};
use execadvice::FileSpan;
use languageprotocol::{
    Asked, Noted, Refusal, answer, asked_by, noted_by, number_in, refused, text_in,
};
use serde_json::{Value, json};
use std::alloc::{AllocError, Global};

/// How far the talk with the editor is.
#[derive(Clone, Copy, PartialEq, Eq)]
pub enum Stage {
    /// Nothing was asked.
    Fresh,
    /// The server was told to begin.
    Running,
    /// It was told to get ready to end.
    Closing,
    /// It was told to end, after it was told to get ready.
    Ended,
    /// It was told to end all at once.
    Aborted,
}

/// A server.
#[derive(Drop)]
pub struct Session<'o, O> {
    alloc: Global,
    outside: &'o O,
    documents: Documents,
    stage: Stage,
    /// What is to be said.
    pub outgoing: Vec<Value>,
}

/// The answer to a request: a value, or why there is none.
type Answer = Result<Value, Refusal>;

/// What the server can do.
fn abilities(alloc: Global) -> Made<Value> {
    let completion = json!(in alloc; {"triggerCharacters": [" ", "\"", "@"]})?;
    let actions = json!(in alloc; {"codeActionKinds": ["quickfix"]})?;
    let abilities = json!(in alloc;
        {"positionEncoding": "utf-16", "textDocumentSync": 1, "hoverProvider": true, "definitionProvider": true,
         "documentSymbolProvider": true, "completionProvider": completion, "codeActionProvider": actions})?;
    json!(in alloc; {"capabilities": abilities, "serverInfo": {"name": "execcheck"}})
}

/// The part of a text that a request names.
fn part_of(query: &Query<'_>, message: &Value) -> Option<FileSpan> {
    let line = number_in(message, "/params/range/start/line")?;
    let units = number_in(message, "/params/range/start/character")?;
    let start = query.place_at(line, units);
    let line = number_in(message, "/params/range/end/line")?;
    let units = number_in(message, "/params/range/end/character")?;
    let end = query.place_at(line, units);
    Some(FileSpan { start, end })
}

/// The answer to a request for a place of a text.
fn place_answer(query: &Query<'_>, asked: Asked, message: &Value) -> Made<Answer> {
    let (Some(line), Some(units)) = (
        number_in(message, "/params/position/line"),
        number_in(message, "/params/position/character"),
    ) else {
        return Ok(Err(Refusal::BadParameters));
    };
    let at = query.place_at(line, units);
    match asked {
        Asked::Hover => Ok(Ok(query.hover(at)?)),
        Asked::Completion => Ok(Ok(query.completion(at)?)),
        _ => Ok(Ok(query.definition(at)?)),
    }
}

/// The text that a change of a document ends with.
fn changed_text(message: &Value) -> Option<&str> {
    let changes = message.pointer("/params/contentChanges")?.as_array()?;
    changes.last()?.get("text")?.as_str()
}

impl<'o, O: Outside> Session<'o, O> {
    /// A server of which nothing was asked.
    pub(crate) fn new(alloc: Global, outside: &'o O) -> Session<'o, O> {
        Session {
            alloc,
            outside,
            documents: Documents::new(alloc),
            stage: Stage::Fresh,
            outgoing: Vec::new(alloc),
        }
    }

    /// How far the talk is.
    pub(crate) fn stage(&self) -> Stage {
        self.stage
    }

    /// Has something said.
    fn say(&mut self, message: Value) -> Made<()> {
        self.outgoing.push(message)?;
        Ok(())
    }

    /// Looks at the document at a place, if it was changed, and has said what is found.
    fn look(&mut self, place: usize) -> Made<()> {
        let Some(one) = self.documents.at(place) else {
            return Ok(());
        };
        if !one.is_changed {
            return Ok(());
        }
        let (alloc, uri, text) = (self.alloc, one.uri.as_str(), one.text.as_str());
        let found = found_in(self.outside, alloc, &self.documents, uri, text.as_bytes())?;
        let values = Query::new(alloc, uri, text)?.found_values(&found)?;
        let message = published(alloc, uri, values)?;
        self.documents.note(place, found);
        self.say(message)
    }

    /// Looks at each document that was changed.
    pub(crate) fn look_at_all(&mut self) -> Made<()> {
        for place in 0..self.documents.count() {
            self.look(place)?;
        }
        Ok(())
    }

    /// The answer to a request about a document: null if it is not open or no machine file.
    fn document_answer(&mut self, asked: Asked, message: &Value) -> Made<Answer> {
        let Some(uri) = text_in(message, "/params/textDocument/uri") else {
            return Ok(Err(Refusal::BadParameters));
        };
        if asked == Asked::Actions {
            self.look_at_all()?;
        }
        let Some(one) = self.documents.named(uri) else {
            return Ok(Ok(Value::Null));
        };
        let query = Query::new(self.alloc, uri, one.text.as_str())?;
        match asked {
            Asked::Actions => match part_of(&query, message) {
                None => Ok(Err(Refusal::BadParameters)),
                Some(part) => Ok(Ok(query.actions(&one.found, part)?)),
            },
            _ if is_events(uri) => Ok(Ok(Value::Null)),
            Asked::Symbols => Ok(Ok(query.symbols()?)),
            _ => place_answer(&query, asked, message),
        }
    }

    /// The answer to a request.
    fn answer_to(&mut self, asked: Asked, message: &Value) -> Made<Answer> {
        match (asked, self.stage) {
            (Asked::Initialize, Stage::Fresh) => {
                self.stage = Stage::Running;
                Ok(Ok(abilities(self.alloc)?))
            }
            (_, Stage::Fresh) => Ok(Err(Refusal::NotInitialized)),
            (Asked::Initialize, _) => Ok(Err(Refusal::NotARequest)),
            (Asked::Shutdown, Stage::Running) => {
                self.stage = Stage::Closing;
                Ok(Ok(Value::Null))
            }
            (_, Stage::Running) => self.document_answer(asked, message),
            _ => Ok(Err(Refusal::NotARequest)),
        }
    }

    /// Takes a request.
    fn take_request(&mut self, method: &str, id: &Value, message: &Value) -> Made<()> {
        let answered = match asked_by(method) {
            None => Err(Refusal::UnknownMethod),
            Some(asked) => self.answer_to(asked, message)?,
        };
        let said = match answered {
            Ok(value) => answer(self.alloc, id, value)?,
            Err(why) => refused(self.alloc, id, why)?,
        };
        self.say(said)
    }

    /// Notes a document's text.
    fn set(&mut self, message: &Value, text: Option<&str>) -> Made<()> {
        let (Some(uri), Some(text)) = (text_in(message, "/params/textDocument/uri"), text) else {
            return Ok(());
        };
        self.documents.set(uri, text)?;
        self.mark_machine(uri)
    }

    /// Has the machine file looked at again beside which an event text is.
    fn mark_machine(&mut self, uri: &str) -> Made<()> {
        if let Some(machine) = machine_beside(self.alloc, uri)? {
            self.documents.mark(machine.as_str());
        }
        Ok(())
    }

    /// Closes a document: the editor forgets what was found in it.
    fn close(&mut self, message: &Value) -> Made<()> {
        let Some(uri) = text_in(message, "/params/textDocument/uri") else {
            return Ok(());
        };
        self.documents.close(uri);
        self.mark_machine(uri)?;
        let forgotten = published(self.alloc, uri, Vec::new(self.alloc))?;
        self.say(forgotten)
    }

    /// Takes a notification; one that says nothing here is let go.
    fn take_notification(&mut self, noted: Noted, message: &Value) -> Made<()> {
        match (noted, self.stage) {
            (Noted::Exit, Stage::Closing) => {
                self.stage = Stage::Ended;
                Ok(())
            }
            (Noted::Exit, _) => {
                self.stage = Stage::Aborted;
                Ok(())
            }
            (Noted::Opened, Stage::Running) => {
                self.set(message, text_in(message, "/params/textDocument/text"))
            }
            (Noted::Changed, Stage::Running) => self.set(message, changed_text(message)),
            (Noted::Closed, Stage::Running) => self.close(message),
            _ => Ok(()),
        }
    }

    /// Takes a message that is JSON.
    fn take_value(&mut self, message: &Value) -> Made<()> {
        match (
            message.get("method").and_then(Value::as_str),
            message.get("id"),
        ) {
            (Some(method), Some(id)) => self.take_request(method, id, message),
            (Some(method), None) => match noted_by(method) {
                None => Ok(()),
                Some(noted) => self.take_notification(noted, message),
            },
            // An answer, though nothing was asked.
            (None, Some(_)) => Ok(()),
            (None, None) => {
                let said = refused(self.alloc, &Value::Null, Refusal::NotARequest)?;
                self.say(said)
            }
        }
    }

    /// Takes a message.
    pub(crate) fn take(&mut self, bytes: &[u8]) -> Made<()> {
        match Value::from_slice(self.alloc, bytes) {
            Ok(message) => self.take_value(&message),
            Err(error) => {
                if error.is_memory() {
                    return Err(AllocError);
                }
                let said = refused(self.alloc, &Value::Null, Refusal::NotJson)?;
                self.say(said)
            }
        }
    }
}
