//! Messages: what comes in has a method, an identifier if it wants an answer, and parameters; what goes out is made
//! here.

use crate::made::Made;
use serde_json::{Value, json};
use std::alloc::Global;

/// Why a request is refused, by the numbers of JSON-RPC 2.0 and of the Language Server Protocol.
#[derive(Clone, Copy)]
pub enum Refusal {
    /// What came is no JSON.
    NotJson,
    /// It is not a request.
    NotARequest,
    /// There is no such method.
    UnknownMethod,
    /// The parameters lack something.
    BadParameters,
    /// The request came before `initialize`.
    NotInitialized,
}

impl Refusal {
    /// Its number.
    fn code(self) -> i64 {
        match self {
            Refusal::NotJson => -32700,
            Refusal::NotARequest => -32600,
            Refusal::UnknownMethod => -32601,
            Refusal::BadParameters => -32602,
            Refusal::NotInitialized => -32002,
        }
    }

    /// What is said of it.
    fn text(self) -> &'static str {
        match self {
            Refusal::NotJson => "the message is not JSON",
            Refusal::NotARequest => "the message is not a request",
            Refusal::UnknownMethod => "there is no such method",
            Refusal::BadParameters => "the parameters lack something, or it is of the wrong kind",
            Refusal::NotInitialized => "the first request has to be initialize",
        }
    }
}

/// A text in a message, at a path of it.
pub fn text_in<'a>(message: &'a Value, path: &str) -> Option<&'a str> {
    message.pointer(path)?.as_str()
}

/// A number in a message, at a path of it.
pub fn number_in(message: &Value, path: &str) -> Option<usize> {
    let number = message.pointer(path)?.as_u64()?;
    Some(usize::try_from(number).unwrap_or(usize::MAX))
}

/// The answer to a request.
pub fn answer(alloc: Global, id: &Value, value: Value) -> Made<Value> {
    json!(in alloc; {"jsonrpc": "2.0", "id": id, "result": value})
}

/// The refusal of a request.
pub fn refused(alloc: Global, id: &Value, why: Refusal) -> Made<Value> {
    let error = json!(in alloc; {"code": why.code(), "message": why.text()})?;
    json!(in alloc; {"jsonrpc": "2.0", "id": id, "error": error})
}

/// A message that wants no answer.
pub fn notification(alloc: Global, method: &str, parameters: Value) -> Made<Value> {
    json!(in alloc; {"jsonrpc": "2.0", "method": method, "params": parameters})
}
