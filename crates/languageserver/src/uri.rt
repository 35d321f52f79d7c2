//! Names of documents.

use crate::made::Made;
use percent_encoding::percent_decode;
use std::alloc::Global;

/// How the name of a document ends that is a machine file with an event text beside it.
const MACHINE_END: &str = ".toml";

/// How the name of an event text ends.
const EVENTS_END: &str = ".events";

/// Whether a document is an event text; each other one is a machine file.
pub(crate) fn is_events(uri: &str) -> bool {
    uri.ends_with(EVENTS_END)
}

/// A name with another end.
fn with_end(alloc: Global, name: &str, end: &str, other: &str) -> Made<Option<String>> {
    match name.strip_suffix(end) {
        None => Ok(None),
        Some(front) => Ok(Some(format!(in alloc; "{front}{other}")?)),
    }
}

/// The name of the event text beside a machine file.
pub(crate) fn events_beside(alloc: Global, uri: &str) -> Made<Option<String>> {
    with_end(alloc, uri, MACHINE_END, EVENTS_END)
}

/// The name of the machine file beside an event text.
pub(crate) fn machine_beside(alloc: Global, uri: &str) -> Made<Option<String>> {
    with_end(alloc, uri, EVENTS_END, MACHINE_END)
}

/// The path of the file that a name is of, if it is of one of this machine.
pub(crate) fn path_of(alloc: Global, uri: &str) -> Made<Option<String>> {
    let Some(rest) = uri.strip_prefix("file://") else {
        return Ok(None);
    };
    let path = rest.strip_prefix("localhost").unwrap_or(rest);
    if !path.starts_with("/") {
        return Ok(None);
    }
    let mut bytes = Vec::new(alloc);
    percent_decode(path.as_bytes()).append_to(&mut bytes)?;
    Ok(String::from_utf8(bytes).ok())
}
