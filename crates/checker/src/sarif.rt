//! What was found as one document in the format SARIF 2.1.0 (OASIS standard, 27 March 2020).

use crate::sheet::Part;
use execadvice::{Diagnostic, Edit, FileSpan, Related};
use explain::sections;
use serde_json::{Map, Value, put};
use std::alloc::{AllocError, Global};

type Object = Map<String, Value>;

/// Adds a member that is a text.
fn put_text(object: &mut Object, alloc: Global, key: &str, text: &str) -> Result<(), AllocError> {
    let value = Value::try_from_str(alloc, text)?;
    put(object, alloc, key, value)
}

/// Adds a member that is a number.
fn put_number(
    object: &mut Object,
    alloc: Global,
    key: &str,
    number: usize,
) -> Result<(), AllocError> {
    put(object, alloc, key, Value::from(number as u64))
}

/// An object with one member.
fn with_one(alloc: Global, key: &str, value: Value) -> Result<Value, AllocError> {
    let mut object = Map::new(alloc);
    put(&mut object, alloc, key, value)?;
    Ok(Value::Object(object))
}

/// A message, or another object that has a text.
fn message(alloc: Global, text: &str) -> Result<Value, AllocError> {
    with_one(alloc, "text", Value::try_from_str(alloc, text)?)
}

/// An array with one item.
fn one_item(alloc: Global, value: Value) -> Result<Value, AllocError> {
    let mut items = Vec::new(alloc);
    items.push(value)?;
    Ok(Value::Array(items))
}

/// Whether a byte of a path is written as it is in a URI (RFC 3986, 2.3 and 3.3).
fn is_plain(byte: u8) -> bool {
    byte.is_ascii_alphanumeric() || matches!(byte, b'-' | b'.' | b'_' | b'~' | b'/')
}

/// The reference of a URI that a path is: one that begins with a slash is of the scheme `file`.
fn uri_of(alloc: Global, path: &str) -> Result<String, AllocError> {
    let mut uri = String::from_str(alloc, if path.starts_with("/") { "file://" } else { "" })?;
    for byte in path.as_bytes() {
        if is_plain(*byte) {
            uri.push(char::from(*byte))?;
        } else {
            uri.push_str(format!(in alloc; "%{byte:02X}")?.as_str())?;
        }
    }
    Ok(uri)
}

/// Where a text is.
fn artifact(alloc: Global, path: &str) -> Result<Value, AllocError> {
    let uri = uri_of(alloc, path)?;
    with_one(alloc, "uri", Value::try_from_str(alloc, uri.as_str())?)
}

/// A part of a text. Its columns are those of code points.
fn region(alloc: Global, span: FileSpan) -> Result<Value, AllocError> {
    let mut object = Map::new(alloc);
    put_number(&mut object, alloc, "startLine", span.start.line)?;
    put_number(&mut object, alloc, "startColumn", span.start.column)?;
    put_number(&mut object, alloc, "endLine", span.end.line)?;
    put_number(&mut object, alloc, "endColumn", span.end.column)?;
    Ok(Value::Object(object))
}

/// A part of a text at a path, or the text as a whole.
fn physical(alloc: Global, path: &str, span: Option<FileSpan>) -> Result<Value, AllocError> {
    let mut object = Map::new(alloc);
    put(
        &mut object,
        alloc,
        "artifactLocation",
        artifact(alloc, path)?,
    )?;
    if let Some(span) = span {
        put(&mut object, alloc, "region", region(alloc, span)?)?;
    }
    Ok(Value::Object(object))
}

/// A place in a text, with what is said of it if that is something.
fn location(
    alloc: Global,
    path: &str,
    span: Option<FileSpan>,
    said: &str,
) -> Result<Value, AllocError> {
    let mut object = Map::new(alloc);
    put(
        &mut object,
        alloc,
        "physicalLocation",
        physical(alloc, path, span)?,
    )?;
    if !said.is_empty() {
        put(&mut object, alloc, "message", message(alloc, said)?)?;
    }
    Ok(Value::Object(object))
}

/// The places that have to do with what was found.
fn related(alloc: Global, path: &str, list: &[Related]) -> Result<Value, AllocError> {
    let mut items = Vec::new(alloc);
    for one in list {
        items.push(location(alloc, path, Some(one.span), one.sentence.as_str())?)?;
    }
    Ok(Value::Array(items))
}

/// The text that is put in place of a part.
fn replacement(alloc: Global, edit: &Edit) -> Result<Value, AllocError> {
    let mut object = Map::new(alloc);
    put(
        &mut object,
        alloc,
        "deletedRegion",
        region(alloc, edit.span)?,
    )?;
    put(
        &mut object,
        alloc,
        "insertedContent",
        message(alloc, edit.text.as_str())?,
    )?;
    Ok(Value::Object(object))
}

/// The change of a text that mends what was found.
fn change(alloc: Global, path: &str, edit: &Edit) -> Result<Value, AllocError> {
    let mut object = Map::new(alloc);
    let list = one_item(alloc, replacement(alloc, edit)?)?;
    put(
        &mut object,
        alloc,
        "artifactLocation",
        artifact(alloc, path)?,
    )?;
    put(&mut object, alloc, "replacements", list)?;
    Ok(Value::Object(object))
}

/// What mends what was found, said as it is proposed.
fn fix(alloc: Global, path: &str, edit: &Edit, said: &str) -> Result<Value, AllocError> {
    let mut object = Map::new(alloc);
    put(&mut object, alloc, "description", message(alloc, said)?)?;
    let list = one_item(alloc, change(alloc, path, edit)?)?;
    put(&mut object, alloc, "artifactChanges", list)?;
    Ok(Value::Object(object))
}

/// Adds the other places that have to do with what was found, and what mends it, if there are some.
fn put_more(
    object: &mut Object,
    alloc: Global,
    path: &str,
    found: &Diagnostic,
) -> Result<(), AllocError> {
    if !found.related.is_empty() {
        put(
            object,
            alloc,
            "relatedLocations",
            related(alloc, path, &found.related)?,
        )?;
    }
    match (&found.fix, &found.meant) {
        (Some(edit), Some(said)) => {
            let list = one_item(alloc, fix(alloc, path, edit, said.as_str())?)?;
            put(object, alloc, "fixes", list)
        }
        _ => Ok(()),
    }
}

/// What was found in the text at a path.
fn result_of(alloc: Global, path: &str, found: &Diagnostic) -> Result<Value, AllocError> {
    let mut object = Map::new(alloc);
    let sentence = found.sentence(alloc)?;
    put_text(&mut object, alloc, "ruleId", found.rule)?;
    put_text(&mut object, alloc, "level", found.severity.name())?;
    put(
        &mut object,
        alloc,
        "message",
        message(alloc, sentence.as_str())?,
    )?;
    let place = location(alloc, path, found.at, found.whose.as_str())?;
    put(&mut object, alloc, "locations", one_item(alloc, place)?)?;
    put_more(&mut object, alloc, path, found)?;
    Ok(Value::Object(object))
}

/// What was found, text after text.
fn results(alloc: Global, parts: &[Part]) -> Result<Value, AllocError> {
    let mut items = Vec::new(alloc);
    for part in parts {
        for one in &part.found {
            items.push(result_of(alloc, part.path.as_str(), one)?)?;
        }
    }
    Ok(Value::Array(items))
}

/// The rules by which something may be found.
fn rules(alloc: Global) -> Result<Value, AllocError> {
    let mut items = Vec::new(alloc);
    for section in &sections(alloc)? {
        let mut object = Map::new(alloc);
        put_text(&mut object, alloc, "id", section.name)?;
        put(
            &mut object,
            alloc,
            "shortDescription",
            message(alloc, section.title)?,
        )?;
        items.push(Value::Object(object))?;
    }
    Ok(Value::Array(items))
}

/// The tool, with its rules.
fn tool(alloc: Global) -> Result<Value, AllocError> {
    let mut driver = Map::new(alloc);
    put_text(&mut driver, alloc, "name", "execcheck")?;
    put(&mut driver, alloc, "rules", rules(alloc)?)?;
    with_one(alloc, "driver", Value::Object(driver))
}

/// The run of the tool over the texts.
fn run(alloc: Global, parts: &[Part]) -> Result<Value, AllocError> {
    let mut object = Map::new(alloc);
    put(&mut object, alloc, "tool", tool(alloc)?)?;
    put_text(&mut object, alloc, "columnKind", "unicodeCodePoints")?;
    put(&mut object, alloc, "results", results(alloc, parts)?)?;
    Ok(Value::Object(object))
}

/// What was found as one document, which ends with a line feed.
///
/// # Errors
///
/// If memory is refused.
pub(crate) fn document(alloc: Global, parts: &[Part]) -> Result<String, AllocError> {
    let mut object = Map::new(alloc);
    let schema = "https://json.schemastore.org/sarif-2.1.0.json";
    put_text(&mut object, alloc, "$schema", schema)?;
    put_text(&mut object, alloc, "version", "2.1.0")?;
    put(
        &mut object,
        alloc,
        "runs",
        one_item(alloc, run(alloc, parts)?)?,
    )?;
    let mut text = Value::Object(object).to_string(alloc)?;
    text.push('\n')?;
    Ok(text)
}
