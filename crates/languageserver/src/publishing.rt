//! What is found in a document, as the protocol has it.
ghost use Rattle.std.specs.Prelude.{◌≡◌, IfOk, length, vec_len};

use crate::made::Made;
use crate::query::Query;
use execadvice::{Diagnostic, FilePlace, FileSpan, Related, Severity};
use languageprotocol::notification;
use serde_json::{Value, json};
use std::alloc::Global;

/// Who found it.
const SOURCE: &str = "execcheck";

/// The protocol's number of a severity.
fn number_of(severity: Severity) -> u32 {
    match severity {
        Severity::Error => 1,
        Severity::Warning => 2,
        Severity::Note => 3,
    }
}

/// The first character of a text.
fn first_character() -> FileSpan {
    FileSpan::of_width(FilePlace { line: 1, column: 1 }, 1)
}

impl Query<'_> {
    /// The range of a part of the text.
    pub(crate) fn span_range(&self, span: FileSpan) -> Made<Value> {
        self.range(span.start, span.end)
    }

    /// Another part of the text that has to do with what was found.
    fn related_value(&self, related: &Related) -> Made<Value> {
        let location = self.location(self.span_range(related.span)?)?;
        json!(in self.alloc; {"location": location, "message": &related.sentence})
    }

    /// The other parts of the text that have to do with what was found.
    fn related_values(&self, found: &Diagnostic) -> Made<Vec<Value>> {
        let mut values = Vec::new(self.alloc);
        for related in &found.related {
            values.push(self.related_value(related)?)?;
        }
        Ok(values)
    }

    /// What was found at a place; of the text as a whole, at its first character.
    pub(crate) fn found_value(&self, found: &Diagnostic) -> Made<Value> {
        let range = self.span_range(found.at.unwrap_or(first_character()))?;
        let related = Value::Array(self.related_values(found)?);
        let severity = number_of(found.severity);
        let (rule, sentence) = (found.rule, found.sentence(self.alloc)?);
        json!(in self.alloc;
            {"range": range, "severity": severity, "code": rule, "source": SOURCE, "message": sentence,
             "relatedInformation": related})
    }

    /// All that was found, in its order.
    pub(crate) fn found_values(&self, found: &[Diagnostic]) -> Made<Vec<Value>>
        ensures { IfOk result (λ values. vec_len values ≡ length found.now) }
    {
        let mut values = Vec::new(self.alloc);
        for one in found {
            values.push(self.found_value(one)?)?;
        }
        Ok(values)
    }
}

/// The message that says what was found in a document.
pub(crate) fn published(alloc: Global, uri: &str, values: Vec<Value>) -> Made<Value> {
    let list = Value::Array(values);
    let parameters = json!(in alloc; {"uri": uri, "diagnostics": list})?;
    notification(alloc, "textDocument/publishDiagnostics", parameters)
}
