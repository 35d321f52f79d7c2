//! What would mend what was found: the proposals, as edits of the document.

use crate::made::Made;
use crate::query::Query;
use execadvice::{Diagnostic, Edit, FilePlace, FileSpan};
use serde_json::{Value, json};

/// Whether a place is before another one.
fn is_before(place: FilePlace, other: FilePlace) -> bool {
    place.line < other.line || (place.line == other.line && place.column < other.column)
}

/// Whether two parts of a text meet.
fn meet(one: FileSpan, other: FileSpan) -> bool {
    !is_before(one.end, other.start) && !is_before(other.end, one.start)
}

impl Query<'_> {
    /// An edit of this document.
    fn edit_value(&self, edit: &Edit) -> Made<Value> {
        let range = self.span_range(edit.span)?;
        let one = json!(in self.alloc; {"range": range, "newText": &edit.text})?;
        let mut edits = Vec::new(self.alloc);
        edits.push(one)?;
        let list = Value::Array(edits);
        json!(in self.alloc; {"changes": {(self.uri): list}})
    }

    /// The edit that would mend what was found.
    fn action_value(&self, found: &Diagnostic, edit: &Edit) -> Made<Value> {
        let text = edit.text.as_str();
        let title = format!(in self.alloc; "write {text}")?;
        let change = self.edit_value(edit)?;
        let mut mended = Vec::new(self.alloc);
        mended.push(self.found_value(found)?)?;
        let list = Value::Array(mended);
        json!(in self.alloc;
            {"title": title, "kind": "quickfix", "diagnostics": list, "isPreferred": true, "edit": change})
    }

    /// Adds the edit that would mend what was found, if one is known and it meets a part of the text.
    fn add_action(&self, actions: &mut Vec<Value>, found: &Diagnostic, part: FileSpan) -> Made<()> {
        let (Some(edit), Some(at)) = (&found.fix, found.at) else {
            return Ok(());
        };
        if meet(at, part) || meet(edit.span, part) {
            actions.push(self.action_value(found, edit)?)?;
        }
        Ok(())
    }

    /// The edits that would mend what was found in a part of the text.
    pub(crate) fn actions(&self, found: &[Diagnostic], part: FileSpan) -> Made<Value> {
        let mut actions = Vec::new(self.alloc);
        for one in found {
            self.add_action(&mut actions, one, part)?;
        }
        Ok(Value::Array(actions))
    }
}
