//! What a text has: its regions, libraries, interrupts and tasks, and the labels of their code.

use crate::code::CodeLine;
use crate::made::Made;
use crate::query::Query;
use execadvice::{Span, width_of};
use serde_json::{Value, json};
use taskscript::{Array, Owner};

/// The protocol's kind of a label: a key.
const KEY: u32 = 20;

/// The protocol's kinds of the items of an array.
fn kind_of(array: Array) -> u32 {
    match array {
        Array::Region => 18,
        Array::Library => 4,
        Array::Softint => 24,
        Array::Server => 11,
        Array::Task => 12,
    }
}

/// What has the code of the items of an array.
fn owner_of(array: Array) -> Option<Owner> {
    match array {
        Array::Region | Array::Library => None,
        Array::Softint => Some(Owner::Softint),
        Array::Server => Some(Owner::Server),
        Array::Task => Some(Owner::Task),
    }
}

impl Query<'_> {
    /// A label of a body.
    fn label_symbol(&self, line: &CodeLine, label: &str) -> Made<Value> {
        let width = width_of(line.code.as_str());
        let range = self.code_range(line.place, Span { start: 0, width })?;
        json!(in self.alloc; {"name": label, "kind": KEY, "range": &range, "selectionRange": &range})
    }

    /// The labels of an item's code.
    fn label_symbols(&self, array: Array, item: usize) -> Made<Vec<Value>> {
        let mut labels = Vec::new(self.alloc);
        let Some(owner) = owner_of(array) else {
            return Ok(labels);
        };
        for line in &self.body(owner, item)? {
            if let Some(label) = line.label() {
                labels.push(self.label_symbol(line, label)?)?;
            }
        }
        Ok(labels)
    }

    /// What an item is called: by its name, or else by its kind and number.
    fn item_title(&self, array: Array, item: usize) -> Made<String> {
        let name = self.item_name(array, item)?;
        let (key, number) = (array.key(), item.saturating_add(1));
        if name.as_str().is_empty() {
            format!(in self.alloc; "{key} {number}")
        } else {
            format!(in self.alloc; "{key} {name}")
        }
    }

    /// The range of an item, from its head to the end of its code, and that of its head.
    fn item_ranges(&self, array: Array, item: usize) -> Made<(Value, Value)> {
        let Some(head) = self.written.head(array, item) else {
            return Ok((Value::Null, Value::Null));
        };
        let own = self.range_of(head.place, head.text)?;
        let lines = self
            .written
            .items(array)
            .get(item)
            .map(|one| one.lines.len())
            .unwrap_or(0);
        match self.written.line(array, item, lines.saturating_sub(1)) {
            None => Ok((own.clone()?, own)),
            Some(last) => Ok((self.range(head.place, last.place.after(last.text))?, own)),
        }
    }

    /// An item of an array.
    fn item_symbol(&self, array: Array, item: usize) -> Made<Value> {
        let name = self.item_title(array, item)?;
        let (range, own) = self.item_ranges(array, item)?;
        let labels = Value::Array(self.label_symbols(array, item)?);
        let kind = kind_of(array);
        json!(in self.alloc;
            {"name": name, "kind": kind, "range": range, "selectionRange": own, "children": labels})
    }

    /// Adds the items of an array.
    fn add_symbols(&self, symbols: &mut Vec<Value>, array: Array) -> Made<()> {
        for item in 0..self.count(array) {
            symbols.push(self.item_symbol(array, item)?)?;
        }
        Ok(())
    }

    /// What the text has.
    pub(crate) fn symbols(&self) -> Made<Value> {
        let mut symbols = Vec::new(self.alloc);
        for array in Array::ALL {
            self.add_symbols(&mut symbols, array)?;
        }
        Ok(Value::Array(symbols))
    }
}
