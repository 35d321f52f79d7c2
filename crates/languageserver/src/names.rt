//! The names of a text: of its tasks, libraries and software interrupts, and of the ports that its code makes public.

use crate::code::{CodeLine, string_in};
use crate::made::Made;
use crate::query::Query;
use crate::subject::without_quotes;
use crate::word_help::Names;
use execadvice::{FilePlace, said_by};
use serde_json::Value;
use std::alloc::Global;
use taskscript::{Array, TablePlace};

/// The array whose items have names of that kind.
pub(crate) fn array_named(names: Names) -> Option<Array> {
    match names {
        Names::Task => Some(Array::Task),
        Names::Library => Some(Array::Library),
        Names::Softint => Some(Array::Softint),
        Names::Port | Names::Device | Names::Other => None,
    }
}

/// The name by which a line makes a port public, if it does.
fn port_in(alloc: Global, line: &CodeLine) -> Made<Option<&str>> {
    match said_by(alloc, line.code.as_str())? {
        Some(said) if said.word.text() == "AddPort" => {
            Ok(said.arguments.get(1).copied().map(without_quotes))
        }
        _ => Ok(None),
    }
}

/// Adds a name, unless it is there or is the empty text.
fn add_once(names: &mut Vec<String>, name: String) -> Made<()> {
    let is_known = names.iter().any(|one| one.as_str() == name.as_str());
    if !is_known && !name.is_empty() {
        names.push(name)?;
    }
    Ok(())
}

impl<'a> Query<'a> {
    /// How many items of an array are looked at: as many as it may have.
    pub(crate) fn count(&self, array: Array) -> usize {
        self.written.items(array).len().min(array.limit())
    }

    /// The place at which the name of an item is written, and the name as it is written.
    pub(crate) fn name_part(
        &self,
        array: Array,
        item: usize,
    ) -> Made<Option<(FilePlace, &'a str)>> {
        let of = TablePlace::Item(array, item);
        match self.written.key(self.alloc, of, "name")? {
            None => Ok(None),
            Some(key) => Ok(Some((key.value.place, key.value.text))),
        }
    }

    /// The name of an item, or the empty text.
    pub(crate) fn item_name(&self, array: Array, item: usize) -> Made<String> {
        match self.name_part(array, item)? {
            None => Ok(String::new(self.alloc)),
            Some((_, text)) => string_in(self.alloc, text),
        }
    }

    /// The range of the name of an item, or of its head if it has none.
    pub(crate) fn item_range(&self, array: Array, item: usize) -> Made<Value> {
        if let Some((place, text)) = self.name_part(array, item)? {
            return self.range_of(place, text);
        }
        match self.written.head(array, item) {
            None => Ok(Value::Null),
            Some(head) => self.range_of(head.place, head.text),
        }
    }

    /// The names of the items of an array, each once.
    fn item_names(&self, array: Array) -> Made<Vec<String>> {
        let mut names = Vec::new(self.alloc);
        for item in 0..self.count(array) {
            add_once(&mut names, self.item_name(array, item)?)?;
        }
        Ok(names)
    }

    /// The lines that make a port public, each with its name.
    pub(crate) fn port_lines(&self) -> Made<Vec<(CodeLine, String)>> {
        let mut found = Vec::new(self.alloc);
        for line in self.all_code()? {
            let name = match port_in(self.alloc, &line)? {
                None => None,
                Some(name) => Some(String::from_str(self.alloc, name)?),
            };
            if let Some(name) = name {
                found.push((line, name))?;
            }
        }
        Ok(found)
    }

    /// The names of the ports that the code makes public, each once.
    fn port_names(&self) -> Made<Vec<String>> {
        let mut names = Vec::new(self.alloc);
        for (_, name) in self.port_lines()? {
            add_once(&mut names, name)?;
        }
        Ok(names)
    }

    /// All names of a kind that the text has, each once.
    pub(crate) fn names(&self, names: Names) -> Made<Vec<String>> {
        if let Some(array) = array_named(names) {
            return self.item_names(array);
        }
        match names {
            Names::Port => self.port_names(),
            Names::Device => {
                let mut device = Vec::new(self.alloc);
                device.push(String::from_str(self.alloc, "timer.device")?)?;
                Ok(device)
            }
            _ => Ok(Vec::new(self.alloc)),
        }
    }
}
