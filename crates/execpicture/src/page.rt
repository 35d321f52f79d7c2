//! A document as it is written, which remembers that memory was refused.
use crate::forms::{Px, REPLACEMENT, is_unseen};
use std::alloc::{AllocError, Global};
use std::fmt::Display;

/// What a form is filled with.
#[derive(Clone, Copy)]
pub(crate) enum Value<'a> {
    /// A length or a place.
    At(Px),
    /// A number.
    Number(u64),
    /// How many there are.
    Count(usize),
    /// A word of 32 bits as `$` and its digits in base 16, without leading zeros.
    Hex(u32),
    /// Microseconds as milliseconds, without zeros at the end.
    Millis(u64),
    /// A text as it is.
    Plain(&'a str),
    /// A text in an XML document, between tags or in an attribute.
    Xml(&'a str),
    /// A text in a JSON document, with the double quotes around it.
    Json(&'a str),
}

/// Characters, and how a document writes each.
type Escapes = &'static [(char, &'static str)];

/// How an XML document writes the characters that mean something in it.
const XML: Escapes = &[
    ('<', "&lt;"),
    ('>', "&gt;"),
    ('&', "&amp;"),
    ('"', "&quot;"),
];

/// How a JSON document writes the characters that mean something in a text.
const JSON: Escapes = &[('"', "\\\""), ('\\', "\\\\"), ('\n', "\\n")];

/// The text of a document so far. Once memory was refused it takes nothing more, so that this has to be asked for only
/// at the end.
#[derive(Drop)]
pub(crate) struct Page {
    alloc: Global,
    text: String,
    is_refused: bool,
}

impl Page {
    /// An empty page.
    pub fn new(alloc: Global) -> Page {
        Page {
            alloc,
            text: String::new(alloc),
            is_refused: false,
        }
    }

    /// An empty page beside this one, for a text that is needed whole.
    pub fn draft(&self) -> Page {
        Page::new(self.alloc)
    }

    /// The text of a draft. If memory was refused for it, this is as if it was refused for the page.
    pub fn read<'a>(&mut self, draft: &'a Page) -> &'a str {
        self.is_refused = self.is_refused || draft.is_refused;
        &draft.text
    }

    /// Adds a text.
    pub fn push_str(&mut self, text: &str) {
        if !self.is_refused {
            self.is_refused = self.text.push_str(text).is_err();
        }
    }

    /// Adds a value as it is displayed: `write!` calls it.
    pub fn write_fmt<D: Display + Drop>(&mut self, shown: D) {
        if !self.is_refused {
            self.is_refused = self.text.write_fmt(shown).is_err();
        }
    }

    /// Adds a number.
    fn push_number(&mut self, n: u64) {
        write!(self, "{n}")
    }

    /// Adds microseconds as milliseconds.
    fn push_millis(&mut self, micros: u64) {
        self.push_number(micros / 1000);
        if micros % 1000 > 0 {
            self.push_str(".");
            self.push_number(micros / 100 % 10);
        }
        if micros % 100 > 0 {
            self.push_number(micros / 10 % 10);
        }
        if micros % 10 > 0 {
            self.push_number(micros % 10);
        }
    }

    /// Adds a character of a text.
    fn push_character(&mut self, c: char, escapes: Escapes) {
        for (escaped, shown) in escapes {
            if *escaped == c {
                return self.push_str(shown);
            }
        }
        if !self.is_refused {
            let shown = if is_unseen(c) { REPLACEMENT } else { c };
            self.is_refused = self.text.push(shown).is_err();
        }
    }

    /// Adds a text with its characters as a document has them.
    fn push_text(&mut self, text: &str, escapes: Escapes) {
        for c in text.chars() {
            self.push_character(c, escapes);
        }
    }

    /// Adds a value.
    pub fn push(&mut self, value: Value<'_>) {
        match value {
            Value::At(place) => self.push_number(u64::from(place.0)),
            Value::Number(n) => self.push_number(n),
            Value::Count(n) => self.push_number(n as u64),
            Value::Hex(n) => write!(self, "${n:X}"),
            Value::Millis(micros) => self.push_millis(micros),
            Value::Plain(text) => self.push_str(text),
            Value::Xml(text) => self.push_text(text, XML),
            Value::Json(text) => {
                self.push_str("\"");
                self.push_text(text, JSON);
                self.push_str("\"");
            }
        }
    }

    /// Adds a form with the values, in their order, in the places of its `{}`.
    pub fn fill(&mut self, form: &str, values: &[Value<'_>]) {
        let mut rest = form;
        for value in values {
            if let Some((before, after)) = rest.split_once("{}") {
                self.push_str(before);
                self.push(*value);
                rest = after;
            }
        }
        self.push_str(rest);
    }

    /// The text.
    ///
    /// # Errors
    ///
    /// Memory was refused.
    pub fn text(&self) -> Result<&str, AllocError> {
        if self.is_refused {
            return Err(AllocError);
        }
        Ok(&self.text)
    }

    /// Removes the text.
    pub fn clear(&mut self) {
        self.text.clear();
    }

    /// Becomes the text.
    ///
    /// # Errors
    ///
    /// Memory was refused.
    pub fn into_text(self) -> Result<String, AllocError> {
        if self.is_refused {
            return Err(AllocError);
        }
        Ok(self.text)
    }
}
